//! Laws on what a layout answers, each proved as the contract of a function that does nothing.

ghost use Rattle.lk_answers.specs.QueryLaws.{ThreadLocalDataEndsBelow};

use lk_own_symbols::laws::segments_end_below;

/// A law: the thread-local segment of a defined layout ends below 2^64, rounded up to its alignment; so `Layout::tls_end_address` tells
/// that end of each link that is laid out.
pub fn thread_local_data_ends_below()
    ensures { ThreadLocalDataEndsBelow }
{
    segments_end_below();
}
