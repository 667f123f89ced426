//! References that can't be met, as lines.

use lk_live::ReferenceFault;
use std::fmt;

/// References that can't be met, behind the first of them.
#[derive(Clone, Copy)]
pub(crate) struct FurtherLines<'a> {
    pub(crate) faults: &'a [ReferenceFault],
}

/// Each on a line of its own; no line ends behind the last.
impl<'a> fmt::Display for FurtherLines<'a> {
    ghost use Rattle.std.specs.Prelude.{Some};
    ghost use Rattle.lk_layout.specs.Texts.{further_lines};

    ghost output = { λ further. Some (further_lines further.faults.now) };

    fn fmt<W: fmt::Write>(&self, f: &mut fmt::Formatter<W>) -> fmt::Result {
        for fault in self.faults {
            write!(f, "\n{fault}")?;
        }
        Ok(())
    }
}
