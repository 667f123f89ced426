//! Laws of the definitions, each proved as the contract of a function that does nothing.

ghost use Rattle.lk_run.specs.SoundRun.{RunsAreSound};
ghost use Rattle.lk_run.specs.Numbers.{NumbersAreThese};
ghost use Rattle.lk_run.specs.Complete.{CheckRunsAreComplete, GeneratedRunsAreComplete, ImageRunsAreComplete, RunsAreComplete, RunsTellOneAnswer, RunsTellTheAnswer, WhyRunsAreComplete};

use lk_check::well_formed_exactly_unfaulted;
use lk_explain::laws::{reached_is_shown, shown_is_one};
use lk_image::laws::images_are_made;
use lk_layout::laws::{defined_answer_exists, defined_answer_is_one, small64_machine_is_lawful};
use lk_map::laws::{
    maps_are_judged, maps_rise, texts_are_read, verdicts_agree, verdicts_tell_good,
};
use lk_reach::laws::marks_are_reached;
use lk_soundness::laws::defined_layouts_are_sound;

/// A law: the answer that words and bytes define, of whatever command, is told by each run in which no device failed, unless memory ran
/// out.
pub fn runs_tell_the_answer()
    ensures { RunsTellTheAnswer }
{
    defined_answer_is_one();
    well_formed_exactly_unfaulted();
    shown_is_one();
    texts_are_read();
    verdicts_agree();
}

/// A law: every words and bytes define an answer, which each run tells in which no device failed, unless memory ran out.
pub fn runs_tell_one_answer()
    ensures { RunsTellOneAnswer }
{
    defined_answer_exists();
    defined_answer_is_one();
    well_formed_exactly_unfaulted();
    marks_are_reached();
    reached_is_shown();
    shown_is_one();
    texts_are_read();
    maps_rise();
    maps_are_judged();
    verdicts_agree();
}

/// A law: a description of at most `LONGEST_INPUT` bytes that meets no refusal is laid out by each run in which no device failed, unless
/// memory ran out.
pub fn runs_are_complete()
    ensures { RunsAreComplete }
{}

/// A law: the image of a description of at most `LONGEST_INPUT` bytes that meets no refusal, nor its image any, is written by each run in
/// which no device failed, unless memory ran out.
pub fn image_runs_are_complete()
    ensures { ImageRunsAreComplete }
{}

/// A law: a generated link that meets no refusal is laid out by each run of its words in which the sink didn't fail, unless memory ran
/// out.
pub fn generated_runs_are_complete()
    ensures { GeneratedRunsAreComplete }
{}

/// A law: of a section in a description of at most `LONGEST_INPUT` bytes without a fault each run of `why`, in which no device failed, tells
/// why it is kept or that it isn't, unless memory ran out.
pub fn why_runs_are_complete()
    ensures { WhyRunsAreComplete }
{}

/// A law: in a good map of at most `LONGEST_INPUT` bytes each run of `check`, in which no device failed, finds no fault, unless memory ran
/// out.
pub fn check_runs_are_complete()
    ensures { CheckRunsAreComplete }
{
    texts_are_read();
    verdicts_tell_good();
}

/// A law: a run that ends with the status of a layout has told a sound one, one of `check` that ends so has read a good map, and one of
/// `image N` has written the bytes of all that stands in the file of a sound layout, and zeros; whoever made it: `run`, `run_alone` or the
/// program.
pub fn runs_are_sound()
    ensures { RunsAreSound }
{
    defined_layouts_are_sound();
    small64_machine_is_lawful();
    images_are_made();
}

/// A law: which numbers the constants are that definitions name: how long lists may be, what rules hold numbers to, the bits of attributes
/// and flags, and what runs go by.
pub fn numbers_are_these()
    ensures { NumbersAreThese }
{}
