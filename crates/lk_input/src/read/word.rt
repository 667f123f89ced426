//! The texts that the format fixes, and the steps of a path.

ghost use Rattle.std.specs.Prelude.{◌≡◌, ℕ, List as Items};

use std::fmt;

/// What is written as a fixed text: a key, or one of the texts that are listed for a value.
pub(crate) trait Word: Copy + Drop {
    /// How it is written.
    ghost spelling: { Self → Items ℕ };

    /// How it is written.
    fn text(self) -> &'static str
        ensures { result.now ≡ spelling self };
}

/// A step of a path: from an object to the member with a key, or from a list to an item.
#[derive(Clone, Copy)]
pub(crate) enum Step {
    Member(&'static str),
    Item(usize),
}

/// The key, or the index.
impl fmt::Display for Step {
    ghost use Rattle.std.specs.Prelude.{Some};
    ghost use Rattle.lk_input.specs.ReadingSteps.{step_text};

    ghost output = { λ step. Some (step_text step) };

    fn fmt<W: fmt::Write>(&self, f: &mut fmt::Formatter<W>) -> fmt::Result {
        match *self {
            Step::Member(key) => write!(f, "{key}"),
            Step::Item(index) => write!(f, "{index}"),
        }
    }
}
