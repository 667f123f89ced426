//! Why no description was read.

ghost use Rattle.std.specs.Prelude.{◌≡◌, ◌∷◌, ◌++◌, [], IfOk};
ghost use Rattle.lk_input.specs.declared.read.error.InputError.TheVariants.{NotJson, Shape, NoMemory};
ghost use Rattle.lk_input.specs.ReadingSteps.{step_text};

use crate::read::fail::Fail;
use crate::read::word::Step;
use lk_link::text::Text;
use std::alloc::{AllocError, AllocFailed, Global};
use std::fmt;
use std::str::Utf8Error;

/// Why bytes give no link description.
#[derive(Debug, Drop)]
pub enum InputError {
    /// The bytes are no JSON text.
    NotJson,
    /// The first value, in the order of the format, that is missing or has a wrong shape: its path from the top, as
    /// `/plan/page`; empty for the top itself.
    Shape(Text),
    /// Memory ran out.
    NoMemory,
}

/// Why bytes give no description, as `not a link description: /plan/page`; nothing for want of memory.
impl fmt::Display for InputError {
    ghost use Rattle.std.specs.Prelude.{Some};
    ghost use Rattle.lk_input.specs.Texts.{input_error_text};

    ghost output = { λ error. Some (input_error_text error) };

    fn fmt<W: fmt::Write>(&self, f: &mut fmt::Formatter<W>) -> fmt::Result {
        match self {
            InputError::NotJson => write!(f, "not JSON"),
            InputError::Shape(path) => {
                let path = path.as_str();
                write!(f, "not a link description: {path}")
            }
            InputError::NoMemory => Ok(()),
        }
    }
}

impl From<AllocError> for InputError {
    ghost from_gives = { λ _ e. e ≡ NoMemory };

    fn from(_e: AllocError) -> InputError {
        InputError::NoMemory
    }
}

impl<T: Drop> From<AllocFailed<T>> for InputError {
    ghost from_gives = { λ _ e. e ≡ NoMemory };

    fn from(_e: AllocFailed<T>) -> InputError {
        InputError::NoMemory
    }
}

/// Bytes that are no text are no JSON.
impl From<Utf8Error> for InputError {
    ghost from_gives = { λ _ e. e ≡ NotJson };

    fn from(_e: Utf8Error) -> InputError {
        InputError::NotJson
    }
}

impl From<Fail> for InputError {
    ghost use Rattle.lk_input.specs.Tokens.{input_error};

    ghost from_gives = { λ e error. error ≡ input_error e };

    fn from(e: Fail) -> InputError {
        match e {
            Fail::NotJson => InputError::NotJson,
            Fail::NoMemory => InputError::NoMemory,
        }
    }
}

/// The path of a fault as seen from one step above.
pub(crate) fn path_below(alloc: Global, step: Step, path: &Text) -> Result<Text, AllocError>
    ensures { IfOk result (λ longer. longer ≡ 47 ∷ step_text step ++ path.now) }
{
    let longer = format!(in alloc; "/{step}{path}", path = path.as_str())?;
    Ok(Text::from_string(longer))
}

impl InputError {
    ghost use Rattle.lk_input.specs.ReadingSteps.{IsBelow};

    /// The fault of a value of a wrong shape, before its path is known.
    pub(crate) fn misfit(alloc: Global) -> InputError
        ensures { result ≡ Shape [] }
    {
        InputError::Shape(Text::new(alloc))
    }

    /// The fault as seen from one step above.
    pub(crate) fn below(self, alloc: Global, step: Step) -> InputError
        ensures { IsBelow (step_text step) self result }
    {
        match self {
            InputError::Shape(path) => match path_below(alloc, step, &path) {
                Ok(longer) => InputError::Shape(longer),
                Err(_) => InputError::NoMemory,
            },
            other => other,
        }
    }
}
