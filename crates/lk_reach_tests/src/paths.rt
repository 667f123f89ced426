//! Paths by their own calls: which lists of units are paths, and which path is shown.

ghost use Rattle.lk_link.specs.WellFormed.{IsWellFormed};

use crate::paths::checked::add_checked;
use crate::paths::shown::add_shown;
use lk_check::check_link;
use lk_explain::Unit;
use lk_input::{InputError, read_link};
use lk_link::{FileId, LinkInput, SymbolId};
use std::alloc::{AllocError, Global};

mod checked;
mod shown;

/// What is asked of units of a link: in a row, they come before a colon and the link's description, with commas between them. A
/// symbol is its number, a section the numbers of its group and file and its index.
#[derive(Clone, Copy)]
pub enum OfPaths {
    /// Whether they are a path.
    Checked,
    /// The path that is shown to the first one.
    Shown,
}

/// The number that a text is, or 0.
fn number(text: &str) -> u32 {
    text.trim().parse::<u32>().unwrap_or(0)
}

/// The numbers of a text.
fn numbers_of(alloc: Global, text: &str) -> Result<Vec<u32>, AllocError> {
    let mut numbers = Vec::new(alloc);
    for word in text.split_whitespace() {
        numbers.push(number(word))?;
    }
    Ok(numbers)
}

/// The unit that numbers are.
fn unit_by(numbers: &[u32]) -> Unit {
    match numbers {
        [group, file, index] => Unit::Sec(
            FileId {
                group: *group,
                file: *file,
            },
            *index,
        ),
        [symbol, ..] => Unit::Sym(SymbolId::from_u32(*symbol)),
        [] => Unit::Sym(SymbolId::from_u32(0)),
    }
}

/// The units of a text.
fn units_of(alloc: Global, text: &str) -> Result<Vec<Unit>, AllocError> {
    let mut units = Vec::new(alloc);
    for part in text.split(',') {
        let numbers = numbers_of(alloc, part)?;
        if !numbers.is_empty() {
            units.push(unit_by(numbers.as_slice()))?;
        }
    }
    Ok(units)
}

/// Adds what is answered of units of a link.
fn add_asked(
    alloc: Global,
    asked: OfPaths,
    line: &mut String,
    link: &LinkInput,
    units: &[Unit],
) -> Result<(), AllocError>
    requires { IsWellFormed link.now }
{
    match asked {
        OfPaths::Checked => add_checked(line, link, units),
        OfPaths::Shown => add_shown(alloc, line, link, units),
    }
}

/// Adds what is answered of units of a link that there is.
fn add_found(
    alloc: Global,
    asked: OfPaths,
    line: &mut String,
    link: &Result<LinkInput, InputError>,
    units: &[Unit],
) -> Result<(), AllocError> {
    match link {
        Ok(link) => {
            if check_link(link).is_err() {
                return line.push_str("bad link");
            }
            add_asked(alloc, asked, line, link, units)
        }
        Err(error) => write!(line, "no link: {error}"),
    }
}

/// Adds what is answered.
pub fn add_of_paths(
    alloc: Global,
    line: &mut String,
    asked: OfPaths,
    text: &str,
) -> Result<(), AllocError> {
    let (units, description) = text.split_once(": ").unwrap_or((text, ""));
    let units = units_of(alloc, units)?;
    let link = read_link(alloc, description.as_bytes());
    add_found(alloc, asked, line, &link, units.as_slice())
}
