//! A list of lists in an object of a JSON text, read in pieces.
//!
//! The text is cut at commas between the lists or between items of one. Where these are is guessed, and the readers check it: a value
//! that was read ends where a value may end, and the next piece begins with one, so that the tokens of the pieces are those of the
//! whole text. Where a guess was a bad one, some piece is no row of such values, nothing is answered, and the caller reads the text as
//! a whole.
#![tactic(auto)]

pub use cuts::{Guess, cut};
pub use element::Element;
pub use object::{Others, read_object_by_workers, read_object_in_pieces};
pub use row::Row;

mod cuts;
mod element;
pub mod laws;
mod lists;
mod object;
mod pieces;
mod row;
mod workers;
