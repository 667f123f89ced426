//! What expressions are worth: of numbers alone, before anything is placed, while sections are placed, and when all is.
#![tactic(auto)]

mod constants;
mod early;
mod evaluation;
mod known;
mod known_values;
mod late;
pub mod laws;
mod named;
mod no_value;
mod numbers;
mod operators;
mod placed;
mod positions;
mod record;
mod stack;
mod values;

pub use crate::constants::{Constant, constant_redirects};
pub use crate::early::EarlySurroundings;
pub use crate::known_values::{GivenValues, KnownValues};
pub use crate::late::LateSurroundings;
pub use crate::named::names_no_symbol;
pub use crate::no_value::NoValue;
pub use crate::placed::{GivenRecords, PlacedRecords};
pub use crate::positions::{SymbolPosition, SymbolPositions};
pub use crate::record::OutputRecordLayout;
pub use crate::values::{evaluate_const, evaluate_early_expression, evaluate_expression};
