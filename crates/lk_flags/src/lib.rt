//! Words of flags that threads share. A word as it is found has what was handed in and what the pass that finds it had set there, and
//! nothing beyond its bound. How all that was set goes together is told once all passes are joined and the table is closed.
#![tactic(auto)]

pub mod flags;
pub mod lists;

pub use flags::{FlagPass, FlagSet, FlagTable};
pub use lists::Reach;
