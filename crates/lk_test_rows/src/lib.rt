//! What the crates of tests share: rows of a text, links that no description gives, and a gate that makes workers take turns. It tests nothing.
#![tactic(auto)]

mod asked;
mod line;
mod lock_step;
mod made;
mod rows;

pub use asked::{Asks, expect_rows};
pub use line::{Failed, Line};
pub use lock_step::LockStep;
pub use made::{groups_of, sized_groups, with_groups};
pub use rows::{Frame, NO_FRAME, Row, add, frame_of, framed, rows_of};
