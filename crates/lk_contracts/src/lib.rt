//! Contracts of public calls, said once more, each of a function that does little but call. Were a clause taken from such a call, its
//! function here wouldn't be proved. Wrong bodies for them, which the prover has to refuse, stand in `must-fail/`. No program stands on
//! this crate.
#![tactic(auto)]

pub mod merging;
pub mod placing;
pub mod walks;
