//! The contracts of a layout's and of a run's call, said once more, as `lk_contracts` says those of the calls below them. No program stands
//! on this crate.
#![tactic(auto)]

pub mod layouts;
pub mod runs;
