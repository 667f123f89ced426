//! Devices that give and take bytes, and whole inputs and outputs over them.
#![tactic(auto)]

pub mod faults;
pub mod limit;
pub mod memory;
pub mod sink;
pub mod source;
pub mod standard;
pub mod sure;
mod transcript;
pub mod transfer;

pub use faults::FaultCount;
pub use memory::{MemorySink, MemorySource};
pub use sink::Sink;
pub use source::{Failed, Source};
pub use standard::{StandardInput, StandardOutput};
pub use sure::{SureSink, SureSource};
pub use transfer::ReadAllError;
