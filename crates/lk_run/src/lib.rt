//! The top call of the linker core: words, and what each command answers. Gives on what `lk_devices` and `lk_report` offer, so a caller
//! needs this crate alone.
#![tactic(auto)]

pub mod answer;
mod caller;
mod checked_map;
mod explained;
pub mod fault_texts;
mod generated;
mod imaged;
mod inputs;
mod laid_out;
pub mod laws;
pub mod program;
pub mod status;
pub mod too_long;
mod top_call;
pub mod words;

pub use answer::Answer;
pub use fault_texts::{fault_text, input_fault_text};
pub use lk_devices::{
    Failed, FaultCount, MemorySink, MemorySource, ReadAllError, Sink, Source, StandardInput,
    StandardOutput, SureSink, SureSource, faults, limit, memory, sink, source, standard, sure,
    transfer,
};
pub use lk_generator::generate_link;
pub use lk_link::FileId;
pub use lk_report::{report_text, report_text_by_workers, summary_text};
pub use status::Status;
pub use top_call::{run, run_alone};
pub use words::{Command, read_words};
