//! What a run has of its caller.

/// What a caller lends to a run, and whether it ends with it.
#[derive(Drop)]
pub(crate) struct Caller<'a, R, G> {
    /// What starts threads, and lets them wait.
    pub(crate) rt: &'a R,
    /// What is told before each turn of a worker.
    pub(crate) gate: &'a G,
    /// Whether the process ends behind the run: then what was laid out isn't let go piece by piece, and stays for the system.
    pub(crate) is_last: bool,
}
