//! The state of the placement walk.

/// Where the next part of a section is placed.
#[derive(Clone, Copy, Debug, PartialEq, Eq)]
pub struct Offsets {
    /// The offset in the file.
    pub file: u64,
    /// The address; what a section that isn't allocated counts in its place.
    pub memory: u64,
}

/// What the walk goes by before an event.
#[derive(Clone, Copy, Debug, PartialEq, Eq)]
pub struct Cursors {
    /// The offset in the file.
    pub file: u64,
    /// The address.
    pub memory: u64,
    /// The address at which memory goes on behind zero-fill thread-local sections; none unless one was placed behind the last other
    /// section and the last load segment that opened.
    pub saved: Option<u64>,
    /// A location that no section has taken yet.
    pub pending: Option<u64>,
}
