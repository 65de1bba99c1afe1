//! The files by which somebody asks something of a run while it goes on.

/// The paths of the files by which somebody asks for a run's end, and for a cycle between two others. `None`: nobody asks by a file.
#[derive(Clone, Copy)]
pub struct Signals<'a> {
    /// The file that asks for the run's end once it is there, whatever is in it.
    pub until: Option<&'a str>,
    /// The file that asks for a cycle each time that it is changed: a regular file of at most 64 bytes.
    pub now: Option<&'a str>,
}
