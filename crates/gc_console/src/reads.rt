//! How many reads a subcommand makes at most.

/// The most reads of an input or a link: as many as a `u32` counts.
pub(crate) const MOST_READS: u32 = 4294967295;
