//! Turns: which command of a station's text a task is, and which attempt of its chain it belongs to.

/// Which command of a station's text a task is, and which attempt of its chain it belongs to.
#[derive(Clone, Copy)]
pub struct Turn {
    /// The command's place among the commands of its section, setup or cycle, counted from 0.
    pub place: usize,
    /// The attempt of its chain, counted from 1. Once a command of the setup was sent, it is the attempt of the setup in its run.
    pub attempt: u64,
    /// The command's place in its chain, counted from 0. Once a command of the setup was sent, it is 1, because no attempt of a
    /// chain begins with that command.
    pub link: usize,
}
