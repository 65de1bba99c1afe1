//! Frequencies: how often something happens to a line, and from which range a number is drawn for it.

/// How often something happens, and from which range a number is drawn for it: a time in milliseconds, or how many times.
#[derive(Clone, Copy)]
pub struct Frequency {
    /// In how many of 100,000 lines it happens on average; 100,000 for a word without a percentage.
    pub share: u32,
    /// The least number that is drawn. 0, as `most`, if no number is drawn.
    pub least: u32,
    /// The greatest number that is drawn.
    pub most: u32,
}
