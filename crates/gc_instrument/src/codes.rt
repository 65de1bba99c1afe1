//! The codes in the replies of a simulated instrument, beside 0 for success. Numbers and meanings are the manual's.

/// The return code for a value that isn't allowed.
pub const INVALID_PARAMETER: u16 = 2;

/// The return code of a measurement that has the angles, but no distance.
pub const NO_DISTANCE: u16 = 1285;

/// The return code of a search that found no target.
pub const NO_TARGET: u16 = 8710;

/// The communication code for a procedure that isn't in the catalogue.
pub const UNKNOWN_PROCEDURE: u16 = 3081;

/// The communication code for parameters that can't be read.
pub const WRONG_PARAMETERS: u16 = 3080;
