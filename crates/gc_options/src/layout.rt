//! The layout of records: in which form, whether what comes before them is there already, and of which run they are.

use gc_rows::Form;

/// How records are laid out.
#[derive(Clone, Copy)]
pub struct Layout {
    /// In which form each is written.
    pub form: Form,
    /// Whether no header is to be written, as in a file that has one already.
    pub headed: bool,
    /// When the run began, in milliseconds since 1970-01-01, UTC; 0 before it begins.
    pub run: u64,
}
