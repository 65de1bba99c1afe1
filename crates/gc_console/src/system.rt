//! What the program runs over besides its streams.

use gc_logs::Standard;
use std::alloc::Global;

/// What the program runs over besides its streams: the net, the clock and the files of `rt`, its memory, and which of the
/// standard streams are open.
#[derive(Drop)]
pub(crate) struct System<'a, R> {
    pub(crate) rt: &'a R,
    pub(crate) alloc: Global,
    pub(crate) standard: Standard,
}
