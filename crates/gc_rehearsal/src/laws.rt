//! What is proved of the definitions themselves. The functions have no effect: their contracts are the laws.

ghost use Rattle.gc_rehearsal.specs.Laws.{DrawsAsWritten};

/// The draws of seed 7 that `docs/BAD-LINES.md` has as an example follow from the definitions.
pub fn draws_are_as_written()
    ensures { DrawsAsWritten }
{}
