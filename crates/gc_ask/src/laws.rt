//! What is proved of the definitions themselves. The functions have no effect: their contracts are the laws.

ghost use Rattle.std.specs.Prelude.{◌≡◌, ℕ, List};
ghost use Rattle.gc_ask.specs.Laws.{AsksById};
ghost use Rattle.gc_ask.specs.declared.unused.TheConstants.{ROOM};
ghost use Rattle.gc_texts.specs.declared.commands.Command.{Command};

/// One read of either end of a link takes at most 256 bytes. Contracts cite this limit by its name.
pub fn limits()
    ensures { ROOM ≡ 256 }
{}

/// What asking settles, by ids: request k, counted from 0, has id k modulo 8. It is settled by the first line that is a reply
/// with this id, for k > 0 among the lines after the one that settled request k - 1. Where none of them is such a reply,
/// neither request k nor any after it is settled.
pub fn requests_are_settled_by_their_ids()
    ensures { (k : ℕ) (command : Command) (later : List Command) → AsksById k command later }
{}
