//! Laws of the client's rule: of ids, and of what the client does with lines of any origin. Each function does nothing: its contract
//! is the law.

ghost use Rattle.std.specs.Prelude.{◌≡◌, ℕ, ◌<◌, ◌≤◌, ◌↔◌, true, List};
ghost use Rattle.gc_client.specs.declared.window.TheConstants.{WINDOW, IDS};
ghost use Rattle.gc_client.specs.Rule.{ById};
ghost use Rattle.gc_client.specs.Ids.{FitsWaiting, IdsDiffer, IdsHavePlaces, SendKeepsIds, SettlingKeepsIds, HearsByGrammar};
ghost use Rattle.gc_client.specs.Silence.{IsReplyWithId, is_ours, IgnoresForeign};
ghost use Rattle.gc_client.specs.OneForOne.{Step, begun, course, AccountsForSends};

/// The widest window lets seven requests wait, and there are eight ids.
pub fn limits()
    ensures window { WINDOW ≡ 7 }
    ensures ids { IDS ≡ 8 }
{}

/// A request has one id from its send to its settlement.
pub fn ids_last()
    ensures sending { (next waiting : ℕ) → next < IDS → waiting < WINDOW → SendKeepsIds next waiting }
    ensures settling { (next waiting : ℕ) → waiting ≤ WINDOW → SettlingKeepsIds next waiting }
{}

/// The outstanding requests have different ids. A reply with an id fits (`fits` of the rule) exactly if a request with its id is
/// outstanding, and the rule finds that request at its place.
pub fn ids_tell_requests_apart<Q>()
    ensures differ { (c : ById Q) → IdsDiffer c }
    ensures place { (c : ById Q) → IdsHavePlaces c }
    ensures fits { (c : ById Q) → FitsWaiting c }
{}

/// The client takes an id from a line exactly if the line is a reply with an id by the grammar, and then it takes that id.
pub fn ids_are_heard()
    ensures { (line : List ℕ) → HearsByGrammar line }
{}

/// Lines that are no replies, and replies without an id, are ignored: over a list of lines the client settles the same, and is
/// the same afterwards, as over that list without them.
pub fn foreign_lines_are_silent<Q>()
    ensures silent { (c : ById Q) (lines : List (List ℕ)) → IgnoresForeign c lines }
    ensures ours { (line : List ℕ) → (is_ours line ≡ true) ↔ IsReplyWithId line }
{}

/// From a new client on, over every list of sends, lines of any origin, times and restarts: the settlements so far, followed by
/// the outstanding requests, are the sends that weren't refused, with their targets and calls, in order, each once.
pub fn settles_one_for_one<Q>()
    ensures { (width : ℕ) (steps : List (Step Q)) → AccountsForSends (course width begun steps) }
{}
