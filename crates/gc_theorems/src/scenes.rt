//! What is proved of a scene's instrument in the field. Each function does nothing: its contract is the law.

ghost use Rattle.gc_theorems.specs.SceneField.{SceneIsAnInstrument};

/// The instrument of a scene with rules is an instrument: whatever its faults, its hidden and moving targets, its noise, its
/// replies and its ways of real instruments are, whatever its clock shows, and whether it repeats or not, it answers in turn,
/// each request with that request's id, in each state in which what it keeps reads as a reply with its id (`KeptReplyReads`).
/// After a call of the table it keeps its reply to that call, or none; after another request it may also still keep what it
/// kept before. So the proofs on answers over any instrument hold over it, too, as in
/// `gc_program_theorems::laws::rehearsals_are_faithful`.
pub fn scene_is_an_instrument()
    ensures { SceneIsAnInstrument }
{}
