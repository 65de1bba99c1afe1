//! What is proved of the definitions themselves. Each function does nothing: its contract is the law.

ghost use Rattle.gc_scenes.specs.Laws.{TableIsTheInstance, OneReply, NearestIsNearest, StartsAnew};

/// In a scene without rules the instrument does with a line what the instrument of the execution table does, and replies the
/// same. How many looks are counted then isn't said.
pub fn table_is_the_instance()
    ensures { TableIsTheInstance }
{}

/// A state, which contains the noise's seed, and a line determine the state after the line, and the reply or that there is none.
pub fn one_reply()
    ensures { OneReply }
{}

/// Target recognition aims at the nearest target within its window, and at the first of several that are equally near. It aims at none
/// only if all targets are beyond the window.
pub fn nearest_is_nearest()
    ensures { NearestIsNearest }
{}

/// An instrument that starts anew at a request restarts then, has no reply stored, and sends its sign-on line, which is no reply.
/// Where no start is due it does what the scene's instrument does. A state and a line determine what it does.
pub fn starts_keep_no_reply()
    ensures { StartsAnew }
{}
