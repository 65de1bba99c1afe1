//! The window: the store of the requests that wait, as the client uses it.

ghost use Rattle.std.specs.Prelude.{◌≡◌, ◌<◌, ◌≤◌, [], ◌∷◌, ◌++◌, length, slice_get};
ghost use Rattle.gc_client.specs.Rule.{given_up_at};

use crate::pending::Pending;
use gc_catalogue::Asking;

/// The most requests that can wait at the same time: the width of the widest window.
pub const WINDOW: usize = 7;

/// How many ids there are: the digits 0 to 7, one more than the most requests that can wait.
pub const IDS: u8 = 8;

/// A store of the requests that wait, which contracts see as a list of at most seven, oldest first.
pub trait Window: Drop {
    ghost use Rattle.std.specs.Prelude.{List};
    ghost use Rattle.gc_client.specs.declared.pending.Pending.{Pending};

    /// What the requests ask for.
    type Asked: Asking;

    /// The requests that wait, oldest first.
    ghost pendings: { Self → List (Pending Self.Asked) };

    /// How many requests wait.
    fn len(&self) -> usize
        ensures len { result ≡ length (pendings self.now) }
        ensures within { result ≤ WINDOW };

    /// The request at place k; the oldest one is at place 0.
    fn get(&self, k: usize) -> Pending<Self::Asked>
        requires { k < length (pendings self.now) }
        ensures { slice_get (pendings self.now) k ≡ Some result };

    /// Appends a request, which is then the youngest.
    fn push(&mut self, p: Pending<Self::Asked>)
        requires { length (pendings self.old) < WINDOW }
        ensures { pendings self.new ≡ pendings self.old ++ p ∷ [] };

    /// Takes the oldest request out, and returns it. The others move up by one place.
    fn take_first(&mut self) -> Pending<Self::Asked>
        requires { 0 < length (pendings self.old) }
        ensures { pendings self.old ≡ result ∷ pendings self.new };

    /// Marks the request at place k as timed out. It stays at its place.
    fn give_up(&mut self, k: usize)
        requires { k < length (pendings self.old) }
        ensures { pendings self.new ≡ given_up_at k (pendings self.old) };

    /// Takes all requests out.
    fn clear(&mut self)
        ensures { pendings self.new ≡ [] };
}
