//! Which stray, a reply that no request is outstanding for, shows that a line was altered.

ghost use Rattle.std.specs.Prelude.{◌≡◌};
ghost use Rattle.gc_client.specs.Rule.{place};
ghost use Rattle.gc_texts.specs.Strays.{is_impossible};

use gc_client::{IDS, WINDOW};

/// Whether a reply with this id, 0 to 7, is a stray that can't repeat the reply that settled last; a reply without an id (`None`) is
/// none. `next` is the client's next id, 0 to 7, and `outstanding` how many requests are, timed-out ones included, at most 7.
///
/// If nothing was altered, a stray repeats that reply: its id is the one before that of the oldest outstanding request, or before the
/// next id if none is outstanding. So any other stray was altered, or the line that settled last was. A reply whose request is
/// outstanding is no stray. One without an id may come from elsewhere, and shows nothing.
pub fn is_impossible(next: u8, outstanding: usize, id: Option<u8>) -> bool
    ensures { result ≡ is_impossible next outstanding id }
{
    let Some(id) = id else {
        return false;
    };
    let at = place(next, outstanding, id);
    at >= outstanding && at != WINDOW
}

/// How far an id, 0 to 7, lies after that of the oldest outstanding request, or after the next id if none is outstanding, going round at
/// the number of ids: the place of the request with this id, if one is outstanding. `next` is the client's next id, and `outstanding` how
/// many requests are.
pub fn place(next: u8, outstanding: usize, id: u8) -> usize
    ensures { result ≡ place next outstanding id }
{
    let ids = usize::from(IDS);
    let oldest = (usize::from(next) + ids).saturating_sub(outstanding) % ids;
    (usize::from(id) + ids - oldest) % ids
}
