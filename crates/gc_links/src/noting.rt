//! The note of each act of a link, by its result.

ghost use Rattle.std.specs.Prelude.{◌≡◌};
ghost use Rattle.gc_links.specs.Acts.{CameWithin, clock_act, open_act, put_act, read_act};
ghost use Rattle.gc_links.specs.Noted.{act_of};

use crate::history::Note;
use crate::link::{Came, Moment};
use gc_lines::PortFailed;

/// The note of a reading of the clock.
pub(crate) fn note_of_clock<'a>(told: &Result<Moment, PortFailed>) -> Note<'a>
    ensures { act_of result ≡ clock_act told.now }
{
    match told {
        Ok(moment) => Note::Told(*moment),
        Err(_) => Note::Untold,
    }
}

/// The note of a read, by its outcome and the buffer after it.
pub(crate) fn note_of_read<'a>(came: Came, buf: &'a [u8]) -> Note<'a>
    requires { CameWithin came buf.now }
    ensures { act_of result ≡ read_act came buf.now }
{
    match came {
        Came::Bytes(n, moment) => Note::Gave(&buf[..n], moment),
        Came::Silence(moment) => Note::Silent(moment),
        Came::End => Note::Ended,
        Came::Failure => Note::Broke,
        Came::NoMoment => Note::Untold,
    }
}

/// The note of a write of these bytes.
pub(crate) fn note_of_put<'a>(put: Result<(), usize>, bytes: &'a [u8]) -> Note<'a>
    ensures { act_of result ≡ put_act put bytes.now }
{
    match put {
        Ok(()) => Note::Put(bytes),
        Err(n) => Note::Cut(bytes, n),
    }
}

/// The note of an opening.
pub(crate) fn note_of_open<'a>(opened: &Result<(), PortFailed>) -> Note<'a>
    ensures { act_of result ≡ open_act opened.now }
{
    match opened {
        Ok(()) => Note::Opened,
        Err(_) => Note::Unopened,
    }
}
