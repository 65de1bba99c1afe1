//! A wrapper that makes the acts of any link known to proofs: each call is passed on to the link inside, and its result is
//! noted in a history that exists in proofs alone.

ghost use Rattle.std.specs.Prelude.{◌≡◌, []};

use crate::history::{History, Note};
use crate::link::{Came, Link, Moment};
use crate::noting::note_of_read;
use gc_lines::PortFailed;

/// A link that notes the acts of the link inside.
#[derive(Drop)]
pub struct Telling<L> {
    /// The link inside.
    pub link: L,
    /// The results of its calls so far, which proofs alone can read.
    pub history: History,
}

impl<L: Link> Telling<L> {
    /// A link over `link`, of whose calls none is noted yet.
    pub fn new(link: L) -> Telling<L>
        ensures { result.history.acts ≡ [] }
    {
        Telling {
            link,
            history: History::new(),
        }
    }
}

// Each call is that of the link inside, and its result is added to the history.
impl<L: Link> Link for Telling<L> {
    ghost use Rattle.std.specs.Prelude.{Some};

    ghost acts = { λ t. Some t.history.acts };

    fn now(&mut self) -> Result<Moment, PortFailed> {
        let told = self.link.now();
        let note = match &told {
            Ok(moment) => Note::Told(*moment),
            Err(_) => Note::Untold,
        };
        self.history = self.history.then(&note);
        told
    }

    fn read(&mut self, buf: &mut [u8], millis: u64) -> Came {
        let came = self.link.read(buf, millis);
        self.history = self.history.then(&note_of_read(came, buf));
        came
    }

    fn put(&mut self, bytes: &[u8]) -> Result<(), usize> {
        let put = self.link.put(bytes);
        let note = match put {
            Ok(()) => Note::Put(bytes),
            Err(n) => Note::Cut(bytes, n),
        };
        self.history = self.history.then(&note);
        put
    }

    fn close(&mut self) {
        self.link.close();
        self.history = self.history.then(&Note::Closed);
    }

    fn open(&mut self) -> Result<(), PortFailed> {
        let opened = self.link.open();
        let note = match &opened {
            Ok(()) => Note::Opened,
            Err(_) => Note::Unopened,
        };
        self.history = self.history.then(&note);
        opened
    }
}
