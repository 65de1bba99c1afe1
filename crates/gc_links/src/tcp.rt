//! A link over a real connection, to a port of 127.0.0.1 or to a host. None of its calls waits for ever, but for what the system
//! takes to look up a name.

ghost use Rattle.std.specs.Prelude.{◌∷◌, [], Some, None};
ghost use Rattle.std.specs.Time.{instant_nanos};
ghost use Rattle.gc_links.specs.Calls.{Monotonic};
ghost use Rattle.gc_links.specs.Answered.{open_end};
ghost use Rattle.gc_links.specs.DoesOnTcp.{DoesOnTcp};
ghost use Rattle.gc_links.specs.Meant.{AreMeant};

use crate::calls::Calls;
use crate::connection::{PATIENCE, Peer};
use crate::history::{History, Note};
use crate::link::{Came, Link, Moment};
use crate::noting::{note_of_clock, note_of_open, note_of_put, note_of_read};
use crate::place::Place;
use crate::system::{System, Wired};
use crate::timer::Timer;
use crate::wiring::{hang_up, read_wired, renew, send};
use gc_lines::PortFailed;
use std::io;
use std::net::{Net, TcpListener, TcpStream};
use std::time::{Clock, Duration};

/// A connection to a port of this machine or to a host, and the time since the link was made. Its acts are known, and are what
/// the system's calls did.
#[derive(Drop)]
pub struct TcpLink<'a, R> {
    system: System<'a, R>,
    timer: Timer,
    peer: Peer<'a>,
    // How long one write, and the making of a connection at one address, may wait, in milliseconds: at least one.
    patience: u64,
    stream: Option<Wired>,
    history: History,
    pub ghost meant: { ∥ AreMeant (DoesOnTcp peer (instant_nanos timer.start)) (Monotonic (instant_nanos timer.start) ∷ []) None
        history.acts system.calls.made (open_end stream) ∥₁ },
}

impl<'a, R: Net<Listener = TcpListener, Stream = TcpStream> + Clock> TcpLink<'a, R> {
    ghost use Rattle.gc_links.specs.declared.place.Place.TheVariants.{Port, Host};
    ghost use Rattle.gc_links.specs.TcpLinks.{MakesTcpLink, peer_place};

    /// A link to a port of 127.0.0.1 that is not connected yet. It fails where the clock can't be read.
    pub fn new(rt: &'a R, port: u16) -> io::Result<TcpLink<'a, R>>
        ensures { MakesTcpLink (Port port) result }
    {
        TcpLink::with_patience(rt, port, PATIENCE)
    }

    /// A link to a port of 127.0.0.1 that is not connected yet. One write, and the making of a connection, waits no longer than
    /// `patience` milliseconds, where 0 counts as 1. It fails where the clock can't be read.
    pub fn with_patience(rt: &'a R, port: u16, patience: u64) -> io::Result<TcpLink<'a, R>>
        ensures { MakesTcpLink (Port port) result }
    {
        TcpLink::to_peer(rt, Peer::Port(port), patience)
    }

    /// A link to `HOST:PORT` that is not connected yet. The name is looked up at each open, for as long as the system takes for
    /// that, and its addresses are tried in turn until one can be connected to, each for ten seconds at most. It fails where the
    /// clock can't be read.
    pub fn to_host(rt: &'a R, host: &'a str) -> io::Result<TcpLink<'a, R>>
        ensures { MakesTcpLink (Host host.entry) result }
    {
        TcpLink::to_peer(rt, Peer::Host(host), PATIENCE)
    }

    // A link to a peer that is not connected yet.
    fn to_peer(rt: &'a R, peer: Peer<'a>, patience: u64) -> io::Result<TcpLink<'a, R>>
        ensures { MakesTcpLink (peer_place peer.entry) result }
    {
        let mut system = System::new(rt);
        match Timer::new(&mut system) {
            Ok(timer) => Ok(TcpLink {
                system,
                timer,
                peer,
                patience: patience.max(1),
                stream: None,
                history: History::new(),
            }),
            Err(error) => Err(error),
        }
    }
}

impl<'a, R> TcpLink<'a, R> {
    ghost use Rattle.std.specs.Prelude.{◌≡◌, true};
    ghost use Rattle.gc_links.specs.Placed.{place_seen};
    ghost use Rattle.gc_links.specs.TcpLinks.{tcp_place};

    /// Closes the link, and returns its calls of the system.
    pub(crate) fn into_calls(self) -> Calls
        ensures { result.made ≡ self.entry.system.calls.made }
    {
        let TcpLink {
            system,
            timer: _,
            peer: _,
            patience: _,
            stream: _,
            history: _,
        } = self;
        system.into_calls()
    }

    /// Whether the link leads to this place.
    pub(crate) fn leads_to(&self, place: Place<'_>) -> bool
        ensures { result ≡ true → place_seen (tcp_place self.now) ≡ place_seen place.entry }
    {
        match (self.peer, place) {
            (Peer::Port(own), Place::Port(port)) => own == port,
            (Peer::Host(own), Place::Host(host)) => own == host,
            _ => false,
        }
    }
}

// Each call does its act by the system's calls, and notes it.
impl<'a, R: Net<Listener = TcpListener, Stream = TcpStream> + Clock> Link for TcpLink<'a, R> {
    ghost acts = { λ t. Some t.history.acts };

    fn now(&mut self) -> Result<Moment, PortFailed> {
        let told = self.timer.moment(&mut self.system);
        self.history = self.history.then(&note_of_clock(&told));
        told
    }

    // Reads some bytes, or waits until about `millis` milliseconds have gone by. It ends early rather than late: the moment of
    // its silence says how early, and the caller reads again. Where there is no connection, it only waits.
    fn read(&mut self, buf: &mut [u8], millis: u64) -> Came {
        let came = read_wired(&mut self.system, &self.timer, &self.stream, buf, millis);
        self.history = self.history.then(&note_of_read(came, buf));
        came
    }

    // Writes all bytes, as many at once as the system takes.
    fn put(&mut self, bytes: &[u8]) -> Result<(), usize> {
        let put = send(&mut self.system, &self.stream, bytes);
        self.history = self.history.then(&note_of_put(put, bytes));
        put
    }

    fn close(&mut self) {
        hang_up(&mut self.system, &mut self.stream);
        self.history = self.history.then(&Note::Closed);
    }

    // Connects to the peer, and sets how long a write may wait. Where either fails, the old connection stays.
    fn open(&mut self) -> Result<(), PortFailed> {
        let patience = Duration::from_millis(self.patience);
        let opened = renew(&mut self.system, self.peer, patience, &mut self.stream);
        self.history = self.history.then(&note_of_open(&opened));
        opened
    }
}
