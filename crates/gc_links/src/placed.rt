//! The link to a place, whichever that is.

ghost use Rattle.std.specs.Prelude.{◌≡◌, [], Some, true, IfOk};

use crate::calls::Calls;
use crate::device::Unusable;
use crate::device_link::DeviceLink;
use crate::link::{Came, Link, Moment};
use crate::place::Place;
use crate::tcp::TcpLink;
use gc_lines::PortFailed;
use std::fs::File;
use std::net::{Net, TcpListener, TcpStream};
use std::rt::Files;
use std::time::Clock;

/// A link to the place of an instrument, by what it goes over.
#[derive(Drop)]
pub enum PlacedLink<'a, R> {
    /// Over TCP.
    Tcp(TcpLink<'a, R>),
    /// Over a device.
    Device(DeviceLink<'a, R>),
}

impl<
    'a,
    R: Net<Listener = TcpListener, Stream = TcpStream> + Files<File = File> + Clock,
> PlacedLink<'a, R> {
    ghost use Rattle.gc_links.specs.Placed.{acts_in, place_in, place_seen};

    /// A link to a place. A device is opened at once: one that can't be used is refused, and one that can be is held for the
    /// link's first opening. One that isn't there yet, or can't be opened, locked or set up for a reason without a name, is
    /// not refused. `None` as the reason: the clock can't be read.
    pub fn new(rt: &'a R, place: Place<'a>) -> Result<PlacedLink<'a, R>, Option<Unusable>>
        ensures { IfOk result (λ link. (place_in link ≡ place_seen place.entry) × (acts_in link ≡ [])) }
    {
        let link = match place {
            Place::Port(port) => TcpLink::new(rt, port),
            Place::Host(host) => TcpLink::to_host(rt, host),
            Place::Device(path) => return Ok(PlacedLink::Device(DeviceLink::new(rt, path)?)),
        };
        match link {
            Ok(link) => Ok(PlacedLink::Tcp(link)),
            Err(_) => Err(None),
        }
    }
}

impl<'a, R> PlacedLink<'a, R> {
    ghost use Rattle.gc_links.specs.Placed.{calls_in, place_in, place_seen};

    /// Closes the link, and returns its calls of the system.
    pub(crate) fn into_calls(self) -> Calls
        ensures { result.made ≡ calls_in self.entry }
    {
        match self {
            PlacedLink::Tcp(link) => link.into_calls(),
            PlacedLink::Device(link) => link.into_calls(),
        }
    }

    /// Whether the link leads to this place.
    pub fn leads_to(&self, place: Place<'_>) -> bool
        ensures { result ≡ true → place_in self.now ≡ place_seen place.entry }
    {
        match self {
            PlacedLink::Tcp(link) => link.leads_to(place),
            PlacedLink::Device(link) => link.leads_to(place),
        }
    }
}

// Each call is that of the link inside.
impl<'a, R: Net<Listener = TcpListener, Stream = TcpStream> + Files<File = File> + Clock> Link
    for PlacedLink<'a, R> {
    ghost use Rattle.gc_links.specs.Placed.{acts_in};

    ghost acts = { λ link. Some (acts_in link) };

    fn now(&mut self) -> Result<Moment, PortFailed> {
        match self {
            PlacedLink::Tcp(link) => link.now(),
            PlacedLink::Device(link) => link.now(),
        }
    }

    fn read(&mut self, buf: &mut [u8], millis: u64) -> Came {
        match self {
            PlacedLink::Tcp(link) => link.read(buf, millis),
            PlacedLink::Device(link) => link.read(buf, millis),
        }
    }

    fn put(&mut self, bytes: &[u8]) -> Result<(), usize> {
        match self {
            PlacedLink::Tcp(link) => link.put(bytes),
            PlacedLink::Device(link) => link.put(bytes),
        }
    }

    fn close(&mut self) {
        match self {
            PlacedLink::Tcp(link) => link.close(),
            PlacedLink::Device(link) => link.close(),
        }
    }

    fn open(&mut self) -> Result<(), PortFailed> {
        match self {
            PlacedLink::Tcp(link) => link.open(),
            PlacedLink::Device(link) => link.open(),
        }
    }
}
