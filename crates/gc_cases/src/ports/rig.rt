//! A stand-in for the system whose devices and connections a case made before, and whose clock goes only while a link rests.

use gc_links::millis_of;
use gc_probes::{CaseRuntime, StandIn, in_use, not_found};
use std::cell::RefCell;
use std::fs::File;
use std::io;
use std::net::TcpStream;
use std::time::Duration;

// What was done so far.
#[derive(Drop)]
pub(crate) struct Done {
    // How many milliseconds links have rested.
    rested: u64,
    // How often a link tried to connect.
    tried: usize,
}

impl Done {
    // Nothing was done: no rest, and no attempt to connect.
    pub(crate) fn nothing() -> Done {
        Done {
            rested: 0,
            tried: 0,
        }
    }
}

// These devices and these connections. The path of a device ends in its number. Connections are made in their order, where
// `None` is an address that doesn't answer.
#[derive(Drop)]
pub(crate) struct Rig<'a, 'b, 'c> {
    devices: &'a [File],
    connections: &'b [Option<TcpStream>],
    done: &'c RefCell<Done>,
}

// A runtime with these devices and these connections, which notes in `done` what is done.
pub(crate) fn rigged<'a, 'b, 'c>(
    devices: &'a [File],
    connections: &'b [Option<TcpStream>],
    done: &'c RefCell<Done>,
) -> CaseRuntime<Rig<'a, 'b, 'c>> {
    CaseRuntime {
        stand_in: Rig {
            devices,
            connections,
            done,
        },
    }
}

impl<'a, 'b, 'c> StandIn for Rig<'a, 'b, 'c> {
    // How long links have rested so far. `Err`: `done` is in use.
    fn elapsed(&self) -> io::Result<Duration> {
        let Ok(done) = self.done.try_borrow() else {
            return in_use();
        };
        Ok(Duration::from_millis(done.rested))
    }

    // The same time, as if the rests had begun with 1970.
    fn since_1970(&self) -> io::Result<Duration> {
        self.elapsed()
    }

    // Adds a rest, in whole milliseconds, to those before, and returns at once. If `done` is in use, it adds none.
    fn pass(&self, time: Duration) {
        if let Ok(mut done) = self.done.try_borrow_mut() {
            done.rested = done.rested.saturating_add(millis_of(time));
        }
    }

    // Counts the attempt, and returns a handle of the next of the connections. `Err`: the next is `None`, none is left, no
    // further handle of it can be had, or `done` is in use.
    fn connect(&self) -> io::Result<TcpStream> {
        let Ok(mut done) = self.done.try_borrow_mut() else {
            return in_use();
        };
        let at = done.tried;
        done.tried = at.saturating_add(1);
        match self.connections.get(at) {
            Some(Some(stream)) => stream.try_clone(),
            _ => not_found(),
        }
    }

    // A handle of the device whose number, 0 or 1, the path ends in. `Err`: the path ends in neither, the rig has no such
    // device, or no further handle of it can be had.
    fn open(&self, path: &str) -> io::Result<File> {
        let number = match path.as_bytes().last() {
            Some(b'0') => 0,
            Some(b'1') => 1,
            _ => return not_found(),
        };
        match self.devices.get(number) {
            Some(device) => device.try_clone(),
            None => not_found(),
        }
    }
}
