//! A link over a serial device.

ghost use Rattle.std.specs.Prelude.{◌≡◌, [], Some, true, IfOk};
ghost use Rattle.std.specs.Time.{instant_nanos};
ghost use Rattle.gc_links.specs.DoesOnDevice.{AreMeantOnDevice};
ghost use Rattle.gc_links.specs.Slots.{hold_of};

use crate::calls::Calls;
use crate::device::Unusable;
use crate::history::{History, Note};
use crate::link::{Came, Link, Moment};
use crate::noting::{note_of_clock, note_of_open, note_of_put, note_of_read};
use crate::place::Place;
use crate::slot::{Slot, close_slot, first_slot, open_slot, put_slot, read_slot};
use crate::system::System;
use crate::timer::Timer;
use gc_lines::PortFailed;
use std::fs::File;
use std::rt::Files;
use std::time::Clock;

/// A serial device by its path, and the time since the link was made. Its acts are known, and are what the system's calls did. Each
/// of its calls ends, whatever the device does, but for an opening that waits for the carrier. A close lets the device go only
/// where it ended or failed, and no read gave bytes after that; else it stays locked, and the next opening takes it again, if it
/// is still a terminal then.
#[derive(Drop)]
pub struct DeviceLink<'a, R> {
    system: System<'a, R>,
    timer: Timer,
    path: &'a str,
    slot: Slot<'a>,
    history: History,
    ghost meant: { ∥ AreMeantOnDevice path.now (instant_nanos timer.start) history.acts system.calls.made (hold_of slot) ∥₁ },
}

impl<'a, R: Files<File = File> + Clock> DeviceLink<'a, R> {
    /// A link without a connection. The device is opened at once: one that can't be used is refused, and one that can be is held
    /// for the link's first opening. One that isn't there yet, or can't be opened, locked or set up for a reason without a name, is
    /// not refused. `None` as the reason: the clock can't be read.
    pub fn new(rt: &'a R, path: &'a str) -> Result<DeviceLink<'a, R>, Option<Unusable>>
        ensures { IfOk result (λ link. (link.path ≡ path.entry) × (link.history.acts ≡ [])) }
    {
        let mut system = System::new(rt);
        let Ok(timer) = Timer::new(&mut system) else {
            return Err(None);
        };
        match first_slot(&mut system, path) {
            Ok(slot) => Ok(DeviceLink {
                system,
                timer,
                path,
                slot,
                history: History::new(),
            }),
            Err(unusable) => Err(unusable),
        }
    }
}

impl<'a, R> DeviceLink<'a, R> {
    ghost use Rattle.gc_links.specs.Placed.{AtPath, place_seen};

    /// Closes the link, and returns its calls of the system.
    pub(crate) fn into_calls(self) -> Calls
        ensures { result.made ≡ self.entry.system.calls.made }
    {
        let DeviceLink {
            system,
            timer: _,
            path: _,
            slot: _,
            history: _,
        } = self;
        system.into_calls()
    }

    /// Whether the link leads to this place.
    pub(crate) fn leads_to(&self, place: Place<'_>) -> bool
        ensures { result ≡ true → AtPath self.now.path.now ≡ place_seen place.entry }
    {
        match place {
            Place::Device(path) => self.path == path,
            Place::Port(_) | Place::Host(_) => false,
        }
    }
}

// Each call does its act by the system's calls, and notes it.
impl<'a, R: Files<File = File> + Clock> Link for DeviceLink<'a, R> {
    ghost acts = { λ d. Some d.history.acts };

    fn now(&mut self) -> Result<Moment, PortFailed> {
        let told = self.timer.moment(&mut self.system);
        self.history = self.history.then(&note_of_clock(&told));
        told
    }

    // Reads until bytes come, the device ends or fails, the clock can't be read, or `millis` milliseconds have gone by. Where there
    // is no connection, it only waits.
    fn read(&mut self, buf: &mut [u8], millis: u64) -> Came {
        let came = read_slot(&mut self.system, &self.timer, &mut self.slot, buf, millis);
        self.history = self.history.then(&note_of_read(came, buf));
        came
    }

    // Writes all bytes, and rests while the device isn't ready.
    fn put(&mut self, bytes: &[u8]) -> Result<(), usize> {
        let put = put_slot(&mut self.system, &mut self.slot, bytes);
        self.history = self.history.then(&note_of_put(put, bytes));
        put
    }

    fn close(&mut self) {
        close_slot(&mut self.system, &mut self.slot);
        self.history = self.history.then(&Note::Closed);
    }

    fn open(&mut self) -> Result<(), PortFailed> {
        let opened = open_slot(&mut self.system, self.path, &mut self.slot);
        self.history = self.history.then(&note_of_open(&opened));
        opened
    }
}
