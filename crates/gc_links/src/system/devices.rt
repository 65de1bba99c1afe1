//! The system's serial devices.

ghost use Rattle.std.specs.Prelude.{◌≡◌, [], ◌∷◌, ◌++◌, IfOk};
ghost use Rattle.gc_links.specs.Answered.{IsWithin, TakesAtMost, read_call, write_call};
ghost use Rattle.gc_links.specs.Calls.{Asked, Device, Dropped};
ghost use Rattle.gc_links.specs.CallNoted.{call_of};
ghost use Rattle.gc_links.specs.Devices.{device_end, reach_call};

use super::System;
use super::sockets::{Heard, Written};
use crate::calls::{CallNote, FarEnd};
use crate::device::{Unusable, open_device, read_some, write_once};
use std::fs::File;
use std::io::IsTerminal;
use std::rt::Files;

/// A device that [`System::reach`] opened.
#[derive(Drop)]
pub(crate) struct OpenDevice<'a> {
    file: File,
    // The path at which it was opened.
    path: &'a str,
}

impl<'a, R: Files<File = File>> System<'a, R> {
    /// Opens the device at a path, as [`open_device`] does. What that asks of the system is one call here: the opening, and whether
    /// the device is a terminal, can be locked and be set up. A device for which one of these fails is closed at once.
    pub(crate) fn reach<'b>(&mut self, path: &'b str) -> Result<OpenDevice<'b>, Option<Unusable>>
        ensures tells { self.new.calls.made ≡ self.old.calls.made ++ reach_call path.now result ∷ [] }
        ensures there { IfOk result (λ device. device_end device ≡ Device path.now) }
    {
        match open_device(self.rt, path) {
            Ok(file) => {
                self.note(&CallNote::Reached(FarEnd::Device(path)));
                Ok(OpenDevice { file, path })
            }
            Err(reason) => {
                self.note(&CallNote::NotReached(FarEnd::Device(path)));
                Err(reason)
            }
        }
    }
}

impl<'a, R> System<'a, R> {
    /// Writes a front of these bytes, as many as the device takes at once.
    pub(crate) fn write_device(&mut self, device: &OpenDevice<'_>, bytes: &[u8]) -> Written
        ensures tells { self.new.calls.made ≡ self.old.calls.made ++ write_call (device_end device.now) bytes.now result ∷ [] }
        ensures within { TakesAtMost result bytes.now }
    {
        let written = match write_once(&device.file, bytes) {
            Ok(Some(n)) => Written::Took(n),
            Ok(None) => Written::TookNone,
            Err(_) => Written::Failed,
        };
        let end = FarEnd::Device(device.path);
        let note = match written {
            Written::Took(n) => CallNote::Took(end, bytes, n),
            Written::TookNone => CallNote::TookNone(end, bytes),
            Written::Failed => CallNote::NotTaken(end, bytes),
        };
        self.note(&note);
        written
    }

    /// Reads what has come, as [`read_some`] does.
    pub(crate) fn read_device(&mut self, device: &OpenDevice<'_>, buf: &mut [u8]) -> Heard
        ensures tells { self.new.calls.made ≡ self.old.calls.made ++ read_call (device_end device.now) result buf.new ∷ [] }
        ensures within { IsWithin result buf.new }
    {
        let heard = match read_some(&device.file, buf) {
            Ok(Some(n)) => Heard::Came(n),
            Ok(None) => Heard::CameNone,
            Err(_) => Heard::Failed,
        };
        self.note(&note_of_read(device.path, heard, buf));
        heard
    }

    /// Whether a device is a terminal still.
    pub(crate) fn is_there(&mut self, device: &OpenDevice<'_>) -> bool
        ensures { self.new.calls.made ≡ self.old.calls.made ++ Asked (device_end device.now) result ∷ [] }
    {
        let yes = device.file.is_terminal();
        self.note(&CallNote::Asked(FarEnd::Device(device.path), yes));
        yes
    }

    /// Closes a device, which unlocks it.
    pub(crate) fn close_device(&mut self, device: OpenDevice<'_>)
        ensures { self.new.calls.made ≡ self.old.calls.made ++ Dropped (device_end device.entry) ∷ [] }
    {
        let OpenDevice { file, path } = device;
        drop(file);
        self.note(&CallNote::Dropped(FarEnd::Device(path)));
    }
}

// The note of a read of the device at this path, by what it did and the buffer after it.
fn note_of_read<'a>(path: &'a str, heard: Heard, buf: &'a [u8]) -> CallNote<'a>
    requires { IsWithin heard buf.now }
    ensures { call_of result ≡ read_call (Device path.now) heard buf.now }
{
    let end = FarEnd::Device(path);
    match heard {
        Heard::Came(n) => CallNote::Came(end, &buf[..n]),
        Heard::CameNone => CallNote::CameNone(end),
        Heard::Failed => CallNote::NotCome(end),
    }
}
