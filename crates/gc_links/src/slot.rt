//! What a link has of its device: none, one that is held aside, or one that is its connection.

ghost use Rattle.std.specs.Prelude.{◌≡◌, ℕ, ◌<◌, length, List, None};
ghost use Rattle.std.specs.Time.{instant_nanos};
ghost use Rattle.gc_links.specs.Acts.{CameWithin, IsPartIfErr, read_act, put_act, open_act};
ghost use Rattle.gc_links.specs.Calls.{Makes};
ghost use Rattle.gc_links.specs.Does.{DoesOver};
ghost use Rattle.gc_links.specs.DoesOnDevice.{DoesOnDevice};
ghost use Rattle.gc_links.specs.Holds.{Linked, linked_end, hold_after, marked, ended, ending};
ghost use Rattle.gc_links.specs.Devices.{device_end};
ghost use Rattle.gc_links.specs.Slots.{HoldsSlot, TakesDevice, TakesHeld, hold_of};

use crate::device::Unusable;
use crate::link::Came;
use crate::moments::wait;
use crate::serial::{read_serial, send_serial};
use crate::system::{OpenDevice, System};
use crate::timer::Timer;
use gc_lines::PortFailed;
use std::fs::File;
use std::mem;
use std::rt::Files;
use std::time::Clock;

/// What a link has of its device.
#[derive(Drop)]
pub(crate) enum Slot<'a> {
    /// No device is open.
    Empty,
    /// The device is open, so that its lock stays; but there is no connection.
    Aside(OpenDevice<'a>),
    /// The device is the connection.
    Linked(OpenDevice<'a>),
    /// The device is the connection; it ended, or a read or put of it failed, and no read gave bytes after that: it may come back
    /// under another name.
    Gone(OpenDevice<'a>),
}

/// The device at a path, opened and held aside. None where it isn't there now, or can't be opened, locked or set up for a reason
/// without a name.
pub(crate) fn first_slot<'a, R: Files<File = File>>(
    system: &mut System<'_, R>,
    path: &'a str,
) -> Result<Slot<'a>, Option<Unusable>>
    ensures { Makes system.old.calls.made system.new.calls.made (HoldsSlot path.now result) }
{
    match system.reach(path) {
        Ok(device) => Ok(Slot::Aside(device)),
        Err(None) => Ok(Slot::Empty),
        Err(unusable) => Err(unusable),
    }
}

// The slot, with the device of its connection marked as gone or as there.
fn marked(slot: Slot<'_>, is_gone: bool) -> Slot<'_>
    ensures { hold_of result ≡ marked is_gone (hold_of slot.entry) }
{
    match slot {
        Slot::Empty => Slot::Empty,
        Slot::Aside(device) => Slot::Aside(device),
        Slot::Linked(device) | Slot::Gone(device) => connected(device, is_gone),
    }
}

// The device as a connection, gone or there.
fn connected(device: OpenDevice<'_>, is_gone: bool) -> Slot<'_>
    ensures { hold_of result ≡ marked is_gone (Linked (device_end device.entry)) }
{
    if is_gone {
        Slot::Gone(device)
    } else {
        Slot::Linked(device)
    }
}

// Marks the device of the connection as gone or as there.
fn mark(slot: &mut Slot<'_>, is_gone: bool)
    ensures { hold_of slot.new ≡ marked is_gone (hold_of slot.old) }
{
    let old = mem::replace(slot, Slot::Empty);
    *slot = marked(old, is_gone);
}

// Marks the device of the connection by the outcome of a read.
fn mark_read(slot: &mut Slot<'_>, came: Came)
    ensures { (buf : List ℕ) → hold_of slot.new ≡ hold_after (read_act came buf) (hold_of slot.old) }
{
    match came {
        Came::Bytes(_, _) => mark(slot, false),
        Came::End | Came::Failure => mark(slot, true),
        Came::Silence(_) | Came::NoMoment => {}
    }
}

// Marks the device of the connection by the result of a put.
fn mark_put(slot: &mut Slot<'_>, put: Result<(), usize>)
    ensures { (bytes : List ℕ) → hold_of slot.new ≡ hold_after (put_act put bytes) (hold_of slot.old) }
{
    match put {
        Ok(()) => {}
        Err(_) => mark(slot, true),
    }
}

// Reads the device of the connection, as `read_serial` does. Where there is no connection, it only waits.
fn read_linked<R: Clock>(
    system: &mut System<'_, R>,
    timer: &Timer,
    slot: &Slot<'_>,
    buf: &mut [u8],
    millis: u64,
) -> Came
    ensures does { Makes system.old.calls.made system.new.calls.made (DoesOver (instant_nanos timer.now.start) (linked_end (hold_of slot.now)) (read_act result buf.new)) }
    ensures within { CameWithin result buf.new }
{
    match slot {
        Slot::Linked(device) => read_serial(system, timer, device, buf, millis),
        Slot::Gone(device) => read_serial(system, timer, device, buf, millis),
        Slot::Empty => wait(system, timer, millis),
        Slot::Aside(_) => wait(system, timer, millis),
    }
}

/// Reads until bytes come, the device ends or fails, the clock can't be read, or `millis` milliseconds have gone by. Where there
/// is no connection, it only waits.
pub(crate) fn read_slot<R: Clock>(
    system: &mut System<'_, R>,
    timer: &Timer,
    slot: &mut Slot<'_>,
    buf: &mut [u8],
    millis: u64,
) -> Came
    ensures does { (path : List ℕ) → Makes system.old.calls.made system.new.calls.made (λ calls. DoesOnDevice path (instant_nanos timer.now.start) (hold_of slot.old) (read_act result buf.new) calls (hold_of slot.new)) }
    ensures within { CameWithin result buf.new }
{
    let came = read_linked(system, timer, slot, buf, millis);
    mark_read(slot, came);
    came
}

// Writes all bytes over the device of the connection, as `send_serial` does. Where there is no connection, none.
fn put_linked<R: Clock>(
    system: &mut System<'_, R>,
    slot: &Slot<'_>,
    bytes: &[u8],
) -> Result<(), usize>
    requires { 0 < length bytes.now }
    ensures does { (start : ℕ) → Makes system.old.calls.made system.new.calls.made (DoesOver start (linked_end (hold_of slot.now)) (put_act result bytes.now)) }
    ensures part { IsPartIfErr result bytes.now }
{
    match slot {
        Slot::Linked(device) => send_serial(system, device, bytes),
        Slot::Gone(device) => send_serial(system, device, bytes),
        Slot::Empty => Err(0),
        Slot::Aside(_) => Err(0),
    }
}

/// Writes all bytes, as [`send_serial`] does. Where there is no connection, none.
pub(crate) fn put_slot<R: Clock>(
    system: &mut System<'_, R>,
    slot: &mut Slot<'_>,
    bytes: &[u8],
) -> Result<(), usize>
    requires { 0 < length bytes.now }
    ensures does { (path : List ℕ) → (start : ℕ) → Makes system.old.calls.made system.new.calls.made (λ calls. DoesOnDevice path start (hold_of slot.old) (put_act result bytes.now) calls (hold_of slot.new)) }
    ensures part { IsPartIfErr result bytes.now }
{
    let put = put_linked(system, slot, bytes);
    mark_put(slot, put);
    put
}

// The slot once its connection was ended. A device that isn't gone stays open, and so stays locked.
fn closed<'a, R>(system: &mut System<'_, R>, slot: Slot<'a>) -> Slot<'a>
    ensures { Makes system.old.calls.made system.new.calls.made (λ calls. (calls ≡ ending (hold_of slot.entry)) × (hold_of result ≡ ended (hold_of slot.entry))) }
{
    match slot {
        Slot::Empty => Slot::Empty,
        Slot::Aside(device) | Slot::Linked(device) => Slot::Aside(device),
        Slot::Gone(device) => {
            system.close_device(device);
            Slot::Empty
        }
    }
}

/// Ends the connection. A device that isn't gone stays open, and so stays locked. What comes until the next opening waits in the
/// system.
pub(crate) fn close_slot<R>(system: &mut System<'_, R>, slot: &mut Slot<'_>)
    ensures { Makes system.old.calls.made system.new.calls.made (λ calls. (calls ≡ ending (hold_of slot.old)) × (hold_of slot.new ≡ ended (hold_of slot.old))) }
{
    let old = mem::replace(slot, Slot::Empty);
    *slot = closed(system, old);
}

// The device of a slot without a connection, if it is a terminal still; one that is none any more is closed. `None`: there is none
// now.
fn take_held<'a, R>(system: &mut System<'_, R>, slot: Slot<'a>) -> Option<OpenDevice<'a>>
    requires { linked_end (hold_of slot) ≡ None }
    ensures { Makes system.old.calls.made system.new.calls.made (TakesHeld (hold_of slot.entry) result) }
{
    match slot {
        Slot::Aside(device) => {
            if system.is_there(&device) {
                return Some(device);
            }
            system.close_device(device);
            None
        }
        Slot::Empty | Slot::Linked(_) | Slot::Gone(_) => None,
    }
}

// The device that is held aside, if it is a terminal still, and else the one that the path leads to.
fn take<'a, R: Files<File = File>>(
    system: &mut System<'_, R>,
    path: &'a str,
    slot: Slot<'a>,
) -> Result<OpenDevice<'a>, Option<Unusable>>
    requires { linked_end (hold_of slot) ≡ None }
    ensures { Makes system.old.calls.made system.new.calls.made (TakesDevice path.now (hold_of slot.entry) result) }
{
    match take_held(system, slot) {
        Some(device) => Ok(device),
        None => system.reach(path),
    }
}

/// Ends the connection, if there is one, also where no new one can be made. Takes the device that is held aside, if it is a
/// terminal still, and else opens the path.
pub(crate) fn open_slot<'a, R: Files<File = File>>(
    system: &mut System<'_, R>,
    path: &'a str,
    slot: &mut Slot<'a>,
) -> Result<(), PortFailed>
    ensures { (start : ℕ) → Makes system.old.calls.made system.new.calls.made (λ calls. DoesOnDevice path.now start (hold_of slot.old) (open_act result) calls (hold_of slot.new)) }
{
    let old = mem::replace(slot, Slot::Empty);
    let aside = closed(system, old);
    match take(system, path, aside) {
        Ok(device) => {
            *slot = Slot::Linked(device);
            Ok(())
        }
        Err(_) => Err(PortFailed),
    }
}
