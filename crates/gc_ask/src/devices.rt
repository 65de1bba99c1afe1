//! An instrument at the end of a serial line: a device that is served as a connection is, a number of times or for good.

ghost use Rattle.std.specs.Prelude.{◌≡◌, None, IfErr, IfOk};
ghost use Rattle.gc_ask.specs.Keeping.{KeepsServing, ServesCaller};
ghost use Rattle.gc_ask.specs.declared.callers.CallerFault.{CallerFault};
ghost use Rattle.gc_ask.specs.Places.{IsFaultOfDevice, IsFaultOfPlace};
ghost use Rattle.gc_ask.specs.Serving.{ServesEach, ServesNext};

use crate::caller::Connection;
use crate::callers::{CallerFault, Callers, PAUSE, end_of_caller, keep};
use crate::connections::{fault_of_reason, fault_of_unusable};
use crate::kept_port::Keeping;
use crate::simulated::Simulates;
use gc_links::{Unusable, Wire, wire_on};
use gc_texts::{RunFault, end_of_serving};
use std::fs::File;
use std::io::Write;
use std::rt::Files;
use std::thread;
use std::time::{Clock, Duration};

/// Opens a device `connections` times, one after the other. Each time the instrument is restarted, and serves the device until its
/// end, in at most `max_reads` reads.
///
/// A fault ends the call: one of `fault_of_reason` where the device couldn't be opened, else `Read`, `Write` or
/// `TooManyReads` as `serve` has them. The instrument is left as the last connection that was served left it, and as it was
/// where none was served.
pub fn serve_device<'c, R: Files<File = File> + Clock, I: Simulates<'c>>(
    rt: &R,
    path: &str,
    connections: u32,
    instrument: &mut I,
    max_reads: u32,
) -> Result<(), RunFault>
    // Each connection that was served had the instrument's replies to its lines, in order.
    ensures serves { ServesEach I.answers I.restarted max_reads IsFaultOfPlace connections instrument.old instrument.new result }
{
    for _ in 0..connections {
        serve_once(rt, path, instrument, max_reads)?;
    }
    Ok(())
}

// Opens a device, and serves it until its end with the instrument, which is restarted for it. The faults are as `serve_device` has
// them.
fn serve_once<'c, R: Files<File = File> + Clock, I: Simulates<'c>>(
    rt: &R,
    path: &str,
    instrument: &mut I,
    max_reads: u32,
) -> Result<(), RunFault>
    ensures { ServesNext I.answers I.restarted max_reads IsFaultOfPlace instrument.old instrument.new result }
{
    let wire = match wire_on(rt, path) {
        Ok(wire) => wire,
        Err(reason) => return Err(fault_of_reason(reason)),
    };
    let connection = Connection::Device(&wire);
    let ended = connection.serve(rt, instrument, max_reads);
    end_of_serving(ended.served)
}

/// Serves a device each time that it is there, as often as `keeping` says, each time with the instrument, which is restarted
/// for it, and writes the line of each fault on `messages`. Returns whether all of these lines were written. A device has one
/// caller alone, who may be silent for as long as he likes, so `keeping.idle` is not used.
///
/// If the first attempt to open the device fails with an `Unusable`, the call returns the fault for it (`fault_of_unusable`), and
/// writes nothing. Later attempts are made with a second between them while the device is missing, or can't be opened, locked or
/// set up for a reason that is no `Unusable`. After the end of each serving, with a fault or without, the next attempt comes a
/// second later. A later attempt that fails with an `Unusable` counts as one caller with the fault `Socket`.
pub fn keep_device<'c, R: Files<File = File> + Clock, I: Simulates<'c>, E: Write>(
    rt: &'c R,
    path: &str,
    keeping: Keeping,
    instrument: &mut I,
    messages: &mut E,
) -> Result<bool, RunFault>
    // Each caller who was served had the instrument's replies to his lines, in order.
    ensures kept { IfOk result (λ all_written. KeepsServing I.answers I.restarted keeping.max_reads keeping.connections instrument.old all_written
        (E.contents messages.old) (E.contents messages.new)) }
    ensures fault { IfErr result (λ fault. (messages.new ≡ messages.old) × IsFaultOfDevice fault) }
{
    let first = match wire_on(rt, path) {
        Err(Some(unusable)) => return Err(fault_of_unusable(unusable)),
        Ok(wire) => Some(wire),
        Err(None) => None,
    };
    let mut callers = DeviceCallers {
        rt,
        path,
        first,
        instrument,
        max_reads: keeping.max_reads,
    };
    Ok(keep(&mut callers, keeping.most(), messages))
}

// Those who call over a device, and the instrument that serves them.
#[derive(Drop)]
struct DeviceCallers<'a, 'c, R, I> {
    rt: &'c R,
    path: &'a str,
    // The device as it was opened already, for the first caller.
    first: Option<Wire<'c, R>>,
    instrument: &'a mut I,
    max_reads: u32,
}

impl<'a, 'c, R: Files<File = File> + Clock, I> DeviceCallers<'a, 'c, R, I> {
    // Opens the device, which is looked for each second until it is there. The first call returns the device that was opened
    // already, if it was. `Socket`: the opening failed with an `Unusable`, or 2^64 - 1 tries failed without one.
    fn wait(&mut self) -> Result<Wire<'c, R>, CallerFault>
        ensures same { (self.new.instrument ≡ self.old.instrument) × (self.new.max_reads ≡ self.old.max_reads) }
        ensures missing { IfErr result (λ fault. fault ≡ CallerFault.Socket) }
    {
        if let Some(first) = self.first.take() {
            return Ok(first);
        }
        for _ in 0..u64::MAX {
            match wire_on(self.rt, self.path) {
                Ok(wire) => return Ok(wire),
                Err(Some(_)) => return Err(CallerFault::Socket),
                Err(None) => self.pause(),
            }
        }
        Err(CallerFault::Socket)
    }

    // Serves the device, opened as `wire`, until its end. `Err`: the fault that ended the serving before that.
    fn serve(&mut self, wire: Wire<'c, R>) -> Result<(), CallerFault>
    where
        I: Simulates<'c>,
        ensures most { self.new.max_reads ≡ self.old.max_reads }
        ensures serves { ServesCaller I.answers I.restarted self.old.max_reads self.old.instrument.now self.new.instrument.now result }
    {
        let connection = Connection::Device(&wire);
        let ended = connection.serve(self.rt, self.instrument, self.max_reads);
        end_of_caller(ended.served)
    }

    // Serves the device until its end, once it is there.
    fn serve_found(&mut self) -> Result<(), CallerFault>
    where
        I: Simulates<'c>,
        ensures most { self.new.max_reads ≡ self.old.max_reads }
        ensures serves { ServesCaller I.answers I.restarted self.old.max_reads self.old.instrument.now self.new.instrument.now result }
    {
        match self.wait() {
            Ok(wire) => self.serve(wire),
            Err(fault) => Err(fault),
        }
    }

    // Sleeps for `PAUSE` seconds.
    fn pause(&self) {
        thread::sleep(self.rt, Duration::from_secs(PAUSE));
    }
}

impl<'a, 'c, R: Files<File = File> + Clock, I: Simulates<'c>> Callers
    for DeviceCallers<'a, 'c, R, I> {
    ghost served = { λ _. None };

    ghost serves = { λ before after end. (after.max_reads ≡ before.max_reads)
        × ServesCaller I.answers I.restarted before.max_reads before.instrument.now after.instrument.now end };

    // Serves the device until its end, once it is there, and then pauses for a second, however that ended.
    fn serve_next(&mut self) -> Result<(), CallerFault> {
        let ended = self.serve_found();
        self.pause();
        ended
    }
}
