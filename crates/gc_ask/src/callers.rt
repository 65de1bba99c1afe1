//! The callers of a kept port or device: they are served one after the other, and after a fault of one caller's connection the next
//! caller is served all the same.

ghost use Rattle.std.specs.Prelude.{◌≡◌, [], ◌∷◌, true};
ghost use Rattle.std.specs.Io.KnownBytes.{Appends};
ghost use Rattle.gc_lines.specs.Ports.{WritesIfOk};
ghost use Rattle.gc_ask.specs.Keeping.{AddsEnds, IsEndOf, KeepsCallers, caller_line, end_line, end_of_caller};

use gc_instrument::{ServeFault, Served};
use gc_texts::RunFault;
use std::io::{self, Write};

/// For how many seconds a kept port pauses after an accept that failed, and a kept device each time that it was served, wasn't
/// there or couldn't be used. Without the pause a port for which no descriptor is free, or a device that is gone, would be tried
/// again at once, for ever.
pub(crate) const PAUSE: u64 = 1;

/// Why a caller's connection was left before its end, or wasn't served at all.
#[derive(Clone, Copy)]
pub enum CallerFault {
    /// Serving it stopped with this fault. A write also fails if nothing was taken for as long as it may wait.
    Serving(ServeFault),
    /// No connection could be accepted, or its time-outs couldn't be set; or the device is there and can't be used.
    Socket,
    /// Nothing came for as long as a connection may be idle, or the system gave the connection up because the other end
    /// answered nothing.
    Idle,
}

impl CallerFault {
    /// Writes the line of the fault: the program's name, the connection's number, counted from 1, and why the connection was
    /// left. `Err`: the line couldn't be written whole.
    pub fn tell<E: Write>(self, number: u64, messages: &mut E) -> io::Result<()>
        ensures { WritesIfOk E.contents messages.old messages.new result (caller_line number self) }
    {
        match self {
            CallerFault::Serving(fault) => {
                writeln!(messages, "geocom: connection {number}: {fault}")
            }
            CallerFault::Socket => writeln!(
                messages,
                "geocom: connection {number}: fault {}",
                RunFault::Socket.number()
            ),
            CallerFault::Idle => writeln!(messages, "geocom: connection {number}: idle"),
        }
    }
}

/// How the connection of a caller who was served ended: well, or with the fault of serving it. A read that timed out is a failed
/// read here, too.
pub(crate) fn end_of_caller(end: Result<Served, ServeFault>) -> Result<(), CallerFault>
    ensures is { result ≡ end_of_caller end }
    ensures ends { IsEndOf end result }
{
    match end {
        Ok(_) => Ok(()),
        Err(fault) => Err(CallerFault::Serving(fault)),
    }
}

/// The callers of a port or of a device.
pub trait Callers {
    ghost use Rattle.std.specs.Prelude.{List, Option, ⊤};
    ghost use Rattle.gc_ask.specs.Keeping.{ConnectionEnd};

    /// How the connections of those who were served ended, in their order, where that is known.
    ghost served: { Self → Option (List ConnectionEnd) };

    /// What serving one of them does: what is there before and after it, and how his connection ended.
    ghost serves: { Self → Self → ConnectionEnd → Type 0 } = { λ _ _ _. ⊤ };

    /// Waits for the next caller, and serves the connection to its end. `Err`: a fault came before the end.
    fn serve_next(&mut self) -> Result<(), CallerFault>
        ensures ends { AddsEnds (served self.old) (served self.new) (result ∷ []) }
        ensures serves { serves self.old self.new result };
}

/// Serves `most` callers, one after the other, and writes the line of each fault on `messages`, where the callers are
/// counted from 1. A fault ends nothing but its own connection, and a line that can't be written ends nothing. Returns
/// whether all lines were written.
pub fn keep<C: Callers, E: Write>(callers: &mut C, most: u64, messages: &mut E) -> bool
    // `most` callers were served, one after the other, whatever became of each. Where all lines were written, the messages grew by them
    // alone.
    ensures { KeepsCallers C.serves C.served most result callers.old callers.new (E.contents messages.old) (E.contents messages.new) }
{
    let mut all_written = true;
    for at in 0..most {
        let end = callers.serve_next();
        all_written = tell_end(end, at + 1, all_written, messages);
    }
    all_written
}

// Writes the line of the fault if the connection with this number ended with one. `all_written` says whether all earlier
// lines were written. Returns whether all lines were, also this one, if there is one.
fn tell_end<E: Write>(
    end: Result<(), CallerFault>,
    number: u64,
    all_written: bool,
    messages: &mut E,
) -> bool
    ensures { result ≡ true → (all_written ≡ true)
        × Appends (E.contents messages.old) (E.contents messages.new) (end_line number end) }
{
    match end {
        Ok(()) => all_written,
        Err(fault) => fault.tell(number, messages).is_ok() && all_written,
    }
}
