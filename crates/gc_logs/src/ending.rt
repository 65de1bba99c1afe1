//! How an end is reported: the exit status, and a line for a refusal or a fault.

ghost use Rattle.std.specs.Prelude.{◌≡◌, true, false, IfOk};
ghost use Rattle.std.specs.Process.{exit_status};
ghost use Rattle.gc_lines.specs.Answering.{serve_fault_text};
ghost use Rattle.gc_texts.specs.Faults.{run_fault_text, Tells};
ghost use Rattle.gc_logs.specs.Ends.{is_port, TellsAt};
ghost use Rattle.gc_logs.specs.Refusals.{Refuses, at_line, date_line, refusal_line, range_line, stale_line, unit_line, place_line};
ghost use Rattle.gc_logs.specs.Statuses.{IsStatusUpTo};

use crate::noting::Noting;
use gc_lines::{ServeFault, Served};
use gc_links::Place;
use gc_texts::{RunFault, end_of_serving};
use std::io::{self, Write};
use std::process::ExitCode;

/// Reports, with status 2, why a command line is refused. `Err`: the messages couldn't be written.
pub fn refuse<E: Write>(why: &str, messages: &mut E) -> io::Result<ExitCode>
    ensures told { IfOk result (λ status. Refuses (refusal_line why.now) (exit_status status) (E.contents messages.old) (E.contents messages.new)) }
{
    writeln!(messages, "error: {why}")?;
    Ok(ExitCode::from(2))
}

/// Reports, with status 2, that a number on the command line is out of its range. `Err`: the messages couldn't be written.
pub fn refuse_numbers<E: Write>(messages: &mut E) -> io::Result<ExitCode>
    ensures told { IfOk result (λ status. Refuses range_line (exit_status status) (E.contents messages.old) (E.contents messages.new)) }
{
    refuse("a number on the command line is out of range", messages)
}

/// Reports, with status 2, that a station's run would end for want of an answer before its second cycle is due. `Err`: the messages
/// couldn't be written.
pub fn refuse_stale<E: Write>(messages: &mut E) -> io::Result<ExitCode>
    ensures told { IfOk result (λ status. Refuses stale_line (exit_status status) (E.contents messages.old) (E.contents messages.new)) }
{
    refuse(
        "--stale is below --every: the run would end before its second cycle",
        messages,
    )
}

/// Reports, with status 2, that a station's cycles are to be due by the clock, but not before the next whole multiple of their period.
/// `Err`: the messages couldn't be written.
pub fn refuse_at<E: Write>(messages: &mut E) -> io::Result<ExitCode>
    ensures told { IfOk result (λ status. Refuses at_line (exit_status status) (E.contents messages.old) (E.contents messages.new)) }
{
    refuse(
        "--at is not below --every: cycles are due so long after its whole multiples",
        messages,
    )
}

/// Reports, with status 2, that in the name of a file a percent sign begins no part of a date. `Err`: the messages couldn't be written.
pub fn refuse_date<E: Write>(messages: &mut E) -> io::Result<ExitCode>
    ensures told { IfOk result (λ status. Refuses date_line (exit_status status) (E.contents messages.old) (E.contents messages.new)) }
{
    refuse(
        "in the name of --append or --log a % begins none of %Y, %m, %d, %H and %%",
        messages,
    )
}

/// Reports, with status 2, that a word names no unit of angles. `Err`: the messages couldn't be written.
pub fn refuse_unit<E: Write>(messages: &mut E) -> io::Result<ExitCode>
    ensures told { IfOk result (λ status. Refuses unit_line (exit_status status) (E.contents messages.old) (E.contents messages.new)) }
{
    refuse("--unit is gon or degree", messages)
}

/// Reports, with status 2, that a word is no place of an instrument or, if `serves`, no place to serve a simulator on (a port, a
/// device, or an address with `--any-address`). `Err`: the messages couldn't be written.
pub fn refuse_place<E: Write>(serves: bool, messages: &mut E) -> io::Result<ExitCode>
    ensures told { IfOk result (λ status. Refuses (place_line serves) (exit_status status) (E.contents messages.old) (E.contents messages.new)) }
{
    if serves {
        return refuse(
            "a simulator is served on a port of 127.0.0.1, from 1 to 65535, on the path of a device, which has a /, or with --any-address at HOST:PORT",
            messages,
        );
    }
    refuse(
        "a place is a port from 1 to 65535, HOST:PORT, [ADDRESS]:PORT, or the path of a device, which has a /",
        messages,
    )
}

/// Reports how a run ended: with status 0 and no line, or with status 1 and the line of the fault. `Err`: the messages couldn't be
/// written.
pub fn report_end<E: Write>(end: Result<(), RunFault>, messages: &mut E) -> io::Result<ExitCode>
    ensures told { IfOk result (λ status. Tells run_fault_text end (exit_status status) (E.contents messages.old) (E.contents messages.new)) }
    ensures bound { IsStatusUpTo 1 result }
{
    match end {
        Ok(()) => Ok(ExitCode::SUCCESS),
        Err(fault) => {
            fault.tell(messages)?;
            Ok(ExitCode::from(1))
        }
    }
}

/// Reports as `report_end` does how a run over a connection to this place ended. For a port of 127.0.0.1 that is all. For a host or a
/// device a second line follows that of some faults, with the place and the reason (`tell_place`), or with what the system refused last,
/// and why, if `rt` has noted that. `Err`: the line of the fault couldn't be written.
pub fn report_end_at<R, E: Write>(
    place: Place<'_>,
    end: Result<(), RunFault>,
    rt: &Noting<'_, R>,
    messages: &mut E,
) -> io::Result<ExitCode>
    // For a port the messages are exactly the line of the fault, if there was one.
    ensures port { is_port place.entry ≡ true
        → IfOk result (λ status. Tells run_fault_text end (exit_status status) (E.contents messages.old) (E.contents messages.new)) }

    // For any place the status is 0 and nothing was written where the run ended well, and else the status is 1.
    ensures told { IfOk result (λ status. TellsAt (is_port place.entry) end (exit_status status) (E.contents messages.old) (E.contents messages.new)) }
    ensures bound { IsStatusUpTo 1 result }
{
    match place {
        Place::Port(_) => report_end(end, messages),
        Place::Host(_) | Place::Device(_) => report_with_reason(place, end, rt, messages),
    }
}

// Reports as `report_end` does how a run over a connection to this place ended, and writes the second line that some faults have. `Err`:
// the line of the fault couldn't be written.
fn report_with_reason<R, E: Write>(
    place: Place<'_>,
    end: Result<(), RunFault>,
    rt: &Noting<'_, R>,
    messages: &mut E,
) -> io::Result<ExitCode>
    ensures told { IfOk result (λ status. TellsAt false end (exit_status status) (E.contents messages.old) (E.contents messages.new)) }
    ensures bound { IsStatusUpTo 1 result }
{
    let ended = report_end(end, messages);
    if let Err(fault) = end {
        // If the second line can't be written, the fault's line is written all the same.
        let _ = tell_place(place, fault, messages);
        let _ = rt.tell_last(messages);
    }
    ended
}

/// Writes a line with the place and a reason in words, for the faults `LinkClosed`, `Mute`, `SetUp`, `Write`, `NoTerminal` and
/// `Held` of a run over a connection. For any other fault, such as `Socket`, whose reason the system gives, it writes nothing.
/// `Err`: the messages couldn't be written.
pub fn tell_place<E: Write>(place: Place<'_>, fault: RunFault, messages: &mut E) -> io::Result<()> {
    let why = match fault {
        RunFault::LinkClosed => "the connection ended",
        RunFault::Mute => "no further reply came",
        RunFault::SetUp => "a command of the setup was not answered well",
        RunFault::Write { .. } => "a write failed",
        RunFault::NoTerminal => "it is not a terminal",
        RunFault::Held => "another program has locked it",
        _ => return Ok(()),
    };
    writeln!(messages, "geocom: {place}: {why}")
}

/// Reports as `report_end` does how serving or checking ended. `Err`: the messages couldn't be written.
pub fn report_served<E: Write>(
    end: Result<Served, ServeFault>,
    messages: &mut E,
) -> io::Result<ExitCode>
    ensures told { IfOk result (λ status. Tells serve_fault_text end (exit_status status) (E.contents messages.old) (E.contents messages.new)) }
{
    report_end(end_of_serving(end), messages)
}
