//! How the asking of commands ended, and how that is reported.

ghost use Rattle.std.specs.Prelude.{◌≡◌, true, IfOk};
ghost use Rattle.std.specs.Process.{exit_status};
ghost use Rattle.gc_logs.specs.Ends.{is_port};
ghost use Rattle.gc_logs.specs.Statuses.{IsStatusUpTo};
ghost use Rattle.gc_console.specs.Asked.{TellsAsked, TellsAskedAt};

use gc_links::Place;
use gc_logs::{Noting, report_end_at};
use gc_texts::CommandStop;
use std::io::{self, Write};
use std::process::ExitCode;

/// Reports how the asking of commands ended: with status 0 and no line, or with status 1 and the line of the fault; where a line of the
/// text is faulty, a second line says what is at fault in it. `Err`: the messages couldn't be written.
pub(crate) fn report_asked<E: Write>(
    end: Result<(), CommandStop>,
    messages: &mut E,
) -> io::Result<ExitCode>
    ensures told { IfOk result (λ status. TellsAsked end (exit_status status) (E.contents messages.old) (E.contents messages.new)) }
    ensures bound { IsStatusUpTo 1 result }
{
    match end {
        Ok(()) => Ok(ExitCode::SUCCESS),
        Err(stop) => {
            stop.tell(messages)?;
            Ok(ExitCode::from(1))
        }
    }
}

/// Reports as `report_asked` does how the asking of commands at a place ended. For a host or a device a second line follows that of
/// some faults, as `report_end_at` says. `Err`: the line of the fault couldn't be written.
pub(crate) fn report_asked_at<R, E: Write>(
    place: Place<'_>,
    end: Result<(), CommandStop>,
    rt: &Noting<'_, R>,
    messages: &mut E,
) -> io::Result<ExitCode>
    ensures port { is_port place.entry ≡ true
        → IfOk result (λ status. TellsAsked end (exit_status status) (E.contents messages.old) (E.contents messages.new)) }
    ensures told { IfOk result (λ status. TellsAskedAt (is_port place.entry) end (exit_status status) (E.contents messages.old) (E.contents messages.new)) }
    ensures bound { IsStatusUpTo 1 result }
{
    match end {
        Err(CommandStop::Fault(fault)) => report_end_at(place, Err(fault), rt, messages),
        Ok(()) | Err(CommandStop::Line(_, _)) => report_asked(end, messages),
    }
}
