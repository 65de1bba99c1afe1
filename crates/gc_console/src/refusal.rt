//! Why a scene was refused, and how that is reported.

ghost use Rattle.std.specs.Prelude.{◌≡◌, IfOk};
ghost use Rattle.std.specs.Process.{exit_status};
ghost use Rattle.gc_console.specs.Refusing.{TellsRefusal, refusal_fault};

use gc_filters::{SceneTrouble, scene_trouble_of};
use gc_logs::{Noting, report_end};
use gc_texts::{RunFault, line_at};
use std::io::{self, Write};
use std::process::ExitCode;

/// Why a scene was refused.
#[derive(Clone, Copy)]
pub(crate) enum Refusal {
    /// Its file couldn't be read whole, or its text sets up no instrument, with this fault: also `Memory`, where memory was
    /// refused.
    Fault(RunFault),
    /// The line of its text with this number, counted from 1, is the first faulty one, and this is at fault in it.
    Line(u32, SceneTrouble),
}

impl Refusal {
    /// The refusal of a scene's text with this fault: `Line` with what is at fault in the line if a line is faulty (`Schedule`),
    /// else `Fault`. `has_clock` says whether the scene is for an instrument with a clock, as that of `serve`.
    pub(crate) fn of(fault: RunFault, text: &[u8], has_clock: bool) -> Refusal
        ensures { refusal_fault result ≡ fault }
    {
        match fault {
            RunFault::Schedule { line } => {
                Refusal::Line(line, scene_trouble_of(line_at(text, line), has_clock))
            }
            _ => Refusal::Fault(fault),
        }
    }

    /// Reports the refusal with status 1 and the line of the fault. If a line of the text is faulty, a second line says what is
    /// at fault in it. `Err`: the messages couldn't be written.
    pub(crate) fn tell<E: Write>(self, messages: &mut E) -> io::Result<ExitCode>
        ensures { IfOk result (λ status. TellsRefusal self (exit_status status) (E.contents messages.old) (E.contents messages.new)) }
    {
        match self {
            Refusal::Fault(fault) => report_end(Err(fault), messages),
            Refusal::Line(line, trouble) => {
                trouble.tell_with_fault(line, messages)?;
                Ok(ExitCode::from(1))
            }
        }
    }

    /// Reports the refusal as `tell` does, with status 1, and then writes a line with the path of the scene's file (`scene`), if
    /// one is named, and a line with what the system refused of it, and why, if `rt` has noted that. `Err`: what `tell` writes
    /// couldn't be written.
    pub(crate) fn tell_with_file<R, E: Write>(
        self,
        scene: Option<&str>,
        rt: &Noting<'_, R>,
        messages: &mut E,
    ) -> io::Result<ExitCode>
        ensures { IfOk result (λ status. exit_status status ≡ 1) }
    {
        let ended = self.tell(messages);
        // If these lines can't be written, the fault's line is written all the same.
        let _ = tell_file(scene, messages);
        let _ = rt.tell_last(messages);
        ended
    }
}

// Writes in which file the scene is that was refused; nothing if no file is named.
fn tell_file<E: Write>(scene: Option<&str>, messages: &mut E) -> io::Result<()> {
    match scene {
        Some(path) => writeln!(messages, "geocom: of the scene in {path}"),
        None => Ok(()),
    }
}
