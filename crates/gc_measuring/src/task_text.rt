//! A station's text, read whole from a source.

ghost use Rattle.std.specs.Prelude.{◌≡◌, ◌+◌, ◌≤◌, IfOk, IfErr, length};
ghost use Rattle.gc_measuring.specs.TaskTexts.{HasNoTasks, HasTasks, HearsNoTasks, HearsTasks, IsStopFor, ReadsNoTasks, ReadsTasks};
ghost use Rattle.gc_logs.specs.Transcripts.{hearing_of};
ghost use Rattle.gc_station.specs.Watching.{places_of, watched_of};
ghost use Rattle.gc_texts.specs.Tasks.{tasks_seen};
ghost use Rattle.gc_texts.specs.WholeTexts.{input_of};
ghost use Rattle.gc_texts.specs.declared.text.TheConstants.{TEXT_LIMIT};

use crate::stop::Stop;
use gc_lines::Source;
use gc_links::ValueFiles;
use gc_logs::{Heard, hear_text};
use gc_options::Choice;
use gc_station::Watches;
use gc_texts::{FieldName, RunFault, Tasks, line_at, read_tasks, read_text, trouble_of};
use std::alloc::{AllocError, Global};

/// A station's text that was read whole and can be measured.
#[derive(Drop)]
pub(crate) struct ReadText {
    /// The text.
    pub text: Vec<u8>,
    /// The names of the columns that its descriptions add, at most 64.
    pub columns: Vec<FieldName>,
    /// The files whose values its commands take, in the order of the values.
    pub files: ValueFiles,
    pub ghost few: { length columns.items ≤ 64 },
}

impl ReadText {
    /// This text, of which these are the tasks.
    pub(crate) fn new(text: Vec<u8>, tasks: Tasks) -> ReadText
        requires { length tasks.columns.items ≤ 64 }
        ensures text { result.text ≡ text }
        ensures columns { result.columns ≡ tasks.columns }
    {
        let files = tasks.files();
        let Tasks {
            setup: _,
            tasks: _,
            names: _,
            nears: _,
            unwatched: _,
            described: _,
            columns,
        } = tasks;
        ReadText {
            text,
            columns,
            files,
        }
    }
}

/// Reads the whole text of a station from a source, and returns its tasks and names, with the text itself. Until a line says
/// otherwise the commands have the deadline of `choice`, and are chained or not as `choice` says. It fails with the faults of
/// `read_text` and `read_tasks` (`Text`), with the field at fault for a faulty line (`Line`), and with `Empty` if the text has no
/// command of a cycle.
pub fn read_task_text<S: Source>(
    alloc: Global,
    source: &mut S,
    choice: &Choice,
) -> Result<(Tasks, Vec<u8>), Stop>
    ensures found { IfOk result (λ all. ReadsTasks (input_of S.Source source.old) (input_of S.Source source.new) choice.now all.0) }
    ensures few { IfOk result (λ all. length all.0.columns.items ≤ 64) }
    ensures refused { IfErr result (λ stop. ReadsNoTasks (input_of S.Source source.old) (input_of S.Source source.new) stop) }
    ensures bounded { S.reads source.new ≤ S.reads source.old + (TEXT_LIMIT + 1) }
{
    match read_text(alloc, source) {
        Ok(text) => tasks_of(alloc, text, choice),
        Err(fault) => Err(Stop::Text(fault)),
    }
}

/// As [`read_task_text`], from a source that notes what its reads gave: the text is exactly that.
pub fn hear_task_text<S: Source>(
    alloc: Global,
    source: &mut Heard<S>,
    choice: &Choice,
) -> Result<(Tasks, Vec<u8>), Stop>
    ensures found { IfOk result (λ all. HearsTasks (hearing_of S.Source source.old) (hearing_of S.Source source.new) choice.now all.1.items all.0) }
    ensures few { IfOk result (λ all. length all.0.columns.items ≤ 64) }
    ensures refused { IfErr result (λ stop. HearsNoTasks (hearing_of S.Source source.old) (hearing_of S.Source source.new) stop) }
    ensures bounded { S.reads source.new.source ≤ S.reads source.old.source + (TEXT_LIMIT + 1) }
{
    match hear_text(alloc, source) {
        Ok(text) => tasks_of(alloc, text, choice),
        Err(fault) => Err(Stop::Text(fault)),
    }
}

// The tasks and names of a station's text that was read whole, with the text itself, which is handed back. It fails with the faults of
// `read_tasks` (`Text`), with the field at fault for a faulty line (`Line`), and with `Empty` if the text has no command of a cycle.
fn tasks_of(alloc: Global, text: Vec<u8>, choice: &Choice) -> Result<(Tasks, Vec<u8>), Stop>
    ensures found { IfOk result (λ all. HasTasks text.items choice.now (tasks_seen all.0)) }
    ensures same { IfOk result (λ all. all.1.items ≡ text.items) }
    ensures few { IfOk result (λ all. length all.0.columns.items ≤ 64) }
    ensures refused { IfErr result (λ stop. HasNoTasks text.items stop) }
{
    match read_tasks(alloc, text.as_slice(), choice.deadline, choice.chained) {
        Ok(tasks) => {
            if tasks.tasks.len() <= tasks.setup {
                return Err(Stop::Empty);
            }
            Ok((tasks, text))
        }
        Err(fault) => Err(stop_for(text.as_slice(), fault)),
    }
}

/// What is watched of these tasks, for a run over them. `Err`: memory was refused.
pub fn watches_of(alloc: Global, tasks: &Tasks) -> Result<Watches, AllocError>
    ensures { IfOk result (λ watches. places_of watches ≡ watched_of tasks.now.setup tasks.now.tasks.items) }
{
    Watches::of(alloc, tasks.setup, tasks.tasks.as_slice())
}

// The stop for a text with this fault. That for a faulty line has the line's number, and which of its fields is at fault.
fn stop_for(text: &[u8], fault: RunFault) -> Stop
    ensures { IsStopFor text.now fault result }
{
    match fault {
        RunFault::Schedule { line } => Stop::Line(line, trouble_of(line_at(text, line))),
        _ => Stop::Text(fault),
    }
}
