//! A rehearsal: its texts are read, its nights are rehearsed, and how that ended is reported.

ghost use Rattle.std.specs.Prelude.{[], ◌≡◌, ◌≤◌, ◌||◌, is_some, length};
ghost use Rattle.gc_filters.specs.Scenes.{is_late};
ghost use Rattle.gc_rehearsal.specs.Rules.{frequency_of};
ghost use Rattle.gc_rehearsal.specs.declared.rule.Word.TheVariants.{Alter};
ghost use Rattle.gc_rehearsal.specs.Inside.{told};
ghost use Rattle.gc_logs.specs.Statuses.{IsStatusUpTo};

use crate::book::{RunBook, Seen};
use crate::deadlines::Deadlines;
use crate::halt::{FileOption, Halt};
use crate::nights::{Programme, Rehearsing};
use crate::reading::read_rules;
use crate::rehearsed::Rehearsed;
use crate::report::tell_summary;
use crate::rule::Word;
use crate::rules::Rules;
use crate::seeded::Seeded;
use crate::summary::Summary;
use gc_filters::{LateForm, LateScene, read_scene, scene_trouble_of};
use gc_lines::{FromReader, Sink, Source};
use gc_logs::Streams;
use gc_measuring::{Labels, commands_per_cycle, read_task_text};
use gc_options::{Layout, Rehearsal};
use gc_rows::write_head;
use gc_texts::{RunFault, Task, Tasks, line_at, read_text};
use std::alloc::{AllocError, Global};
use std::fs::{File, Files};
use std::io::{self, Write};
use std::process::ExitCode;

// When the first night begins: 2026-01-01T20:00Z, in milliseconds since 1970.
const BEGINNING: u64 = 1_767_297_600_000;

// A scene of the simulator's three targets. The serial number and the name that it leaves out are the simulator's, too.
const SIMULATOR: &[u8] =
    b"target 0.5 1.5 25.125\ntarget 2.25 1.625 110.0625\ntarget 4.0 1.5 48.5\n";

/// Rehearses the nights of a station with the text of the input, writes its rows on the output, and reports on the messages how
/// commands ended, with status 0, also if this report can't be written. Status 1, with the lines of the fault: the input or a
/// file couldn't be read, a text was refused, the output failed, memory was refused, or a row is false; the rows up to then are
/// written, as far as the output took them. A line in flight for which memory is refused is lost, and is no fault. The result is
/// an error only if the fault can't be reported. The streams are handed back.
pub fn rehearse<R: Files, S: Source, K: Sink + Drop, E: Write>(
    rt: &R,
    alloc: Global,
    rehearsal: Rehearsal<'_>,
    streams: Streams<S, K, E>,
) -> (Streams<S, K, E>, io::Result<ExitCode>)
    ensures { IsStatusUpTo 1 result.1 }
{
    let Streams {
        mut input,
        output,
        mut messages,
    } = streams;
    let (output, end) = match texts_of(rt, alloc, rehearsal, &mut input) {
        Ok(texts) => rehearse_texts(alloc, rehearsal, texts, output, &mut messages),
        Err(halt) => (output, Err(halt)),
    };
    let ended = report(end, &mut messages);
    let streams = Streams {
        input,
        output,
        messages,
    };
    (streams, ended)
}

// Reports how a rehearsal ended: with status 0, or with status 1 and the lines of its fault. It fails if these can't be written.
fn report<E: Write>(end: Result<(), Halt>, messages: &mut E) -> io::Result<ExitCode>
    ensures { IsStatusUpTo 1 result }
{
    match end {
        Ok(()) => Ok(ExitCode::SUCCESS),
        Err(halt) => {
            halt.tell(messages)?;
            Ok(ExitCode::from(1))
        }
    }
}

// What the texts of a rehearsal give.
#[derive(Drop)]
struct Texts {
    rules: Rules,
    scene: LateScene,
    tasks: Tasks,
    ghost few: { length tasks.columns.items ≤ 64 },
}

// Reads the texts of a rehearsal: the line's, the scene's and the station's, in this order. Fails at the first that can't be read
// or is refused, or for which memory is refused.
fn texts_of<R: Files, S: Source>(
    rt: &R,
    alloc: Global,
    rehearsal: Rehearsal<'_>,
    input: &mut S,
) -> Result<Texts, Halt> {
    let rules = rules_of(rt, alloc, rehearsal.line)?;
    let scene = scene_of(rt, alloc, rehearsal.scene)?;
    let (tasks, _) = read_task_text(alloc, input, &rehearsal.station.choice).map_err(Halt::Text)?;
    Ok(Texts {
        rules,
        scene,
        tasks,
    })
}

// Reads the file at this path, which this option names, to its end. Fails with `File` and the fault of `read_text`, or `Read` if the
// file can't be opened.
fn read_file<R: Files>(
    rt: &R,
    alloc: Global,
    path: &str,
    option: FileOption,
) -> Result<Vec<u8>, Halt> {
    let Ok(file) = File::open(rt, path) else {
        return Err(Halt::File(option, RunFault::Read));
    };
    read_text(alloc, &mut FromReader::new(file)).map_err(|fault| Halt::File(option, fault))
}

// The rules of the line in the file at this path; without a path those of a line to which nothing happens. Fails as `read_file`
// does, and with `Line` if the file's text is refused.
fn rules_of<R: Files>(rt: &R, alloc: Global, line: Option<&str>) -> Result<Rules, Halt> {
    let Some(path) = line else {
        return Ok(Rules::none());
    };
    let text = read_file(rt, alloc, path, FileOption::Line)?;
    read_rules(text.as_slice()).map_err(Halt::Line)
}

// The scene in the file at this path; without a path that of the simulator. Fails as `read_file` and `scene_in` do, and without a path
// with the fault of `read_scene` (`Fault`).
fn scene_of<R: Files>(rt: &R, alloc: Global, scene: Option<&str>) -> Result<LateScene, Halt> {
    let Some(path) = scene else {
        return read_scene::<LateForm, LateScene>(alloc, SIMULATOR).map_err(Halt::Fault);
    };
    let text = read_file(rt, alloc, path, FileOption::Scene)?;
    scene_in(alloc, text.as_slice())
}

// The scene of this text. It fails with `Scene` at the first faulty line, such as one with `delay` or `busy`, because `serve` alone
// delays replies so; and with `File` for a fault that isn't one line's.
fn scene_in(alloc: Global, text: &[u8]) -> Result<LateScene, Halt> {
    match read_scene::<LateForm, LateScene>(alloc, text) {
        Ok(scene) => Ok(scene),
        Err(RunFault::Schedule { line }) => Err(Halt::Scene(
            line,
            scene_trouble_of(line_at(text, line), false),
        )),
        Err(fault) => Err(Halt::File(FileOption::Scene, fault)),
    }
}

// How many times a night the station is to be killed by these rules; 0 without a rule on that.
fn kills_of(rules: &Rules) -> u64 {
    match rules.frequency(Word::Kill) {
        Some(frequency) => u64::from(frequency.least),
        None => 0,
    }
}

// The programme of a rehearsal on a line with these rules, with the instrument of this scene, of these tasks, of which the first `setup`
// are the setup; a cycle has `commands` commands.
fn programme_of<'a>(
    alloc: Global,
    rehearsal: Rehearsal<'_>,
    rules: &Rules,
    scene: &LateScene,
    tasks: &'a [Task],
    setup: usize,
    commands: usize,
) -> Programme<'a>
    ensures alters { result.alters ≡ (result.is_late || is_some (frequency_of rules.now Alter)) }
    ensures late { result.is_late ≡ is_late scene.now }
{
    let is_late = scene.is_late();
    Programme {
        alloc,
        tasks,
        setup,
        commands,
        choice: rehearsal.station.choice,
        nights: rehearsal.nights,
        cycles: rehearsal.cycles,
        kills: kills_of(rules),
        alters: is_late || rules.frequency(Word::Alter).is_some(),
        is_late,
        seed: rehearsal.seed,
        start: BEGINNING,
    }
}

// What was seen of this programme before the first row. `Err`: memory was refused.
fn seen_at_first(alloc: Global, programme: Programme<'_>) -> Result<Seen, AllocError> {
    let summary = Summary::new(alloc, programme.tasks, programme.setup)?;
    let deadlines = Deadlines::new(alloc, programme.tasks, programme.setup)?;
    Ok(Seen::new(alloc, programme.start, deadlines, summary))
}

// Rehearses the nights of these texts, writes the rows on the output, with a header if their form has one, and, once the nights
// are done, the summary on the messages. The output is handed back. Fails as `run_nights` does, and before the first night if
// memory is refused or the header can't be written, but not if the summary can't be written.
fn rehearse_texts<K: Sink + Drop, E: Write>(
    alloc: Global,
    rehearsal: Rehearsal<'_>,
    texts: Texts,
    mut output: K,
    messages: &mut E,
) -> (K, Result<(), Halt>) {
    let Texts {
        rules,
        scene,
        tasks,
    } = texts;
    let commands = commands_per_cycle(&tasks);
    let Tasks {
        setup,
        tasks,
        names,
        nears: _,
        unwatched: _,
        described,
        columns,
    } = tasks;
    let labels = Labels {
        names,
        described,
        columns,
    };
    let programme = programme_of(
        alloc,
        rehearsal,
        &rules,
        &scene,
        tasks.as_slice(),
        setup,
        commands,
    );
    let Ok(seen) = seen_at_first(alloc, programme) else {
        return (output, Err(Halt::Fault(RunFault::Memory)));
    };
    let layout = rehearsal.station.layout;
    if write_head(&mut output, layout.form, labels.columns.as_slice()).is_err() {
        return (output, Err(Halt::Fault(RunFault::Output)));
    }
    let book = RunBook::new(output, layout, labels, seen);
    let chance = Seeded::new(rules, rehearsal.seed);
    let LateScene { instrument, delays } = scene;
    let link = Rehearsed::new(
        alloc,
        chance,
        instrument,
        delays,
        BEGINNING,
        programme.alters,
    );
    rehearse_over(programme, Rehearsing { link, book }, messages)
}

// Rehearses the nights over a link that is new, and writes the summary if they are done. The output is handed back. Fails as
// `run_nights` does, and not if the summary can't be written.
fn rehearse_over<K: Sink + Drop, E: Write>(
    programme: Programme<'_>,
    mut rehearsing: Rehearsing<K>,
    messages: &mut E,
) -> (K, Result<(), Halt>)
    requires { rehearsing.link.carried ≡ told programme.alters [] }
{
    let end = rehearsing.run_nights(programme);
    let Rehearsing { link, book } = rehearsing;
    let (output, mut seen, labels) = book.end();
    if end.is_ok() {
        // If the summary can't be written, the rows are there all the same.
        let _ = tell_summary(
            programme,
            &mut seen.summary,
            labels.names.as_slice(),
            link.counts(),
            messages,
        );
    }
    (output, end)
}
