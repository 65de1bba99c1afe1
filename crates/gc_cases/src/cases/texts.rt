//! Cases of texts. A text is read as the case's `as` says: as commands, a schedule, a station's tasks, a line of a log, a place
//! and so on; or it names a fault, which is printed. The case expects under `is` what comes of it, as the functions here append
//! it to `came`.

use gc_catalogue::Asked;
use gc_filters::read_schedule;
use gc_lines::ToWriter;
use gc_links::place_of;
use gc_probes::{Case, Player, Told, bytes_of, text_of};
use gc_texts::{
    Codes, Command, JUDGEMENTS, LogBytes, LogLine, LogMark, Occasion, RunFault, Task, Tasks,
    Trouble, Twice, command_trouble_of, count_in, has_date, is_dated_path, line_at, meets, path_at,
    read_commands, read_double, read_log_line, read_tasks, trouble_of, write_log_line,
};
use gc_values::{FILE_VALUES, filled_up};
use gc_world::Event;
use std::alloc::Global;
use std::io;

/// Plays `.texts`.
pub struct Texts;

impl Player for Texts {
    // Reads the text that a case spells, and compares what comes of it with what the case expects. If memory runs out for the
    // text, `wrong` notes that it lacks a part.
    fn play(&self, rt: &HostRuntime, case: &Case<'_>, wrong: &mut Told) -> io::Result<()> {
        match bytes_of(rt.alloc(), case.value("text")) {
            Ok(text) => play_text(case, text.as_slice(), wrong),
            Err(_) => wrong.lack(),
        }
        Ok(())
    }
}

// Plays a case whose text spells these bytes.
fn play_text(case: &Case<'_>, text: &[u8], wrong: &mut Told) {
    let played = TextCase { case: *case, text };
    played.play(wrong);
}

// A case, and the bytes that its text spells.
#[derive(Clone, Copy)]
struct TextCase<'a, 'b> {
    case: Case<'a>,
    text: &'b [u8],
}

impl TextCase<'_, '_> {
    // Compares what comes of the text with the case's value under `is`; and where the case has a value under `of`, the number of
    // a target, also the name of that target with the value under `name`. What differs goes to `wrong`.
    fn play(&self, wrong: &mut Told) {
        let mut came = Told::new(wrong.alloc);
        if let Err(fault) = self.read_as_said(&mut came) {
            came.display(&fault);
        }
        self.case.compare_told("is", &came, wrong);
        if self.case.has("of") {
            self.compare_name(wrong);
        }
    }

    // Appends what comes of the text, as the case's `as` says: its line with the number under `line`, counted from 1; what is
    // printed of it as a faulty line; the line that a log has of it; the fault that it names; what it reads as; or, of a
    // station's text under `call`, what its first task asks for if it is sent at the case's `utc`, in milliseconds since 1970, 0
    // if it has none, or, under `path`, what a path with a date is then; and under `expected`, whether the case's reply is what its first task expects. For any other word `no such text`. `Err`: the fault for which the text doesn't read as commands, a schedule
    // or a station's text.
    fn read_as_said(&self, came: &mut Told) -> Result<(), RunFault> {
        match self.case.value("as") {
            "line" => came.bytes(line_at(self.text, self.case.number("line", 0))),
            "trouble" => append_trouble(trouble_of(self.text), came),
            "trouble of a command" => append_trouble(command_trouble_of(self.text), came),
            "log" => write_as_log_line(self.text, came),
            "fault" => append_named_fault(&self.case, came),
            "commands" => append_commands(read_commands(came.alloc, self.text)?.as_slice(), came),
            "schedule" => append_events(read_schedule(came.alloc, self.text)?.as_slice(), came),
            "tasks" => append_tasks(&self.case, &self.tasks(came.alloc)?, came),
            "call" => append_call(
                self.tasks(came.alloc)?.tasks.as_slice(),
                self.case.number("utc", 0),
                came,
            ),
            "expected" => append_met(&self.case, self.tasks(came.alloc)?.tasks.as_slice(), came),
            "place" => read_as_place(self.text, came),
            "path" => append_dated_path(self.text, self.case.number("utc", 0), came),
            "log line" => read_as_log_line(self.text, came),
            _ => came.text("no such text"),
        }
        Ok(())
    }

    // Reads a station's text. Until a line says otherwise, its commands have the case's `deadline` in milliseconds, 0 if it has
    // none, and are chained if its `mode` is `chained`. `Err`: the text is refused, or memory ran out.
    fn tasks(&self, alloc: Global) -> Result<Tasks, RunFault> {
        let deadline = self.case.number("deadline", 0);
        let is_chained = self.case.is("mode", "chained");
        read_tasks(alloc, self.text, deadline, is_chained)
    }

    // Reads a station's text, and compares the name of the target whose number is under `of` with the case's `name`; where the
    // text doesn't read, its fault.
    fn compare_name(&self, wrong: &mut Told) {
        let mut name = Told::new(wrong.alloc);
        self.append_name(&mut name);
        self.case.compare_told("name", &name, wrong);
    }

    // Reads a station's text, and appends to `name` the name of the target whose number is under `of`, nothing if it has none; or
    // the fault of the text.
    fn append_name(&self, name: &mut Told) {
        match self.tasks(name.alloc) {
            Ok(all) => name.bytes(all.name_of(self.case.number("of", 0))),
            Err(fault) => name.display(&fault),
        }
    }
}

// Appends each command in a line: its target and its call, as `Debug` prints it.
fn append_commands(commands: &[Command], came: &mut Told) {
    for command in commands {
        came.counted(&command.target, " ");
        came.debug(&command.call);
        came.text("\n");
    }
}

// Appends what a path with a date is at the moment `utc`, or `refused` if a `%` in it begins no part of one.
fn append_dated_path(text: &[u8], utc: u64, came: &mut Told) {
    let path = text_of(text);
    if !is_dated_path(path) {
        came.text("refused");
        return;
    }
    match path_at(came.alloc, path, utc) {
        Ok(made) => came.text(made.as_str()),
        Err(_) => came.lack(),
    }
    came.text_if(!has_date(path), ", without a date");
}

// Appends each event in a line, as `Debug` prints it.
fn append_events(events: &[Event], came: &mut Told) {
    for event in events {
        came.debug(event);
        came.text("\n");
    }
}

// Appends each task in a line, and then how many targets have names, and the columns that descriptions add. If the case says `turns told`, each line has the task's
// turn, too, and at the end is how many tasks the setup has.
fn append_tasks(case: &Case<'_>, all: &Tasks, came: &mut Told) {
    let turns = case.is("turns", "told");
    for task in all.tasks.as_slice() {
        append_task(task, came);
        append_near(task, came);
        append_codes(" accepting ", &task.accepted, came);
        append_codes(" busy ", &task.busy, came);
        append_expectation(task, came);
        append_form(task, came);
        if turns {
            append_turn(task, came);
        }
        came.text("\n");
    }
    came.counted(&all.names.len(), " names");
    for column in all.columns.as_slice() {
        came.text(" column ");
        came.escaped(column.as_slice());
    }
    if turns {
        came.titled(" setup ", &all.setup);
    }
}

// Appends a task's turn: its place, its attempt and its link; its `others`, which is how many tasks this attempt and those after
// it have together if the task is the first of an attempt other than the first, and else 0; in every how many cycles it has its turn, unless
// it has it in each; after which return codes and other
// outcomes it is asked again; whether its request is made anew each time, and which values of files it takes; and its sending.
fn append_turn(task: &Task, came: &mut Told) {
    came.titled(" place ", &task.turn.place);
    came.titled(" attempt ", &task.turn.attempt);
    came.titled(" link ", &task.turn.link);
    came.titled(" others ", &task.others);
    append_every(task, came);
    append_codes(" again ", &task.again.codes, came);
    append_outcomes(task, came);
    came.text_if(task.now, " now");
    append_needs(task, came);
    append_sending(task, came);
}

// Appends in every how many cycles a task has its turn, if it hasn't it in each.
fn append_every(task: &Task, came: &mut Told) {
    if task.every != 1 {
        came.titled(" every ", &task.every);
    }
}

// Appends which values of files a task takes, if it takes any: the number of the first, and how many there are.
fn append_needs(task: &Task, came: &mut Told) {
    if task.needs.count > 0 {
        came.titled(" values from ", &task.needs.first);
        came.titled(" count ", &task.needs.count);
    }
}

// Appends which sending of its chain a task is in, if the chain is sent twice; and of the second one which command of the chain it is, and
// how far apart the values may be.
fn append_sending(task: &Task, came: &mut Told) {
    match task.twice {
        Twice::Once => (),
        Twice::First => came.text(" first"),
        Twice::Second { agree, nth } => {
            came.titled(" second ", &nth);
            came.titled(" apart ", &agree.hz);
            came.titled(" ", &agree.v);
            came.titled(" ", &agree.distance);
        }
    }
}

// Appends the outcomes, other than return codes, after which a task is asked again.
fn append_outcomes(task: &Task, came: &mut Told) {
    came.text_if(task.again.unreadable, " unreadable");
    for judgement in JUDGEMENTS {
        if task.again.judged.has(judgement) {
            came.text(" ");
            came.bytes(judgement.word());
        }
    }
    came.text_if(task.again.late, " late");
    came.text_if(task.again.lost, " lost");
    came.text_if(task.again.skipped, " skipped");
}

// Appends what is asked for: a call of the table as `Debug` prints it, and the parameters of any other procedure behind its number.
fn append_asked(asked: &Asked, came: &mut Told) {
    match asked {
        Asked::Table(_) => came.debug(asked),
        Asked::Raw(raw) => {
            came.counted(&raw.number(), " ");
            came.bytes(raw.params());
        }
    }
}

// Appends what the first of these tasks asks for if it is sent at the moment `utc`, in milliseconds since 1970, when each file has the value
// 20.5; or `no task`.
fn append_call(tasks: &[Task], utc: u64, came: &mut Told) {
    match tasks.first() {
        Some(task) => append_asked(
            &task.call_at(&Occasion {
                utc,
                values: [filled_up(b"20.5"); FILE_VALUES],
            }),
            came,
        ),
        None => came.text("no task"),
    }
}

// Appends whether the case's `reply` is what the first of these tasks expects, where the case's `before`, if it has one, is the number in
// the place of its item `>` in the answer before; and the number in that place of the reply, if there is one.
fn append_met(case: &Case<'_>, tasks: &[Task], came: &mut Told) {
    let Some(task) = tasks.first() else {
        came.text("no task");
        return;
    };
    let reply = case.value("reply").as_bytes();
    let before = read_double(case.value("before").as_bytes());
    let is_met = meets(&task.expects, &before, reply);
    came.text(if is_met { "met" } else { "unmet" });
    if let Some(count) = count_in(&task.expects, reply) {
        came.titled(" count ", &count);
    }
}

// Appends what is expected of a task's answer, and which of the text's items `>` is in it, if either is there.
fn append_expectation(task: &Task, came: &mut Told) {
    if let Some(expectation) = task.expects {
        came.text(" expects ");
        came.escaped(expectation.text());
    }
    if let Some(counter) = task.counter {
        came.titled(" counter ", &counter);
    }
}

// Appends, if a task's answers are read by a description, which of their values are a measurement's.
fn append_form(task: &Task, came: &mut Told) {
    if let Some(form) = task.form {
        came.text(" described");
        append_place(" hz ", form.hz, came);
        append_place(" v ", form.v, came);
        append_place(" distance ", form.distance, came);
    }
}

// Appends a place among values, counted from 0, if there is one, with `title` before it.
fn append_place(title: &str, place: Option<usize>, came: &mut Told) {
    if let Some(place) = place {
        came.titled(title, &place);
    }
}

// Appends the target of a task, the number of its procedure, with the parameters if it isn't in the table, its deadline in
// milliseconds, and whether it is chained.
fn append_task(task: &Task, came: &mut Told) {
    came.display(&task.command.target);
    came.titled(" ", &task.command.call.number());
    append_raw(&task.command.call, came);
    came.titled(" within ", &task.deadline);
    came.text_if(task.chained, " chained");
}

// Appends the parameters of a procedure that isn't in the table, in brackets; for a call of the table nothing.
fn append_raw(asked: &Asked, came: &mut Told) {
    if let Asked::Raw(raw) = asked {
        came.text(" [");
        came.escaped(raw.params());
        came.text("]");
    }
}

// Appends where the target of a task is, its horizontal and its vertical angle, and the tolerance, all in radians, and its distance
// and the tolerance of that, in metres, if the text says them; nothing if the text says no place. Then, if the text leaves the target
// unwatched, that.
fn append_near(task: &Task, came: &mut Told) {
    if let Some(near) = task.near {
        came.titled(" near ", &near.place.hz);
        came.titled(" ", &near.place.v);
        came.titled(" ", &near.tolerance);
        if let Some(range) = near.range {
            came.titled(" ", &range.distance);
            came.titled(" ", &range.tolerance);
        }
    }
    came.text_if(!task.watched, " unwatched");
}

// Appends each of these return codes, with `title` before it. A 0 stands for no code.
fn append_codes(title: &str, codes: &Codes, came: &mut Told) {
    for code in &codes.codes {
        if *code != 0 {
            came.titled(title, code);
        }
    }
}

// Appends what the program prints of a faulty line with this trouble, as if it were the text's third line.
fn append_trouble(trouble: Trouble, came: &mut Told) {
    let _ = trouble.tell(3, came);
}

// Appends the place of a link that a word names, as `Debug` prints it, or `none` if it names none or isn't UTF-8.
fn read_as_place(word: &[u8], came: &mut Told) {
    match place_of(text_of(word)) {
        Some(place) => came.debug(&place),
        None => came.text("none"),
    }
}

// Reads a line of a log, and appends its moment, its mark and its bytes, or `no log line`.
fn read_as_log_line(line: &[u8], came: &mut Told) {
    match read_log_line(line) {
        Some(line) => append_log_line(&line, came),
        None => came.text("no log line"),
    }
}

// Appends the moment, the mark and the bytes of a line of a log, with spaces between, as a value of a case spells them.
fn append_log_line(line: &LogLine<'_>, came: &mut Told) {
    came.escaped(line.moment);
    came.text(" ");
    came.escaped(line.mark.text());
    came.text(" ");
    came.escaped(line.bytes.as_slice());
}

// Appends the line that a log has of the first 514 bytes of this text, as sent one second after the beginning of 1970.
fn write_as_log_line(text: &[u8], came: &mut Told) {
    let mut bytes = LogBytes::new();
    for byte in text {
        let _ = bytes.try_push(*byte);
    }
    let _ = write_log_line(&mut ToWriter::new(came), 1000, LogMark::Went, &bytes);
}

// Appends the fault that the case names under `text`, as `append_fault` does, or `no such fault`.
fn append_named_fault(case: &Case<'_>, came: &mut Told) {
    match fault_of(case) {
        Some(fault) => append_fault(fault, came),
        None => came.text("no such fault"),
    }
}

// Appends a fault's number and what `Display` prints of it, each with a line feed, and the line that `tell` writes. The two texts
// have different sources, and no clause has the first.
fn append_fault(fault: RunFault, came: &mut Told) {
    came.counted(&fault.number(), "\n");
    came.counted(&fault, "\n");
    let _ = fault.tell(came);
}

// The fault that a case names under `text`, with the numbers under `replies` and `bytes`, or under `line`; each is 0 if the case
// has none. `None`: there is no such fault.
fn fault_of(case: &Case<'_>) -> Option<RunFault> {
    Some(match case.value("text") {
        "Write" => RunFault::Write {
            replies: case.number("replies", 0),
            bytes: case.number("bytes", 0),
        },
        "Schedule" => RunFault::Schedule {
            line: case.number("line", 0),
        },
        "SceneFull" => RunFault::SceneFull,
        "Read" => RunFault::Read,
        "TooManyReads" => RunFault::TooManyReads,
        "LinkClosed" => RunFault::LinkClosed,
        "Mute" => RunFault::Mute,
        "Clock" => RunFault::Clock,
        "Stale" => RunFault::Stale,
        "SetUp" => RunFault::SetUp,
        "NoCommand" => RunFault::NoCommand,
        "Memory" => RunFault::Memory,
        "InputTooLong" => RunFault::InputTooLong,
        "Socket" => RunFault::Socket,
        "Output" => RunFault::Output,
        "StreamClosed" => RunFault::StreamClosed,
        "Log" => RunFault::Log,
        "NoTerminal" => RunFault::NoTerminal,
        "Held" => RunFault::Held,
        "Forbidden" => RunFault::Forbidden,
        "RecordsUnopened" => RunFault::RecordsUnopened,
        "RecordsHeld" => RunFault::RecordsHeld,
        "RecordsForeign" => RunFault::RecordsForeign,
        _ => return None,
    })
}
