//! Records of a run: a case has the form, the moments, the target's name, the procedure, and the reply or how else the command
//! ended. They are of the second cycle, of step 3, of the first attempt and of the id 0, where the case doesn't say `cycle`, `step`,
//! `attempt` or `id`.

ghost use Rattle.std.specs.Prelude.{◌≤◌, length};

use gc_catalogue::{Answer, Asked, Asking, Reading};
use gc_lines::{Line, ToWriter, read_reply};
use gc_probes::{Case, Player, Told, bytes_of};
use gc_rows::{EndedCommand, Form, When, write_head, write_record};
use gc_texts::{
    Ending, FieldName, Judgement, Quality, Stamp, Tasks, Turn, Wish, described_as, read_tasks,
    reading_as_zero,
};
use gc_values::ValueFault;
use std::io;

// When the run of each record began, in milliseconds since 1970.
const RUN_BEGIN: u64 = 1_795_388_880_000;

// When the command of a record ended, in milliseconds since 1970, if the case doesn't say it.
const DEFAULT_UTC: u64 = 1_795_388_907_123;

/// Plays `.records`.
pub struct Records;

impl Player for Records {
    // Writes the record of a case, or its form's head, or `no such form`, and compares it with what the case has under `is`.
    fn play(&self, rt: &HostRuntime, case: &Case<'_>, wrong: &mut Told) -> io::Result<()> {
        let mut written = Told::new(rt.alloc());
        match form_of(case.value("form")) {
            Some(form) => write_case(case, form, &mut written),
            None => written.text("no such form"),
        }
        case.compare_told("is", &written, wrong);
        Ok(())
    }
}

// The form of records that a word names. `None`: it names none.
fn form_of(word: &str) -> Option<Form> {
    match word {
        "lines" => Some(Form::Lines),
        "csv" => Some(Form::Csv),
        "columns" => Some(Form::Columns),
        "json" => Some(Form::Json),
        _ => None,
    }
}

// Appends the record of the first command in a case's text to `written`; for a case without a command, the head that is written before all
// records. If the text doesn't read or has no command, `written` has this in its place.
fn write_case(case: &Case<'_>, form: Form, written: &mut Told) {
    let mut text = Told::new(written.alloc);
    write_text(case, &mut text);
    match read_tasks(written.alloc, text.as_bytes(), 0, false) {
        Ok(all) => write_first(case, form, &all, written),
        Err(_) => written.text("no such text"),
    }
}

// Appends the text of a station that a case has: a line `procedure` for each description under `described`, with semicolons between them,
// and the command; without one, the null procedure, asked of target 0.
fn write_text(case: &Case<'_>, text: &mut Told) {
    for description in case.value("described").split(';') {
        if !description.is_empty() {
            text.text("procedure ");
            text.text(description);
            text.text("\n");
        }
    }
    text.text(if case.has("command") {
        case.value("command")
    } else {
        "0 0"
    });
}

// Appends what `write_case` says, of these tasks.
fn write_first(case: &Case<'_>, form: Form, all: &Tasks, written: &mut Told) {
    match all.tasks.first() {
        Some(_) if !case.has("command") => {
            let _ = write_head(
                &mut ToWriter::new(written),
                form,
                front_columns(&all.columns),
            );
        }
        Some(task) => write_ended(case, form, all, &task.command, written),
        None => written.text("no command"),
    }
}

// Appends the record of this command of a case's text. If memory runs out for the name or the reply, `written` notes that it lacks a part.
fn write_ended(case: &Case<'_>, form: Form, all: &Tasks, command: &Wish, written: &mut Told) {
    let Ok(name) = bytes_of(written.alloc, case.value("name")) else {
        return written.lack();
    };
    let Ok(reply) = bytes_of(written.alloc, case.value("reply")) else {
        return written.lack();
    };
    let line = line_of(reply.as_slice());
    let reading = reading_of(&command.call, &line);
    let zeroed = reading_as_zero(&command.call, &line);
    let ended = EndedCommand {
        when: when_of(case),
        name: front_of(name.as_slice()),
        command,
        ending: ending_of(case.value("ending"), &reading, &zeroed, &line),
        described: described_as(command.call.number(), &all.described),
        columns: front_columns(&all.columns),
    };
    let _ = write_record(&mut ToWriter::new(written), form, ended);
}

// The first 64 of these columns, as many as a text adds at most.
fn front_columns(columns: &[FieldName]) -> &[FieldName]
    ensures { length result.now ≤ 64 }
{
    &columns[..columns.len().min(64)]
}

// The first 64 bytes of a name, as many as a target's name has at most.
fn front_of(name: &[u8]) -> &[u8]
    ensures { length result.now ≤ 64 }
{
    &name[..name.len().min(64)]
}

// The moments of a record, in milliseconds since 1970: when its run began, when its request was sent (none if the case's `sent`
// is no number), and when its command ended; and its request's id, its cycle and its turn.
fn when_of(case: &Case<'_>) -> When {
    When {
        run: RUN_BEGIN,
        stamp: Stamp {
            sent: case.value("sent").parse::<u64>().ok(),
            id: case.number("id", 0),
            utc: case.number("utc", DEFAULT_UTC),
            cycle: case.number("cycle", 2),
            // (no record shows the place in the station's list)
            place: 40,
            turn: turn_of(case),
        },
    }
}

// Which command of a station's text a record is of, and in which attempt: step 3, counted from 0, and the first attempt, where
// the case doesn't say.
fn turn_of(case: &Case<'_>) -> Turn {
    Turn {
        place: case.number("step", 3),
        attempt: case.number("attempt", 1),
        // (no record shows the command's place in its chain)
        link: 0,
    }
}

// The line of a reply; an empty one if the reply is too long for a line.
fn line_of(reply: &[u8]) -> Line {
    let mut line = Line::new();
    let _ = line.try_extend_from_slice(reply);
    line
}

// What a reply's line says in answer to what was asked; a refusal with code 0 if the line is no reply.
fn reading_of(asked: &Asked, line: &Line) -> Reading {
    let mut reading = Reading::Refused(0);
    if let Ok(reply) = read_reply(line.as_slice()) {
        asked.read_into(&reply, &mut reading);
    }
    reading
}

// How a command ended: as `word` says, or, if it is none of the words below, as its reply reads. `reading` is what the reply in
// `line` says, and `zeroed` what it says if its return code is taken as 0, as an accepted return code is.
fn ending_of<'a>(
    word: &str,
    reading: &'a Reading,
    zeroed: &'a Reading,
    line: &'a Line,
) -> Ending<'a> {
    match word {
        "late" => Ending::Late,
        "lost" => Ending::Lost,
        "skipped" => Ending::Skipped,
        "no_value" => Ending::NoValue,
        "missed" => Ending::Missed,
        "spelling" => Ending::Unreadable(line, ValueFault::Spelling),
        "unconfirmed" => Ending::Answered(Quality::Unconfirmed, answer_in(reading), line),
        "unread" => Ending::Answered(quality_of(reading), None, line),
        "accepted" => Ending::Answered(Quality::Warning, answer_in(zeroed), line),
        _ => match (Judgement::named(word.as_bytes()), reading) {
            (Some(judgement), _) => Ending::Judged(judgement, line),
            (None, Reading::Unreadable(fault)) => Ending::Unreadable(line, *fault),
            (None, _) => Ending::Answered(quality_of(reading), answer_in(reading), line),
        },
    }
}

// The quality of an answer whose reply says this, if no return code but 0 is accepted. One whose values don't read counts as
// fine.
fn quality_of(reading: &Reading) -> Quality {
    match reading {
        Reading::Value(_) | Reading::Unreadable(_) => Quality::Fine,
        Reading::Refused(_) | Reading::ComFault(_) => Quality::Refused,
    }
}

// The answer in what a reply says. `None`: it is a refusal or a communication fault, or its values don't read.
fn answer_in(reading: &Reading) -> Option<&Answer> {
    match reading {
        Reading::Value(answer) => Some(answer),
        _ => None,
    }
}
