//! Runs of a station over a link that plays steps: what is put on it, what is recorded, and the end. `words.rt` has the words
//! of steps, and `setting.rt` those after `with`.
//!
//!     tasks 7 0;8 0               the station's text, with `;` for the ends of its lines; chained as it says
//!     with width=2 timed          what is set otherwise than `Setting::new` has it
//!     steps BEGUN #0 end QUIET    what the reads come to
//!     then dead answers           the steps after these, or after the first of them alone, if `first` says how many
//!     put open lf begin %R1Q,0,0: ..    what was put, opened and closed; `begin` are the eight null procedures of a
//!                                 synchronization and the client's first one, in a row, each once; `cut:` stands before what
//!                                 was cut; where `with` says `timed`, `@` and the milliseconds since the start come after each,
//!                                 and of a request there is the id alone, as `#1@15`
//!     ends 10a 11w[0:1283]2.25    the last digits of cycle and place and a letter for each record: answered, a warning,
//!                                 answered in a first sending and unconfirmed (f), unreadable, and judged (`judged_letter`;
//!                                 each with what its reply says after it: the communication code and the return code in brackets,
//!                                 unless both are 0, and the values), late, lost (x), skipped, without a value of a file (v) or
//!                                 missed; where `with` says `stamped`, `@` and the moment at which its request was sent, in
//!                                 milliseconds since 1970, if it was; the last digit of a cycle that overran, with `!`; and that of the
//!                                 place of the command by which the run is stale, with `?`; and for each stray that can't repeat
//!                                 the reply that settled last how many requests the line had ended that settled last, with `~`
//!     end fault 46                the fault, if there is one
//!     counts answered 3 ..        how many commands were answered, late, skipped and missed, and how many times a chain was sent
//!                                 again, where `with` says `counted`, after a run without a fault over a link without a log
//!     log ..                      what the log has, over a link with one; without tasks the link is only read
//!     row cut=3: PUT | ENDS | END the same once more with this word behind the others, in place of the three lines
//!     each kept=11                once for each number below this one: all come to the same

use crate::station::running::{Outcome, Run};
use crate::station::setting::Setting;
use crate::station::words::number;
use gc_probes::{Case, Player, Told, push_bytes_of, text_of};
use std::alloc::{AllocError, Global};
use std::io;

// The most rows of a case.
const MOST_ROWS: usize = 1000;

/// The player of `.stations`.
pub struct Stations;

impl Player for Stations {
    // Plays a case of runs of a station, and appends to `wrong` what came otherwise than the case has it.
    fn play(&self, _rt: &HostRuntime, case: &Case<'_>, wrong: &mut Told) -> io::Result<()> {
        play_case(case, wrong);
        Ok(())
    }
}

// The texts of a case: the station's text, the words of the steps, and those of the steps after them.
#[derive(Drop)]
struct CaseTexts {
    tasks: Vec<u8>,
    steps: Vec<u8>,
    then: Vec<u8>,
}

impl CaseTexts {
    // The texts of no case: all are empty.
    fn new(alloc: Global) -> CaseTexts {
        CaseTexts {
            tasks: Vec::new(alloc),
            steps: Vec::new(alloc),
            then: Vec::new(alloc),
        }
    }

    // Stores the values that a case has under `tasks` (with a line feed for each `;`), `steps` and `then`. `Err`: memory ran out,
    // and what was stored until then stays.
    fn take(&mut self, case: &Case<'_>) -> Result<(), AllocError> {
        push_lines(&mut self.tasks, case.value("tasks"))?;
        push_bytes_of(&mut self.steps, case.value("steps"))?;
        push_bytes_of(&mut self.then, case.value("then"))
    }

    // The run of the case, set as the words after `with` say; whether these are all known is noted in it. Its link has a log if
    // the case has a line `log`.
    fn run(&self, alloc: Global, case: &Case<'_>) -> Run<'_> {
        let mut setting = Setting::new();
        let is_known = setting.set_all(case.value("with"));
        Run {
            alloc,
            tasks: self.tasks.as_slice(),
            steps: self.steps.as_slice(),
            then: self.then.as_slice(),
            setting,
            is_known,
            is_logged: case.value_at("log", 0).is_some(),
        }
    }
}

// Appends `value` to `lines`, with a line feed for each `;`. `Err`: memory ran out.
fn push_lines(lines: &mut Vec<u8>, value: &str) -> Result<(), AllocError> {
    for byte in value.as_bytes() {
        lines.push(if *byte == b';' { b'\n' } else { *byte })?;
    }
    Ok(())
}

// Plays a case. If memory runs out for its texts, it is played with what there is of them, and `wrong` notes that it lacks a
// part, so that this case and each later one of the file count as wrong.
fn play_case(case: &Case<'_>, wrong: &mut Told) {
    let mut texts = CaseTexts::new(wrong.alloc);
    if texts.take(case).is_err() {
        wrong.lack();
    }
    let run = texts.run(wrong.alloc, case);
    let played = CaseRun {
        case: *case,
        run: &run,
    };
    played.play(wrong);
}

// A case, and the run that it sets.
#[derive(Clone, Copy)]
struct CaseRun<'a> {
    case: Case<'a>,
    run: &'a Run<'a>,
}

impl CaseRun<'_> {
    // Plays the rows of the case, or its run if it has no rows.
    fn play(&self, wrong: &mut Told) {
        if self.case.has("row") {
            self.play_rows(wrong);
        } else {
            self.play_each(wrong);
        }
    }

    // Plays the rows of the case, at most `MOST_ROWS`. Beside rows a case has no value under `put`, `ends`, `end`, `log` or
    // `counts`: each that it has there is reported as wrong; and a line `each` has no effect.
    fn play_rows(&self, wrong: &mut Told) {
        for place in 0..MOST_ROWS {
            match self.case.value_at("row", place) {
                Some(row) => self.play_row(row, wrong),
                None => break,
            }
        }
        let nothing = Outcome::new(self.run.alloc);
        nothing.compare(&self.case, wrong);
    }

    // Plays a row: the run with the row's word more, which is what stands before the first `: `. Reports the row as it came, if
    // that is something else than `row`.
    fn play_row(&self, row: &str, wrong: &mut Told) {
        let mut came = Told::new(wrong.alloc);
        let word = row.split_once(": ").map_or(row, |cut| cut.0);
        came.text(word);
        self.outcome_with(word).tell_row(&mut came);
        if came.as_bytes() != row.as_bytes() || came.is_lacking() {
            self.case.tell_wrong("rows", came.as_bytes(), wrong);
        }
    }

    // What the run comes to with the setting words of `word` more, which may be empty.
    fn outcome_with(&self, word: &str) -> Outcome {
        let mut outcome = Outcome::new(self.run.alloc);
        self.run.play(word, &mut outcome);
        outcome
    }

    // Plays the run. Where the case has a line `each KEY=COUNT`, it is played once for each number below COUNT (`play_below`); a
    // COUNT that is 0 or no number is reported as wrong. Without such a line the run is played once, as it is set.
    fn play_each(&self, wrong: &mut Told) {
        let Some((key, count)) = self.case.value("each").split_once('=') else {
            self.outcome_with("").compare(&self.case, wrong);
            return;
        };
        match number(count) {
            Some(0) => self.case.tell_wrong("each", b"0", wrong),
            Some(count) => self.play_below(key, count, wrong),
            None => self.case.tell_wrong("each", b"no number", wrong),
        }
    }

    // Plays the run once for each number N below `count`, with the setting word `KEY=N` more, up to the first that comes
    // otherwise than the case has it: what came otherwise is reported.
    fn play_below(&self, key: &str, count: u64, wrong: &mut Told) {
        for n in 0..count {
            let mut report = Told::new(wrong.alloc);
            self.outcome_at(key, n).compare(&self.case, &mut report);
            wrong.append(&report);
            if !report.is("") {
                break;
            }
        }
    }

    // What the run comes to with one setting word more, which sets `key` to the number `n`; with a part of that word if memory
    // runs out for it.
    fn outcome_at(&self, key: &str, n: u64) -> Outcome {
        let mut word = Told::new(self.run.alloc);
        word.text(key);
        word.titled("=", &n);
        self.outcome_with(text_of(word.as_bytes()))
    }
}
