//! One run of a case.

use crate::station::ends::WordBook;
use crate::station::logs::{play_logged, read_logged};
use crate::station::script::{Script, Step};
use crate::station::setting::Setting;
use crate::station::telling::run_telling;
use crate::station::words::push_words;
use gc_links::{Link, Telling};
use gc_probes::{Case, Told, text_of};
use gc_station::{Tally, Watches};
use gc_texts::{RunFault, Task, read_tasks};
use std::alloc::Global;

/// What a case gives for its runs.
#[derive(Clone, Copy)]
pub struct Run<'a> {
    /// Where the runs take memory.
    pub alloc: Global,
    /// The station's text.
    pub tasks: &'a [u8],
    /// The words of the steps.
    pub steps: &'a [u8],
    /// The words of the steps after those of `steps`.
    pub then: &'a [u8],
    /// How the runs are set.
    pub setting: Setting,
    /// Whether the setting words of the case are all known.
    pub is_known: bool,
    /// Whether the link has a log.
    pub is_logged: bool,
}

/// What one run of a station is played with.
#[derive(Clone, Copy)]
pub struct Scene<'a> {
    /// Where the run takes memory.
    pub alloc: Global,
    /// The tasks of the station's text.
    pub tasks: &'a [Task],
    /// What the reads of its link come to.
    pub steps: &'a [Step<'a>],
    /// How the run is set.
    pub setting: &'a Setting,
}

/// What a run came to, as a case has it.
#[derive(Drop)]
pub struct Outcome {
    // What was put on the link.
    put: Told,
    // What was written into the book.
    ends: Told,
    // The fault, as the program prints it.
    end: Told,
    // The log, if there is one.
    log: Told,
    // The counts of `take_counts`, if the case asks for them and the run ended without a fault, over a link without a log.
    counts: Told,
    // Whether the log isn't whole, because a write of it failed.
    is_log_lost: bool,
}

impl Outcome {
    /// The outcome of no run: all its texts are empty.
    pub fn new(alloc: Global) -> Outcome {
        Outcome {
            put: Told::new(alloc),
            ends: Told::new(alloc),
            end: Told::new(alloc),
            log: Told::new(alloc),
            counts: Told::new(alloc),
            is_log_lost: false,
        }
    }

    /// Takes what a run put on its link, `script`, what it wrote into its book, and its fault, if it ended with one.
    pub fn take(&mut self, script: &Script<'_>, book: &WordBook, fault: Option<RunFault>) {
        tell_words(script.text.as_slice(), &mut self.put);
        tell_words(book.text.as_slice(), &mut self.ends);
        tell_end(fault, script.gone, &mut self.end);
    }

    // Takes the counts of a run, unless the run ended with a fault: of answered, late, skipped and missed commands, and how many
    // times a chain was sent again.
    fn take_counts(&mut self, end: &Result<Tally, RunFault>) {
        let Ok(tally) = end else { return };
        self.counts.titled("answered ", &tally.answered);
        self.counts.titled(" late ", &tally.late);
        self.counts.titled(" skipped ", &tally.skipped);
        self.counts.titled(" missed ", &tally.missed);
        self.counts.titled(" retried ", &tally.retried);
    }

    /// Takes the bytes of the log; `is_lost`: they aren't all of it, because a write of the log failed.
    pub fn take_log(&mut self, log: &[u8], is_lost: bool) {
        self.is_log_lost = is_lost;
        tell_words(log, &mut self.log);
    }

    /// Whether the log isn't whole, as `take_log` was told.
    pub fn is_log_lost(&self) -> bool {
        self.is_log_lost
    }

    /// Reports the log as `lost`, if the log of `whole` begins with it; else leaves it as it is.
    pub fn tell_lost_log(&mut self, whole: &Outcome) {
        if whole.log.as_bytes().starts_with(self.log.as_bytes()) {
            self.log.clear();
            self.log.text("lost");
        }
    }

    // Reports, in place of what was put on the link, where a word isn't known (`what`): `with`, also for a word of a row or of
    // `each`; `steps`, also for one of `then`, or a step without room; or `tasks`.
    fn tell_unknown(&mut self, what: &str) {
        self.put.text("a word isn't known: ");
        self.put.text(what);
    }

    /// Reports what came otherwise than the case has it.
    pub fn compare(&self, case: &Case<'_>, wrong: &mut Told) {
        case.compare_told("put", &self.put, wrong);
        case.compare_told("ends", &self.ends, wrong);
        case.compare_told("end", &self.end, wrong);
        case.compare_told("log", &self.log, wrong);
        case.compare_told("counts", &self.counts, wrong);
    }

    /// Reports what was put and written, and the fault, as a row has them.
    pub fn tell_row(&self, row: &mut Told) {
        tell_part(": ", &self.put, row);
        tell_part(" | ", &self.ends, row);
        tell_part(" | ", &self.end, row);
    }
}

impl<'a> Run<'a> {
    /// Runs the station as the case sets it, with the setting words of `word` more, which may be empty. If a word isn't known,
    /// nothing is run, and the outcome says so.
    pub fn play(&self, word: &str, outcome: &mut Outcome) {
        let mut setting = self.setting;
        if setting.set_all(word) && self.is_known {
            self.play_set(&setting, outcome);
        } else {
            outcome.tell_unknown("with");
        }
    }

    // Runs the station with this setting. If a word of the steps isn't known, or memory runs out for a step, nothing is run, and
    // the outcome says that a word isn't known.
    fn play_set(&self, setting: &Setting, outcome: &mut Outcome) {
        let mut steps = Vec::new(self.alloc);
        if self.push_steps(&mut steps, setting) {
            self.play_steps(steps.as_slice(), setting, outcome);
        } else {
            outcome.tell_unknown("steps");
        }
    }

    // Adds the first `setting.first_steps` of the steps, and those of `then` after them. Returns whether each word is known, and
    // each step has room.
    fn push_steps(&self, steps: &mut Vec<Step<'a>>, setting: &Setting) -> bool {
        let are_known = push_words(steps, text_of(self.steps), setting.split);
        steps.truncate(usize::try_from(setting.first_steps).unwrap_or(usize::MAX));
        push_words(steps, text_of(self.then), setting.split) && are_known
    }

    // Reads the station's text, and runs the station with its tasks over these steps. If the text can't be read, or memory runs
    // out for its tasks, nothing is run, and the outcome says that a word isn't known.
    fn play_steps(&self, steps: &[Step<'_>], setting: &Setting, outcome: &mut Outcome) {
        match read_tasks(self.alloc, self.tasks, setting.plan.deadline, false) {
            Ok(all) => {
                let tasks = all.tasks.as_slice();
                let scene = Scene {
                    alloc: self.alloc,
                    tasks,
                    steps,
                    setting,
                };
                self.play_scene(scene, outcome);
            }
            Err(_) => outcome.tell_unknown("tasks"),
        }
    }

    // Runs the station over a link with a log if the case has one, else over one without. If there is no task, a link with a log
    // is only read, so that its log has what comes.
    fn play_scene(&self, scene: Scene<'_>, outcome: &mut Outcome) {
        if !self.is_logged {
            return play_unlogged(scene, outcome);
        }
        if scene.tasks.is_empty() {
            return read_logged(scene, outcome);
        }
        play_logged(scene, outcome)
    }
}

// Runs the station over a link without a log, and takes what came of it into `outcome`; with its counts if the setting asks for
// them, and the run ended without a fault.
fn play_unlogged(scene: Scene<'_>, outcome: &mut Outcome) {
    let mut link = Telling::new(Script::new(scene.steps, scene.setting));
    let (book, result) = run_scene(&mut link, scene);
    if scene.setting.counted {
        outcome.take_counts(&result);
    }
    outcome.take(&link.link, &book, result.err());
}

/// Runs the station of a scene over a link that records its acts. Returns the book that it wrote, and what the run came to: the fault
/// `Memory` if memory ran out before it.
pub fn run_scene<L: Link>(
    link: &mut Telling<L>,
    scene: Scene<'_>,
) -> (WordBook, Result<Tally, RunFault>) {
    let setting = scene.setting;
    let mut book = WordBook::new(setting);
    let Ok(watches) = Watches::of(scene.alloc, setting.plan.setup, scene.tasks) else {
        return (book, Err(RunFault::Memory));
    };
    let plan = &setting.plan;
    let result = run_telling(link, &mut book, scene.tasks, plan, watches, setting.turns);
    (book, result)
}

// Appends `words` to `told`, without the blank after the last one.
fn tell_words(words: &[u8], told: &mut Told) {
    told.bytes(words.strip_suffix(b" ").unwrap_or(words));
}

// Reports the fault, if there is one. A cut write whose fault names the right number of bytes (`gone`) is reported with the
// word `kept` for that number, so that what a case has holds for each number.
fn tell_end(fault: Option<RunFault>, gone: usize, end: &mut Told) {
    match fault {
        None => {}
        Some(RunFault::Write { replies, bytes }) if bytes == gone => {
            end.titled("fault 43 reply ", &replies);
            end.text(" byte kept");
        }
        Some(fault) => end.display(&fault),
    }
}

// Reports a part of a row after `mark`: its text, or `none` if that is empty. If memory ran out for the part, the row counts as
// lacking, too, so that it equals no row of a case.
fn tell_part(mark: &str, part: &Told, row: &mut Told) {
    row.text(mark);
    row.text_if(part.as_bytes().is_empty(), "none");
    row.append(part);
}
