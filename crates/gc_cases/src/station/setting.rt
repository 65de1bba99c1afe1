//! How a case's run is set, by words.

use crate::station::words::number;
use gc_station::Plan;

/// How a run is set.
#[derive(Clone, Copy)]
pub struct Setting {
    /// The plan of the station's run.
    pub plan: Plan,
    /// How many turns the run may take.
    pub turns: u64,
    /// How many of the first attempts to connect fail.
    pub failing_opens: u64,
    /// The put that is cut, counted from 1; 0: none.
    pub cut_put: u64,
    /// How many bytes of a put that is cut are sent, at most all but its last.
    pub sent_of_cut: u64,
    /// The call of the link that fails, counted from 0; `close` isn't counted.
    pub failing_call: u64,
    /// The write of the book that fails, counted from 1; 0: none.
    pub failing_write: u64,
    /// How many syncs of the book succeed; the ones after these fail.
    pub good_syncs: u64,
    /// How many writes the sink of the log takes.
    pub log_writes: u64,
    /// How many of the steps are made before those of `then`.
    pub first_steps: u64,
    /// After how many bytes the line of a step `<<` is cut in two.
    pub split: u64,
    /// From when on the end of the run is asked for, in milliseconds since the start.
    pub until: u64,
    /// How many milliseconds the clock of time stamps is ahead of `TIME_AT_START` at the start.
    pub ahead: u64,
    /// Whether the clock can't be read by itself. After a read of the link there is a moment all the same.
    pub blind: bool,
    /// Whether what is put is reported with its time since the start, and of a request its id alone.
    pub timed: bool,
    /// Whether a record is reported with the moment at which its request was sent.
    pub stamped: bool,
    /// Whether the counts of a run are reported, if it ends without a fault, and over a link without a log.
    pub counted: bool,
    /// How many of the text's values of files are there: each is 20.5. The ones after these never are.
    pub values: usize,
    /// From when on none of them is there, in milliseconds since the start.
    pub gone: u64,
    /// From when on all are there again, in milliseconds since the start.
    pub back: u64,
    /// When the file is changed by which somebody asks for a cycle, in milliseconds since the start. Before, there is none.
    pub asked: u64,
}

impl Setting {
    /// A setting by which nothing fails: one cycle of one request at a time, a deadline of 100 milliseconds, so that a line
    /// counts as dead after 200, a quiet time of 10 milliseconds, one retry, and at most 300 turns.
    pub fn new() -> Setting {
        Setting {
            plan: Plan {
                width: 1,
                deadline: 100,
                every: 0,
                first: u64::MAX,
                at: None,
                cycles: 1,
                quiet: 10,
                retries: 1,
                setup: 0,
                stale: 0,
                watched: false,
            },
            turns: 300,
            failing_opens: 0,
            cut_put: 0,
            sent_of_cut: 0,
            failing_call: u64::MAX,
            failing_write: 0,
            good_syncs: u64::MAX,
            log_writes: u64::MAX,
            first_steps: u64::MAX,
            split: 0,
            until: u64::MAX,
            ahead: 0,
            blind: false,
            timed: false,
            stamped: false,
            counted: false,
            values: 0,
            gone: u64::MAX,
            back: u64::MAX,
            asked: u64::MAX,
        }
    }

    /// Sets what these words say, each `KEY=NUMBER` or a key alone, with spaces between. Returns whether each is known
    /// (`set_word`); one that isn't sets nothing.
    pub fn set_all(&mut self, words: &str) -> bool {
        let mut are_known = true;
        for word in words.split(' ') {
            if word.is_empty() {
                continue;
            }
            are_known &= self.set_word(word);
        }
        are_known
    }

    // Sets what one word says, `KEY=NUMBER`, or a key alone, which stands for `KEY=1`. Returns whether the key is known, and the
    // number can be read and fits it.
    fn set_word(&mut self, word: &str) -> bool {
        let (key, digits) = word.split_once('=').unwrap_or((word, "1"));
        let Some(value) = number(digits) else {
            return false;
        };
        self.set_plan(key, value).is_some() || self.set_other(key, value)
    }

    // Sets a value of the plan. `None`: the key isn't one of the plan's, or the number is too great for the value, and nothing is
    // set.
    fn set_plan(&mut self, key: &str, value: u64) -> Option<()> {
        match key {
            "width" => self.plan.width = u8::try_from(value).ok()?,
            "deadline" => self.plan.deadline = value,
            "every" => self.plan.every = value,
            "due" => self.plan.first = value,
            "at" => self.plan.at = Some(value),
            "cycles" => self.plan.cycles = value,
            "quiet" => self.plan.quiet = value,
            "stale" => self.plan.stale = value,
            "watched" => self.plan.watched = value > 0,
            "retries" => self.plan.retries = u32::try_from(value).ok()?,
            "setup" => self.plan.setup = usize::try_from(value).ok()?,
            _ => return None,
        }
        Some(())
    }

    // Sets a value of the link, the book, the log, the steps or the report, and returns whether the key is one of theirs.
    fn set_other(&mut self, key: &str, value: u64) -> bool {
        match key {
            "turns" => self.turns = value,
            "shut" => self.failing_opens = value,
            "cut" => self.cut_put = value,
            "kept" => self.sent_of_cut = value,
            "failing" => self.failing_call = value,
            "fails" => self.failing_write = value,
            "keeps" => self.good_syncs = value,
            "writes" => self.log_writes = value,
            "first" => self.first_steps = value,
            "split" => self.split = value,
            "until" => self.until = value,
            "ahead" => self.ahead = value,
            "stamped" => self.stamped = value > 0,
            "blind" => self.blind = value > 0,
            "timed" => self.timed = value > 0,
            "counted" => self.counted = value > 0,
            "values" => self.values = value as usize,
            "gone" => self.gone = value,
            "back" => self.back = value,
            "asked" => self.asked = value,
            _ => return false,
        }
        true
    }
}
