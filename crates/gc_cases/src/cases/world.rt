//! Rows of the world: events as a schedule has them, and what they lead to on the simulator. What a row with an arrow comes to is
//! appended to `came`.

use crate::cases::counting::Counting;
use crate::cases::setup::width_of;
use crate::cases::single_bytes::in_single_bytes;
use gc_catalogue::Call;
use gc_client::{Client, Outcome, Ring, Settlement, Slots, Window};
use gc_filters::read_schedule;
use gc_instrument::Instrument;
use gc_probes::{Case, Player, Row, Rows, Told, play_rows};
use gc_world::{Event, Report, play_width};
use std::alloc::{AllocError, Global};
use std::cell::RefCell;
use std::{fs, io};

// A part of a report.
#[derive(Clone, Copy)]
enum Part {
    // The numbers of the executed requests.
    Executed,
    // How many requests were executed before each restart of the instrument.
    Starts,
    // The id of the instrument's stored reply.
    Kept,
    // Whether each direction is at the start of a line.
    Lines,
}

// What a row asks for of what the events lead to.
#[derive(Clone, Copy)]
enum Wanted {
    // All of it, over each window.
    End,
    // A part of the report.
    Part(Part),
    // How many sends were accepted, and how many requests waited at each push into the window.
    Pushes,
}

// What a word asks for. `None`: it asks for nothing.
fn wanted_by(word: &str) -> Option<Wanted> {
    match word {
        "end" => Some(Wanted::End),
        "executed" => Some(Wanted::Part(Part::Executed)),
        "starts" => Some(Wanted::Part(Part::Starts)),
        "kept" => Some(Wanted::Part(Part::Kept)),
        "lines" => Some(Wanted::Part(Part::Lines)),
        "pushes" => Some(Wanted::Pushes),
        _ => None,
    }
}

/// The world that the rows of a case have set up so far: its events, its window and its simulator.
#[derive(Drop)]
pub struct WorldRows {
    /// Where playing takes memory.
    pub alloc: Global,
    // The events, as the text of a schedule.
    text: Told,
    // The width of the window, as the case says it. `width_of` says which ones count.
    width: u8,
    // The precision of the simulator, in digits after the decimal point, as the case says it. `instrument` says which ones count.
    precision: i16,
}

impl WorldRows {
    /// A world without events, with a window of 7 requests and a simulator with a precision of 15 digits.
    pub fn new(alloc: Global) -> WorldRows {
        WorldRows {
            alloc,
            text: Told::new(alloc),
            width: 7,
            precision: 15,
        }
    }

    // Adds the line of an event to the schedule: `word` is its kind, and `what` the rest of its line.
    fn add_event(&mut self, word: &str, what: &str) {
        self.text.text(word);
        self.text.text(" ");
        self.text.text(what);
        self.text.text("\n");
    }

    // The simulator with the case's precision; with its own where it refuses that one, because it isn't 0 to 15.
    fn instrument(&self) -> Instrument {
        let mut instrument = Instrument::simulator();
        let _ = instrument.execute(&Call::SetPrecision(self.precision));
        instrument
    }

    /// The report and the client to which these events lead over this window, with the case's width and precision. `Err`: memory
    /// ran out.
    pub fn play_events<W: Window<Asked = Call>>(
        &self,
        window: W,
        events: &[Event],
    ) -> Result<(Report<Instrument>, Client<W>), AllocError> {
        play_width(
            self.alloc,
            self.instrument(),
            window,
            width_of(self.width),
            events,
        )
    }

    // What events lead to over this window, as `append_report` has it. `Err`: memory ran out.
    fn told_over<W: Window<Asked = Call>>(
        &self,
        window: W,
        events: &[Event],
    ) -> Result<Told, AllocError> {
        let (report, client) = self.play_events(window, events)?;
        let mut told = Told::new(self.alloc);
        append_report(&report, &client, &mut told);
        Ok(told)
    }

    // Appends what events lead to over places; and what they lead to over a ring, and with each delivery in single bytes, where
    // that differs. `Err`: memory ran out, and nothing was appended.
    fn append_end(&self, events: &[Event], came: &mut Told) -> Result<(), AllocError> {
        let places = self.told_over(Slots::new(), events)?;
        let ring = self.told_over(Ring::new(self.alloc)?, events)?;
        let single = in_single_bytes(self, events)?;
        let pieces = self.told_over(Slots::new(), single.as_slice())?;
        came.append(&places);
        append_difference(&places, ", and over a ring ", &ring, came);
        append_difference(&places, ", and in single bytes ", &pieces, came);
        Ok(())
    }

    // Plays events over a window that notes its pushes, and appends how many sends were accepted, and how many requests waited at
    // each push. If the window were filled only once all is played, requests that were settled wouldn't be pushed. `Err`: memory ran
    // out, and nothing was appended.
    fn append_pushes(&self, events: &[Event], came: &mut Told) -> Result<(), AllocError> {
        let notes = RefCell::new(Told::new(self.alloc));
        let (report, _) = self.play_events(Counting::new(&notes), events)?;
        came.counted(&report.sent.len(), " accepted, pushed at");
        match notes.try_borrow() {
            Ok(notes) => came.append(&notes),
            Err(_) => came.lack(),
        }
        Ok(())
    }

    // Plays events, and appends what is wanted of what they lead to: all of it (`append_end`), a part of the report over places,
    // or the pushes (`append_pushes`). `Err`: memory ran out, and nothing was appended.
    fn append_wanted_of(
        &self,
        wanted: Wanted,
        events: &[Event],
        came: &mut Told,
    ) -> Result<(), AllocError> {
        match wanted {
            Wanted::End => self.append_end(events, came),
            Wanted::Part(part) => {
                let (report, _) = self.play_events(Slots::new(), events)?;
                append_part(&report, part, came);
                Ok(())
            }
            Wanted::Pushes => self.append_pushes(events, came),
        }
    }

    // Plays the events so far, and appends what is wanted of what they lead to; or `no schedule` if their lines don't read as
    // one, or memory ran out for the list of events. If memory had run out for a line, or the case's schedule couldn't be read,
    // or memory runs out for what the events lead to, `came` notes that it lacks a part.
    fn append_wanted(&self, wanted: Wanted, came: &mut Told) {
        if self.text.is_lacking() {
            came.lack();
        }
        let Ok(events) = read_schedule(self.alloc, self.text.as_bytes()) else {
            return came.text("no schedule");
        };
        if self
            .append_wanted_of(wanted, events.as_slice(), came)
            .is_err()
        {
            came.lack();
        }
    }
}

// Appends the words `way`, and after them `other`, if `other` isn't the same text as `told`, or lacks a part.
fn append_difference(told: &Told, way: &str, other: &Told, came: &mut Told) {
    if other.is_lacking() || other.as_bytes() != told.as_bytes() {
        came.text(way);
        came.append(other);
    }
}

// Appends a part of a report.
fn append_part(report: &Report<Instrument>, part: Part, came: &mut Told) {
    match part {
        Part::Executed => came.debug(&report.executed.as_slice()),
        Part::Starts => came.debug(&report.starts.as_slice()),
        Part::Kept => came.debug(&report.instrument.kept_id()),
        Part::Lines => append_at_start(report, came),
    }
}

// Appends whether each direction is at the start of a line.
fn append_at_start(report: &Report<Instrument>, came: &mut Told) {
    came.titled("at start: up ", &report.up.at_start());
    came.titled(", down ", &report.down.at_start());
}

impl Rows for WorldRows {
    // Adds an event, sets the width or the precision, or appends what the events so far lead to; or appends that the word is
    // unknown.
    fn play(&mut self, row: Row<'_>, came: &mut Told) {
        if let Some(wanted) = wanted_by(row.word) {
            self.append_wanted(wanted, came);
            return;
        }
        match row.word {
            "send" | "up" | "down" | "expire" | "restart" => self.add_event(row.word, row.what),
            "width" => self.width = came.number_in(row.what),
            "precision" => self.precision = came.number_in(row.what),
            _ => came.text("an unknown word"),
        }
    }
}

// Appends the settlements, each with its number, the counts of the report, how many requests the client has outstanding, and its
// next id.
fn append_report<W: Window<Asked = Call>>(
    report: &Report<Instrument>,
    client: &Client<W>,
    came: &mut Told,
) {
    append_settled(report.settled.as_slice(), came);
    append_made(report, came);
    append_refused(report, came);
    came.titled("; ", &client.waiting());
    came.titled(" wait, next ", &client.next_id());
}

// Appends each settlement: its number, counted from 0, its target and its outcome.
fn append_settled(settled: &[Settlement<Call>], came: &mut Told) {
    for (m, settlement) in settled.iter().enumerate() {
        came.counted(&m, " ");
        came.counted(&settlement.target, " ");
        append_outcome(&settlement.outcome, came);
        came.text(" / ");
    }
}

// Appends an outcome: its word, and the line of an answer.
fn append_outcome(outcome: &Outcome, came: &mut Told) {
    match outcome {
        Outcome::Answered(_, line) => {
            came.text("answered ");
            came.bytes(line.as_slice());
        }
        Outcome::Late => came.text("late"),
        Outcome::Lost => came.text("lost"),
    }
}

// Appends how many requests were sent and executed, how many replies were made, and how many requests were settled.
fn append_made(report: &Report<Instrument>, came: &mut Told) {
    came.titled("sent ", &report.sent.len());
    came.titled(" executed ", &report.executed.len());
    came.titled(" made ", &report.made.len());
    came.titled(" settled ", &report.settled.len());
}

// Appends how many sends were refused, and how many events weren't possible.
fn append_refused(report: &Report<Instrument>, came: &mut Told) {
    came.titled(" refused ", &report.refused_sends);
    came.titled(" idle ", &report.idle_events);
}

/// Plays `.world`: rows of the world, after the events of a schedule if the case names one.
pub struct World;

impl Player for World {
    // Plays the rows of a case, after the events of the schedule that it names under `schedule`, if it names one.
    fn play(&self, rt: &HostRuntime, case: &Case<'_>, wrong: &mut Told) -> io::Result<()> {
        let mut world = WorldRows::new(rt.alloc());
        add_events(rt, case.value("schedule"), &mut world.text);
        play_rows(case, &mut world, wrong);
        Ok(())
    }
}

// Adds the lines of the schedule in the file of this name to `text`, as `read_events` does; nothing if the name is empty, as it
// is where a case names no schedule.
fn add_events(rt: &HostRuntime, name: &str, text: &mut Told) {
    if !name.is_empty() {
        read_events(rt, name, text);
    }
}

// Adds the lines of the schedule in the file of this name to `text`. If the file can't be read or isn't UTF-8, or memory runs out
// for its lines, `text` notes that it lacks a part.
fn read_events(rt: &HostRuntime, name: &str, text: &mut Told) {
    match fs::read_to_string(rt, name) {
        Ok(events) => text.text(events.as_str()),
        Err(_) => text.lack(),
    }
}
