//! Signs of life: what a station reports of itself while it runs. No record and no request depends on them.

ghost use Rattle.std.specs.Prelude.{◌≡◌};
ghost use Rattle.gc_station.specs.Tallies.{counted};
ghost use Rattle.gc_texts.specs.Endings.{ending_seen};

use crate::describing::text_of;
use crate::odd::tell_odd;
use crate::unwell::{Missed, SECOND, Unwell};
use crate::wanted::{Wanted, has_lasted};
use gc_links::Moment;
use gc_logs::{MINUTE, Noticed, Oddities, RateLimit, ShortText};
use gc_options::Watch;
use gc_station::{LinkHealth, Tally, is_well};
use gc_texts::{Ending, JUDGEMENTS, Name, Stamp, Wish, stamp_text};
use gc_values::no_values;
use std::io::{self, Write};

// How long a line that isn't quiet, or an answer that doesn't come, has to last before it is reported, in milliseconds. A station
// is looked at before each act, and a read takes a second at most: so the message comes within a minute, unless one of its kind
// was written in the last minute, or an act takes longer, as making a connection may.
const LASTING: u64 = 59_000;

// How many columns the status line of a terminal has at most.
const COLUMNS: usize = 79;

/// What was seen of a station, and what was reported of it.
#[derive(Clone, Copy)]
pub(crate) struct Signs {
    watch: Watch,
    // The health of the link at the last look, since when it has been the same, and when that look was, in milliseconds of the
    // clock for deadlines. Before the first look they are `Idle` and 0, and if nobody watches they stay so.
    health: LinkHealth,
    since: Moment,
    elapsed: u64,
    // Since when an answer is wanted, and how many bytes had arrived at the last look before that.
    wanted: Wanted,
    arrived: u64,
    // Whether a trouble was reported and no line yet says that it is over; and whether a command was answered since the last
    // report of a trouble, and since the last look without a connection.
    is_troubled: bool,
    answers_again: bool,
    // How many skipped commands no line has reported yet, how many of them there were after the last look, and when the first of
    // them was skipped, in milliseconds since 1970.
    skipped: u64,
    skipped_before: u64,
    skipped_since: u64,
    // The commands of cycles that weren't answered well (`None`: there are none), and those that were missed, that no line has
    // reported yet.
    unwell: Option<Unwell>,
    missed: Missed,
    // Since when the setup isn't done, in milliseconds since 1970: a command of it wasn't answered well, and no record of a
    // cycle came since.
    unprepared_since: Option<u64>,
    // The cycle of the last record that isn't one of the setup (0: there was none), how many commands ended in each way, those of
    // each attempt of a chain counted, and when the last look before the last answer was, in milliseconds of the clock for
    // deadlines (`None`: no answer came yet).
    cycle: u64,
    counts: Tally,
    last_answer: Option<u64>,
    // Whether a terminal shows its status line.
    is_shown: bool,
    // What was reported as odd about the line.
    odd: Oddities,
    // When the lines of each kind were written last.
    unconnected: RateLimit,
    connected: RateLimit,
    unquiet: RateLimit,
    unprepared: RateLimit,
    unanswered: RateLimit,
    overrun: RateLimit,
    skipping: RateLimit,
    refusing: RateLimit,
    missing: RateLimit,
    shown: RateLimit,
}

impl Signs {
    /// The signs of life of a station of which nothing was seen yet. `watch`: who watches it.
    pub(crate) fn new(watch: Watch) -> Signs {
        Signs {
            watch,
            health: LinkHealth::Idle,
            since: Moment {
                elapsed: 0,
                utc: 0,
                stops: false,
                touched: 0,
                values: no_values(),
            },
            elapsed: 0,
            wanted: Wanted::new(),
            arrived: 0,
            is_troubled: false,
            answers_again: false,
            skipped: 0,
            skipped_before: 0,
            skipped_since: 0,
            unwell: None,
            missed: Missed::none(),
            unprepared_since: None,
            cycle: 0,
            counts: Tally::new(),
            last_answer: None,
            is_shown: false,
            odd: Oddities::none(),
            unconnected: RateLimit::new(),
            connected: RateLimit::new(),
            unquiet: RateLimit::new(),
            unprepared: RateLimit::new(),
            unanswered: RateLimit::new(),
            overrun: RateLimit::new(),
            skipping: RateLimit::new(),
            refusing: RateLimit::new(),
            missing: RateLimit::new(),
            shown: RateLimit::new(),
        }
    }

    /// Whether somebody watches the station.
    pub(crate) fn is_watched(&self) -> bool {
        self.watch != Watch::Nobody
    }

    /// Counts the record of a command by its ending, and notes what it says of the run (`note`).
    pub(crate) fn count(&mut self, stamp: Stamp, command: &Wish, ending: Ending<'_>)
        ensures { self.new.counts ≡ counted (ending_seen ending.entry) self.old.counts }
    {
        self.note(stamp, ending);
        Unwell::note(&mut self.unwell, stamp, command, ending);
        self.missed.note(stamp.cycle, ending, self.elapsed);
        self.counts.count(ending);
    }

    // Notes the cycle of a record, whether a command was answered, had no answer in time, was skipped or had no value, and whether the
    // setup isn't done.
    fn note(&mut self, stamp: Stamp, ending: Ending<'_>)
        ensures { self.new.counts ≡ self.old.counts }
    {
        if stamp.cycle > 0 {
            self.cycle = stamp.cycle;
            self.unprepared_since = None;
        } else if !is_well(ending) && self.unprepared_since.is_none() {
            self.unprepared_since = Some(stamp.utc);
        }
        match ending {
            Ending::Skipped => self.note_skipped(stamp.utc),
            Ending::Late | Ending::Lost => self.wanted.lose(),
            Ending::NoValue => self.note_unsent(),
            Ending::Missed => {}
            _ => self.note_answer(),
        }
    }

    // Notes that an answer came, also one with a return code other than 0, with values that can't be read, with a direction that is
    // off target, with values that weren't expected, or in disagreement with the one before.
    fn note_answer(&mut self)
        ensures { self.new.counts ≡ self.old.counts }
    {
        self.last_answer = Some(self.elapsed);
        self.answers_again = true;
        self.wanted.hear();
    }

    // Notes that a command wasn't sent for want of a value of a file. If there is a quiet connection, on which no request is without a
    // reply, the station doesn't wait for the instrument; without one such a command is of a cycle that is abandoned, and says nothing.
    fn note_unsent(&mut self)
        ensures { self.new.counts ≡ self.old.counts }
    {
        if self.health == LinkHealth::Fine {
            self.wanted.note_unsent();
        }
    }

    // Counts a command that was skipped at `utc`, in milliseconds since 1970, for the next line on skipped commands.
    fn note_skipped(&mut self, utc: u64)
        ensures { self.new.counts ≡ self.old.counts }
    {
        if self.skipped == 0 {
            self.skipped_since = utc;
        }
        self.skipped = self.skipped.saturating_add(1);
    }

    /// Claims the writing of a line on a cycle that wasn't done when the next was due. It is granted if somebody watches, and
    /// none was written in the last minute, and then it counts as written. Returns whether it is granted.
    pub(crate) fn claim_overrun(&mut self) -> bool {
        self.is_watched() && self.overrun.claim(self.elapsed, MINUTE)
    }

    /// Takes in the health of the link, what was noticed of it and the moment, and writes the lines that are due. Targets have their
    /// names among `names`. No trouble is reported before the clock is read first (until then the moment is 0). If nobody watches
    /// it does nothing. `Err`: the messages couldn't be written, and the lines after that are left out.
    pub(crate) fn see<E: Write>(
        &mut self,
        health: LinkHealth,
        noticed: Noticed,
        moment: Moment,
        names: &[Name],
        messages: &mut E,
    ) -> io::Result<()> {
        if !self.is_watched() {
            return Ok(());
        }
        let before = self.health;
        self.note_health(health, moment);
        if moment.utc != 0 {
            self.look_for_answer(health, noticed, moment);
            self.report_troubles(before, noticed, messages)?;
        }
        self.report_unwell(names, messages)?;
        self.report_skipped_once_over(messages)?;
        self.report_missed_once_over(messages)?;
        self.show(messages)
    }

    // Notes whether an answer is wanted (`Wanted::look`), and how many bytes had arrived before it was. While the setup isn't done
    // because a command of it was refused, the station closes the connection and pauses: no answer is wanted in that pause.
    fn look_for_answer(&mut self, health: LinkHealth, noticed: Noticed, moment: Moment) {
        if self.wanted.since.is_none() {
            self.arrived = noticed.arrived;
        }
        let pauses = health == LinkHealth::Unconnected && !noticed.is_lost;
        if pauses && self.unprepared_since.is_some() {
            return;
        }
        self.wanted.look(health, moment);
    }

    // Notes the health of the link, since when it has been the same, and when it was seen.
    fn note_health(&mut self, health: LinkHealth, moment: Moment) {
        // Until the clock is read first the moment is the beginning of 1970.
        if self.health != health || self.since.utc == 0 {
            self.health = health;
            self.since = moment;
        }
        self.elapsed = moment.elapsed;
    }

    // Writes the lines on troubles that are due, each kind at most once a minute: on a missing connection, on a setup that isn't
    // done, on a line that isn't quiet, on an answer that doesn't come, and on the end of such a trouble. `before` is the health
    // of the link at the look before this one.
    fn report_troubles<E: Write>(
        &mut self,
        before: LinkHealth,
        noticed: Noticed,
        messages: &mut E,
    ) -> io::Result<()> {
        self.report_connection(before, noticed, messages)?;
        self.report_unprepared(messages)?;
        self.report_unquiet(messages)?;
        self.report_unanswered(noticed, messages)?;
        self.report_recovery(messages)
    }

    // Reports how many commands were skipped, as `report_skipped` does, unless another one was skipped since the last look.
    fn report_skipped_once_over<E: Write>(&mut self, messages: &mut E) -> io::Result<()> {
        if self.skipped == self.skipped_before {
            self.report_skipped(messages)?;
        }
        self.skipped_before = self.skipped;
        Ok(())
    }

    // Reports which cycles were missed, as `report_missed` does, once the station goes on.
    fn report_missed_once_over<E: Write>(&mut self, messages: &mut E) -> io::Result<()> {
        if self.missed.is_over(self.elapsed) {
            self.report_missed(messages)?;
        }
        Ok(())
    }

    /// Writes each thing that is odd about the line (`odd`) and wasn't at the call before; nothing if nobody watches.
    pub(crate) fn report_odd<E: Write>(
        &mut self,
        odd: Oddities,
        messages: &mut E,
    ) -> io::Result<()> {
        if !self.is_watched() || self.odd == odd {
            return Ok(());
        }
        let told = self.odd;
        self.odd = odd;
        self.clear(messages)?;
        tell_odd(told, odd, messages)
    }

    // Reports at most once a minute that there is no connection, and why the system refused the last one, if it gave a reason: if
    // the last one was lost or couldn't be made, and the health of the link at the look before this one (`before`) wasn't `Idle`.
    // If it was, a cycle has just begun, and the station makes a connection at once. Without a connection an earlier answer no
    // longer ends a trouble.
    fn report_connection<E: Write>(
        &mut self,
        before: LinkHealth,
        noticed: Noticed,
        messages: &mut E,
    ) -> io::Result<()> {
        if self.health != LinkHealth::Unconnected {
            return Ok(());
        }
        self.answers_again = false;
        if !noticed.is_lost
            || before == LinkHealth::Idle
            || !self.unconnected.claim(self.elapsed, MINUTE)
        {
            return Ok(());
        }
        self.begin_since(self.since.utc, "no connection", messages)?;
        match noticed.why {
            Some(why) => writeln!(messages, ": {why}"),
            None => writeln!(messages),
        }
    }

    // Reports at most once a minute that the setup isn't done, if a command of it wasn't answered well and no record of a cycle
    // came since.
    fn report_unprepared<E: Write>(&mut self, messages: &mut E) -> io::Result<()> {
        match self.unprepared_since {
            Some(since) if self.unprepared.claim(self.elapsed, MINUTE) => {
                self.report_since(since, "setup not done", messages)
            }
            _ => Ok(()),
        }
    }

    // Reports at most once a minute that a new connection isn't quiet, once that has lasted for `LASTING`.
    fn report_unquiet<E: Write>(&mut self, messages: &mut E) -> io::Result<()> {
        if self.health != LinkHealth::Unquiet
            || !has_lasted(self.since.elapsed, self.elapsed, LASTING)
            || !self.unquiet.claim(self.elapsed, MINUTE)
        {
            return Ok(());
        }
        self.report_since(self.since.utc, "line not quiet", messages)
    }

    // Reports at most once a minute that no answer comes, once that has lasted for `LASTING`, whatever became of connections
    // meanwhile; and how many bytes arrived since an answer is wanted, if any did and no reply was among them. From then on the want
    // is overdue, also if no line of this kind may be written yet.
    fn report_unanswered<E: Write>(
        &mut self,
        noticed: Noticed,
        messages: &mut E,
    ) -> io::Result<()> {
        let Some(since) = self.wanted.lasting(self.elapsed, LASTING) else {
            return Ok(());
        };
        self.wanted.overdue = true;
        if !self.unanswered.claim(self.elapsed, MINUTE) {
            return Ok(());
        }
        self.begin_since(since.utc, "no answer", messages)?;
        let bytes = noticed.arrived.saturating_sub(self.arrived);
        if bytes == 0 || noticed.replied > self.arrived {
            return writeln!(messages);
        }
        writeln!(messages, ": {bytes} bytes arrived, none a reply")
    }

    // Reports that `what` has lasted since `utc` (milliseconds since 1970). From then on the station counts as troubled, until a
    // line says that this is over (`report_recovery`).
    fn report_since<E: Write>(&mut self, utc: u64, what: &str, messages: &mut E) -> io::Result<()> {
        self.begin_since(utc, what, messages)?;
        writeln!(messages)
    }

    // As `report_since`, but without the end of the line.
    fn begin_since<E: Write>(&mut self, utc: u64, what: &str, messages: &mut E) -> io::Result<()> {
        self.is_troubled = true;
        self.answers_again = false;
        self.write_since(utc, what, messages)
    }

    // Writes the front of a line on what has lasted since `utc` (milliseconds since 1970), over the status line of a terminal.
    fn write_since<E: Write>(&mut self, utc: u64, what: &str, messages: &mut E) -> io::Result<()> {
        self.clear(messages)?;
        let since = stamp_text(utc);
        let since = str::from_utf8(&since).unwrap_or("");
        write!(messages, "geocom: {what} since {since}")
    }

    // Reports the end of a trouble, once a command was answered after the last report of a trouble and after the last look
    // without a connection, and unless the setup isn't done, or a line of this kind was written in the last minute.
    fn report_recovery<E: Write>(&mut self, messages: &mut E) -> io::Result<()> {
        if !self.is_troubled
            || !self.answers_again
            || self.unprepared_since.is_some()
            || !self.connected.claim(self.elapsed, MINUTE)
        {
            return Ok(());
        }
        self.is_troubled = false;
        self.clear(messages)?;
        writeln!(messages, "geocom: connected again")
    }

    // Writes how many commands were skipped that no line reported yet, if any were, and since when, unless a line of this kind
    // was written in the last minute.
    fn report_skipped<E: Write>(&mut self, messages: &mut E) -> io::Result<()> {
        if self.skipped == 0 || !self.skipping.claim(self.elapsed, MINUTE) {
            return Ok(());
        }
        let count = self.skipped;
        self.skipped = 0;
        self.write_since(self.skipped_since, "commands skipped", messages)?;
        writeln!(messages, ": {count}")
    }

    // Writes how many commands of cycles weren't answered well that no line reported yet, if any were, since when, and the last of
    // them, unless a line of this kind was written in the last minute.
    fn report_unwell<E: Write>(&mut self, names: &[Name], messages: &mut E) -> io::Result<()> {
        let Some(unwell) = self.unwell else {
            return Ok(());
        };
        if !self.refusing.claim(self.elapsed, MINUTE) {
            return Ok(());
        }
        self.unwell = None;
        self.write_since(unwell.since, "commands not answered well", messages)?;
        unwell.tell(names, messages)
    }

    // Writes which cycles were missed that no line reported yet, if any were, unless a line of this kind was written in the last
    // minute.
    fn report_missed<E: Write>(&mut self, messages: &mut E) -> io::Result<()> {
        if self.missed.is_none() || !self.missing.claim(self.elapsed, MINUTE) {
            return Ok(());
        }
        self.clear(messages)?;
        let missed = self.missed;
        self.missed = Missed::none();
        missed.tell(messages)
    }

    // Writes the status line, over the one that is shown, if somebody watches at a terminal: at most once a second. What has no
    // room in `COLUMNS` is left out.
    fn show<E: Write>(&mut self, messages: &mut E) -> io::Result<()> {
        if self.watch != Watch::Terminal || !self.shown.claim(self.elapsed, SECOND) {
            return Ok(());
        }
        self.clear(messages)?;
        self.is_shown = true;
        let mut row: ShortText<COLUMNS> = ShortText::new();
        self.show_counts(&mut row)?;
        messages.write_all(row.bytes.as_slice())
    }

    // Writes the cycle, how many commands were answered, how many of these were refused, how long ago the last answer came, and the
    // other counts; counts that are 0 are left out, but that of the answered.
    fn show_counts<E: Write>(&self, row: &mut E) -> io::Result<()> {
        let cycle = self.cycle;
        let answered = self.counts.answered;
        write!(row, "cycle {cycle}: answered {answered}")?;
        self.show_age(row)?;
        show_others(self.counts, row)
    }

    // Writes, in parentheses, how many answers were refusals, if any were, and how many seconds ago the last answer of any kind came,
    // if one did. They count from the last look before the answer, and are 0 if the clock for deadlines went back since then.
    fn show_age<E: Write>(&self, row: &mut E) -> io::Result<()> {
        let Some(moment) = self.last_answer else {
            return Ok(());
        };
        let age = self.elapsed.saturating_sub(moment) / SECOND;
        let refused = self.counts.refused;
        if refused > 0 {
            return write!(row, " (refused {refused}, last {age} s ago)");
        }
        write!(row, " (last {age} s ago)")
    }

    /// Writes at the end of a run how many commands weren't answered well or were skipped, and which cycles were missed, that no
    /// line reported yet, unless nobody watches or a line of this kind was written in the last minute, and clears the status line
    /// of a terminal. Targets have their names among `names`.
    pub(crate) fn end<E: Write>(&mut self, names: &[Name], messages: &mut E) -> io::Result<()> {
        if self.is_watched() {
            self.report_unwell(names, messages)?;
            self.report_skipped(messages)?;
            self.report_missed(messages)?;
        }
        self.clear(messages)
    }

    /// Clears the status line of a terminal, if it is shown.
    pub(crate) fn clear<E: Write>(&mut self, messages: &mut E) -> io::Result<()> {
        if !self.is_shown {
            return Ok(());
        }
        self.is_shown = false;
        write!(messages, "\r\x1b[K")
    }
}

// Writes how many commands ended in each way other than answered; counts that are 0 are left out.
fn show_others<E: Write>(counts: Tally, row: &mut E) -> io::Result<()> {
    for (name, count) in [
        ("late", counts.late),
        ("lost", counts.lost),
        ("skipped", counts.skipped),
        ("unreadable", counts.unreadable),
        ("missed", counts.missed),
    ] {
        show_count(name, count, row)?;
    }
    for judgement in JUDGEMENTS {
        show_count(text_of(judgement.word()), counts.judged.of(judgement), row)?;
    }
    Ok(())
}

// Writes one of these counts with its name, unless it is 0.
fn show_count<E: Write>(name: &str, count: u64, row: &mut E) -> io::Result<()> {
    if count == 0 {
        return Ok(());
    }
    write!(row, " {name} {count}")
}
