//! A station's text, read from a source, measured over a link, and its records written into a sink, all in one form.

ghost use Rattle.std.specs.Prelude.{◌≡◌, ◌+◌, ◌≤◌, length, map};
ghost use Rattle.gc_measuring.specs.Labels.{labels_of, labels_seen};
ghost use Rattle.gc_measuring.specs.Measuring.{text_in, front_text, survey_of, RunsSurvey, MeasuresText, IsUnusedIfRefused, AllLast};
ghost use Rattle.gc_measuring.specs.Stops.{with_fault};
ghost use Rattle.gc_measuring.specs.Telling.{ports_seen};
ghost use Rattle.gc_lines.specs.Ports.{FailsWith, TakesText};
ghost use Rattle.gc_station.specs.Runs.{FailsAtOutput, LastUnlessFailed};
ghost use Rattle.gc_station.specs.Watching.{places_of, watched_of};
ghost use Rattle.gc_texts.specs.Tasks.{tasks_seen};
ghost use Rattle.gc_texts.specs.declared.text.TheConstants.{TEXT_LIMIT};

use crate::labels::Labels;
use crate::plan::{commands_per_cycle, plan_of};
use crate::reporter::Reporter;
use crate::row::write_station_row;
use crate::sendings::{report_disagreeing, report_long_chains};
use crate::spot::Spot;
use crate::stop::Stop;
use crate::task_text::{read_task_text, watches_of};
use crate::unanswered::Unanswered;
use crate::values::report_braces;
use gc_lines::{Durable, PortFailed, Source};
use gc_links::{Link, Moment};
use gc_logs::{Noticed, Streams, report_odd_angles, report_unasked};
use gc_options::Layout;
use gc_rows::write_head;
use gc_station::{Book, Kept, LinkHealth, Tally, Watch, Watches, run_station};
use gc_texts::{Ending, FieldName, RunFault, Stamp, Task, Tasks, Wish};
use std::alloc::Global;
use std::cell::Cell;
use std::io::Write;

/// Reads the whole text of the input, writes what comes before the records on the output, unless `spot.station.layout.headed`
/// says that it is there already, and measures the commands over a link by the settings of `spot`, in at most `max_turns` acts.
/// What was seen of link and output at each act is noted in `kept`. The streams are handed back, with how the run ended.
///
/// Before the link is used or anything is written, `Text` comes with `Read` if the input failed, with `InputTooLong` if it gave
/// more than 65,536 bytes, and with `Memory` if memory was refused, `Line` at the first faulty line, and `Empty` if the text
/// has no command of a cycle. `Run` comes with the faults of [`run_station`], and with `Output` if the output failed: before
/// the records, and then the link wasn't used, or when records were written or synced.
///
/// The messages get at the start what is odd about the text: each angle of a positioning that lies outside one turn, and each
/// target of which the text says where it is, though no command measures its direction, and each command after `raw` whose parameters look like
/// values of files. If somebody watches (`choice.watch`), the
/// messages then get the number of a cycle's commands and the place, signs of life, each kind at most once a minute (the status
/// line of a terminal once a second), and what `spot` has noticed as odd about the line. In any case they get what `spot` has
/// noticed of the files, and, if the run ends because it is stale, of which command, and since when, no answer of a good quality came.
/// If the messages can't be written, the station measures on.
pub fn run_station_text<L: Link, S: Source, K: Durable, E: Write>(
    alloc: Global,
    link: &mut L,
    spot: Spot<'_>,
    mut streams: Streams<S, K, E>,
    max_turns: u64,
    kept: &mut Kept,
) -> (Streams<S, K, E>, Result<Tally, Stop>)
    // The text was refused; or the output failed before the records; or the text's commands were measured, and the link, the
    // output and the run's end are as the model has them. At each act all that the acts before it settled was written; and
    // it lasted before anything was sent, read, opened or closed.
    ensures measures { MeasuresText spot.entry.station max_turns
        (ports_seen S.Source K.Sink E.contents streams (L.acts link.old) kept.old.turns)
        (ports_seen S.Source K.Sink E.contents result.0 (L.acts link.new) kept.new.turns)
        result.1 }

    // If the fault is `Output` the output has failed; otherwise whether it has failed is as before.
    ensures output { FailsAtOutput (K.failed streams.output) (K.failed result.0.output) (with_fault result.1) }

    // Unless the text was refused or the output failed, all that was written outlasts what the output is meant to outlast.
    ensures is_durable { AllLast (K.is_durable result.0.output) result.1 }

    // At most 65,537 reads of the input were answered.
    ensures bounded { S.reads result.0.input ≤ S.reads streams.input + (TEXT_LIMIT + 1) }

    // If the text was refused nothing was done over the link, and nothing written.
    ensures untouched { IsUnusedIfRefused
        (ports_seen S.Source K.Sink E.contents streams (L.acts link.old) kept.old.turns)
        (ports_seen S.Source K.Sink E.contents result.0 (L.acts link.new) kept.new.turns)
        result.1 }
{
    let (tasks, text) = match read_task_text(alloc, &mut streams.input, &spot.station.choice) {
        Ok(read) => read,
        Err(stop) => return (streams, Err(stop)),
    };
    let Ok(watches) = watches_of(alloc, &tasks) else {
        return (streams, Err(Stop::Text(RunFault::Memory)));
    };
    let Ok(()) = write_front(
        &mut streams.output,
        spot.station.layout,
        tasks.columns.as_slice(),
    ) else {
        return (streams, Err(Stop::Run(RunFault::Output)));
    };
    let _ = report_odd_angles(text.as_slice(), &tasks, &mut streams.messages);
    let _ = report_unasked(&tasks, &mut streams.messages);
    let _ = report_long_chains(&tasks, &mut streams.messages);
    let _ = report_disagreeing(&tasks, &mut streams.messages);
    let _ = report_braces(&tasks, &mut streams.messages);
    // A run may take months: the memory of the text is given back first.
    drop(text);
    let (streams, end) = measure(link, tasks, watches, max_turns, spot, streams, kept);
    match end {
        Ok(tally) => (streams, Ok(tally)),
        Err(fault) => (streams, Err(Stop::Run(fault))),
    }
}

// Measures these tasks, of which `watches` are watched, over a link by the settings of `spot`, in at most `max_turns` acts, and writes
// their records on the output. The streams are handed back, with how the run ended. What was seen of link and output at each act is noted
// in `kept`.
fn measure<L: Link, S: Source, K: Durable, E: Write>(
    link: &mut L,
    tasks: Tasks,
    watches: Watches,
    max_turns: u64,
    spot: Spot<'_>,
    streams: Streams<S, K, E>,
    kept: &mut Kept,
) -> (Streams<S, K, E>, Result<Tally, RunFault>)
    requires watches { places_of watches ≡ watched_of tasks.setup tasks.tasks.items }
    requires few { length tasks.columns.items ≤ 64 }
    ensures runs { RunsSurvey (survey_of spot.entry.station max_turns (tasks_seen tasks))
        (ports_seen S.Source K.Sink E.contents streams (L.acts link.old) kept.old.turns)
        (ports_seen S.Source K.Sink E.contents result.0 (L.acts link.new) kept.new.turns)
        result.1 }
    ensures output { FailsAtOutput (K.failed streams.output) (K.failed result.0.output) result.1 }
    ensures is_durable { LastUnlessFailed (K.is_durable result.0.output) result.1 }
    ensures input { result.0.input ≡ streams.input }
{
    let Streams {
        input,
        output,
        messages,
    } = streams;
    let commands = commands_per_cycle(&tasks);
    let Tasks {
        setup,
        tasks,
        names,
        nears: _,
        unwatched: _,
        described,
        columns,
    } = tasks;
    let plan = plan_of(
        spot.station.choice,
        spot.station.layout.run,
        setup,
        tasks.as_slice(),
    );
    let mut reporter = Reporter::new(spot.station.choice.watch, spot.station.layout.run, messages);
    reporter.begin(spot.site.place, commands);
    let mut records = Records {
        sink: output,
        layout: spot.station.layout,
        labels: Labels {
            names,
            described,
            columns,
        },
        noticed: spot.noticed,
        began: spot.station.layout.run,
        unanswered: None,
        reporter,
    };
    let end = run_station(
        link,
        &mut records,
        tasks.as_slice(),
        &plan,
        watches,
        max_turns,
        kept,
    );
    let (output, messages) = records.end(setup, tasks.as_slice());
    let streams = Streams {
        input,
        output,
        messages,
    };
    (streams, end)
}

// Writes what comes before the records, with these columns beside those of the table's quantities, unless the sink has it already
// (`layout.headed`). `Err(n)`: the sink took the first n bytes of it, which aren't all, and failed.
fn write_front<K: Durable>(sink: &mut K, layout: Layout, columns: &[FieldName]) -> Result<(), usize>
    requires { length columns.now ≤ 64 }
    ensures failed { FailsWith result (K.failed sink.old) (K.failed sink.new) }
    ensures took { TakesText (K.taken sink.old) (K.taken sink.new) result (front_text layout (map (λ n. n.items) columns.now)) }
{
    if layout.headed {
        return Ok(());
    }
    write_head(sink, layout.form, columns)
}

// A book that writes records in one layout into a sink, and reports on the messages what the station does.
struct Records<'a, K, E> {
    sink: K,
    layout: Layout,
    // What the rows show of the text.
    labels: Labels,
    // What was noticed of the line and of the station's files.
    noticed: &'a Cell<Noticed>,
    // When the run began, in milliseconds since 1970.
    began: u64,
    // The watched command by which the run is stale, once it is.
    unanswered: Option<Watch>,
    reporter: Reporter<E>,
}

impl<'a, K, E: Write> Records<'a, K, E> {
    // Ends the reporter at the end of a run over these tasks, of which the first `setup` are the setup, as `Reporter::end` says; if the
    // run is stale, that reports by which command. The sink and the messages are handed back.
    fn end(self, setup: usize, tasks: &[Task]) -> (K, E)
        ensures { result.0 ≡ self.entry.sink }
    {
        let Records {
            sink,
            layout: _,
            labels,
            noticed: _,
            began,
            unanswered,
            reporter,
        } = self;
        let stale = match unanswered {
            Some(watch) => Unanswered::of(watch, began, setup, tasks),
            None => None,
        };
        (sink, reporter.end(labels.names.as_slice(), stale))
    }
}

impl<'a, K: Durable, E: Write> Book for Records<'a, K, E> {
    ghost text = { λ book. text_in book.layout (labels_seen book.labels) };

    ghost taken = { λ book. K.taken book.sink };

    ghost failed = { λ book. K.failed book.sink };

    ghost is_durable = { λ book. K.is_durable book.sink };

    // Writes a record. The signs of life count it, also if the record can't be written.
    fn write(
        &mut self,
        stamp: Stamp,
        command: &Wish,
        ending: Ending<'_>,
    ) -> Result<(), PortFailed> {
        self.reporter.count(stamp, command, ending);
        write_station_row(
            &mut self.sink,
            self.layout,
            &self.labels,
            stamp,
            command,
            ending,
        )
    }

    // Syncs the sink: if that succeeds, what was written outlasts all that the sink is meant to outlast.
    fn sync(&mut self) -> Result<(), PortFailed> {
        self.sink.sync()
    }

    // Writes the messages that are due, by the health of the link and by what was noticed.
    fn sees(&mut self, health: LinkHealth, moment: Moment) {
        self.reporter.report(
            self.noticed.get(),
            health,
            moment,
            self.labels.names.as_slice(),
        );
    }

    // Notes the watched command by which the run is stale, for its end.
    fn unanswered(&mut self, watch: Watch) {
        self.unanswered = Some(watch);
    }

    // Notes that a line was altered, for the messages.
    fn doubts(&mut self, ended: usize) {
        self.reporter.doubt(ended);
    }

    // Reports on the messages that this cycle wasn't done when the next was due, if a line of this kind may be written now.
    fn overran(&mut self, cycle: u64) {
        self.reporter.report_overrun(cycle);
    }
}
