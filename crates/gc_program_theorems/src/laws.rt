//! What is proved of the rows of a station in the field, and of rehearsals. The functions have no effect: their contracts are the laws.

ghost use Rattle.gc_console.specs.Stations.{seeing_by};
ghost use Rattle.gc_program_theorems.specs.Damaged.{ObjectsAreOwnOrDamaged, RowsAreOwnOrDamaged, RowsByDamagedLinesAreFew, RunsInFieldAreInstances, TablesAreOwnOrDamaged};
ghost use Rattle.gc_program_theorems.specs.Lasting.{AppendsAreRuns, EachFileHasItsRows, RowsOutlastCrashes, RowsOutlastFailures};
ghost use Rattle.gc_program_theorems.specs.LastingSoFar.{LeftObjectsSoFarAreOwnOrDamaged, LeftObjectsSoFarAreTheirOwn, LeftTablesSoFarAreOwnOrDamaged, LeftTablesSoFarAreTheirOwn, RowsSoFarOutlastCrashes, RowsSoFarOutlastFailures};
ghost use Rattle.gc_program_theorems.specs.Left.{LeftObjectsAreOwnOrDamaged, LeftObjectsAreTheirOwn, LeftTablesAreOwnOrDamaged, LeftTablesAreTheirOwn};
ghost use Rattle.gc_program_theorems.specs.Nights.{NightsAreFaithful};
ghost use Rattle.gc_program_theorems.specs.Programs.{ProgramsAreFaithful, ProgramsWithoutActsWriteNoRow};
ghost use Rattle.gc_program_theorems.specs.Rehearsals.{RehearsalsAreFaithful, RehearsalsInARowAreFaithful};
ghost use Rattle.gc_program_theorems.specs.Rows.{RowsAreTheirOwn};
ghost use Rattle.gc_program_theorems.specs.RunMoments.{FileMomentsAreRunsSoFar, MomentsAreRunsSoFar, ReturnedRunsAreRunsSoFar, RunsSoFarReturn};
ghost use Rattle.gc_program_theorems.specs.SoFar.{ObjectsSoFarAreOwnOrDamaged, ObjectsSoFarAreTheirOwn, RowsSoFarAreOwnOrDamaged, RowsSoFarByDamagedLinesAreFew, TablesSoFarAreOwnOrDamaged, TablesSoFarAreTheirOwn};
ghost use Rattle.gc_program_theorems.specs.Tables.{TablesAreTheirOwn};
ghost use Rattle.gc_program_theorems.specs.Objects.{ObjectsAreTheirOwn};
ghost use Rattle.gc_program_theorems.specs.Witness.{SomeRowIsItsOwn};

use gc_console::Said;
use gc_lines::{Durable, FromReader, Sink, Source, ToWriter};
use gc_logs::{Followed, Lossy, Noting, Told};
use std::fs::File;
use std::io::{Read, Write};
use std::rt::Files;
use std::time::Clock;

/// For any instrument, and every run of a station in the field: what the station writes reads back as its records, one row or
/// object each, in order, in a table after the header. The row of a command that a reply in time ended has in its columns what
/// that reply's line says, and the instrument made that line on executing the request of that row's very cycle and place.
pub fn rows_are_their_own<State>()
    // Of the bytes that a sink took of a run, as `measure_at` and `append_at` have it: a reader of comma-separated values gives
    // the header, unless the output had it already, and the run's records as rows, one for one and in order: all; or, if the
    // output failed, maybe only the first ones, and then a part of the next one's row. Under the names of the header each row has
    // when the run began, when its record's request was sent, if it was, and when its command ended; the cycle, place and attempt;
    // the target, the target's name, the procedure and the outcome. A command ended at the moment that was read last by the act that
    // added its record: if a reply ended it, by the read that brought the reply's line; if it was missed, when its cycle was due. If the
    // command sets the clock and its request was sent, the request asked for the moment at which it was sent, cut to seconds. If a request
    // was sent, the row has its line, which an act of the run put at the moment of sending; else it has neither. If the outcome is that of
    // a reply, the row has the codes and values of a line that the instrument made on executing the request of
    // this cycle and place; if it is `answered`, the quality of the answer, and, in a table with columns for them, its quantities: those
    // of the table's procedures, and, of a procedure that the text describes, the values of that line under the names that the description
    // has for them, read by its kinds; and if it is `unreadable`, the fault for which the line's values don't read.
    ensures tables { TablesAreTheirOwn State }

    // The same of lines of JSON, where texts are bytes and numbers have 64 bits: a reader of JSON gives each line as an object,
    // whose members have under these names what a row has.
    ensures objects { ObjectsAreTheirOwn State }

    // Of each record of a run whose command a reply in time ended, however much of it was written: its row in a table reads back
    // as fields, which have under the names of the header when the run began, when the record's request was sent, and the moment of the
    // read that brought the reply's line; its cycle, place, target, the target's name, procedure and outcome; and the codes and values of
    // that line, which the instrument made on executing this very request, or the fault for which they don't read.
    ensures records { RowsAreTheirOwn State }
{}

/// At each moment of a run, whether it ever ends or not, what its sink has taken so far reads back as its records, and each row is its own. So
/// it is of a run that goes on, and of one that was killed at that moment. There is one row or object for each record, in order: for all that
/// the acts before the last one settled, and maybe for some of those that the last one settled, the last of these maybe in part. What a row
/// says, and where that comes from, is as in `rows_are_their_own`.
pub fn rows_so_far_are_their_own<State>()
    ensures tables { TablesSoFarAreTheirOwn State }
    ensures objects { ObjectsSoFarAreTheirOwn State }
{}

/// At each moment of a run over a line that damages, whether it ever ends or not, each row is by a line that is own or damaged, as
/// `rows_are_own_or_damaged` has it.
pub fn rows_so_far_are_own_or_damaged<State>()
    ensures tables { TablesSoFarAreOwnOrDamaged State }
    ensures objects { ObjectsSoFarAreOwnOrDamaged State }

    // Of each record whose command a reply in time ended, however much of it was written.
    ensures records { RowsSoFarAreOwnOrDamaged State }

    // How many of the records are of requests that were settled by lines that came damaged.
    ensures few { RowsSoFarByDamagedLinesAreFew State }
{}

/// Each moment of a run that returned is a run so far, and each run so far is one that returns, if it is given as many turns as it made acts.
/// - `moments`, `ends`: it is so of each moment of a run that returned, from its first act on, and of its end. So what is said of runs so far
///   is said of runs that returned, too.
/// - `returns`: given just as many turns as acts were made by the moment, a run makes these acts, and at most a close, and returns; and the
///   bytes that its sink takes begin with those that were taken by the moment. So what is true of each run that returns, whatever turns it
///   was given, is true of the acts and records of a run that goes on, or is killed.
pub fn moments_are_runs_so_far<R>()
    ensures moments { MomentsAreRunsSoFar }
    ensures ends { ReturnedRunsAreRunsSoFar }

    // Each moment of a run of a file that returned is a run of a file so far.
    ensures files { FileMomentsAreRunsSoFar R }

    ensures returns { RunsSoFarReturn }
{}

/// Some run meets all premises of `rows_are_their_own`. It does so with every function that gives what replies say, and its rows
/// are its own. Its synchronization goes on over a second connection, among earlier lines. In one cycle the reply to the first command
/// of a chain is lost and its request times out, so the second command is skipped; then six requests time out, a dead line is
/// connected again, and the station resynchronizes, with earlier requests and an earlier reply in flight. One cycle is missed.
/// In another both commands of the chain are answered, the instrument, which changes by itself, restarts, a request is cut, and
/// a fifth connection is made. Commands end in each of the seven ways. The rows of the five that have a reply in time are
/// written, and are their own. In each form the run is one as the contract of `measure_at` has it.
pub fn some_row_is_its_own()
    ensures { SomeRowIsItsOwn }
{}

/// Over a line that damages, each row or object is by a line that is its own, or damaged. This is of any instrument, in each stretch in
/// which damage is apart (`runs_with_damage_are_local` of gc_theorems): what the station writes reads back as its records, one row or object
/// each, in order, and the row of a command that a reply in time ended has in its columns what the line says that settled the request of
/// that row's very cycle and place. And no more rows are of requests that were settled by lines that came damaged than such lines came.
pub fn rows_are_own_or_damaged<State>()
    // Of the bytes that a sink took of a run, as `rows_are_their_own` has it.
    ensures tables { TablesAreOwnOrDamaged State }

    // Of lines of JSON.
    ensures objects { ObjectsAreOwnOrDamaged State }

    // Of each record of a run whose command a reply in time ended, however much of it was written: also of those that
    // `rows_outlast_crashes` and `rows_outlast_failures` find.
    ensures records { RowsAreOwnOrDamaged State }

    // Of a run's records, and so of its rows: how many are of requests that were settled by lines that came damaged.
    ensures few { RowsByDamagedLinesAreFew State }
{}

/// Each run of `rows_are_their_own` is one of `rows_are_own_or_damaged`. Damage is apart in each of its stretches. This is so if the
/// station asks only for calls of the table, or the instrument keeps after each request its own reply or none; that of
/// `some_row_is_its_own` never keeps one.
pub fn runs_in_the_field_are_instances<State>()
    ensures { RunsInFieldAreInstances State }
{}

/// By clause `told` of `append_at`, what it did is a run of the file that it returns (`IsRunOfFile`), unless no act was made. Of such
/// a run `rows_outlast_crashes` and `rows_outlast_failures` speak.
pub fn appends_are_runs_of_files<'a, S: Source, K, E, R: Files<File = File> + 'a>()
    ensures { AppendsAreRuns S.Source ⟦<Followed<'a, R> as Sink>⟧ K E }
{}

/// If a run that appends to a file with `sync` is killed at any time, or the machine crashes, the next start makes of the file
/// the table that was there before, rows of earlier runs, and each row that was settled before this run last sent, read, opened or
/// closed something. Those that went into files before this one are excepted. Further rows may follow, but none that isn't the run's.
pub fn rows_outlast_crashes<R>()
    ensures { RowsOutlastCrashes R }
{}

/// What `rows_outlast_crashes` says also holds if a sync of the run fails, and whatever happens to the file before and after the
/// run. The file wasn't in doubt when the run began, and no run goes on in a file in doubt. Rows of later runs then
/// follow this run's. A failed sync puts a file in doubt, and so does a copy whose name isn't on the disk; a copy whose name is
/// there, or a crash of the machine, ends the doubt.
pub fn rows_outlast_failures<R>()
    ensures { RowsOutlastFailures R }
{}

/// The files that a run appends to one after the other, as those of a path with a date, have the run's rows: one file after the other, they
/// are the rows of its first records; no row is split between two files, lost between them, or in both. With `sync`, whatever a kill or a
/// crash of the machine leaves of a file once the rows went on in the next one, the next opening makes of it the table that was there
/// before the run, rows of earlier runs, and each row that this run wrote there.
pub fn each_file_has_its_rows<R>()
    ensures { EachFileHasItsRows R }
{}

/// What is left after a crash or a failed sync are whole rows, each its own. With those that went into files before this one, what
/// `rows_outlast_crashes` and `rows_outlast_failures` find of a run in the field reads as the first ones of its records, one row or
/// object each, in order, and each is its own as `rows_are_their_own` has it.
pub fn rows_left_are_their_own<R, State>()
    ensures tables { LeftTablesAreTheirOwn R State }
    ensures objects { LeftObjectsAreTheirOwn R State }
{}

/// So it is over a line that damages. Each row is by a line that is own or damaged, as `rows_are_own_or_damaged` has it.
pub fn rows_left_are_own_or_damaged<R, State>()
    ensures tables { LeftTablesAreOwnOrDamaged R State }
    ensures objects { LeftObjectsAreOwnOrDamaged R State }
{}

/// If a run that appends to a file with `sync` is killed at any moment, or the machine crashes, or a sync of it fails, what
/// `rows_outlast_crashes` and `rows_outlast_failures` say holds, whether the run would ever have ended or not: of a run that goes on, as a
/// service does, at each of its moments. The next start finds each row that was settled before the run last sent, read, opened or closed
/// something, and none that isn't the run's.
pub fn rows_so_far_outlast_crashes<R>()
    ensures crashes { RowsSoFarOutlastCrashes R }
    ensures failures { RowsSoFarOutlastFailures R }
{}

/// What is left of a run so far are whole rows, and each is its own, as `rows_left_are_their_own` has it; over a line that damages, each is by
/// a line that is own or damaged.
pub fn rows_left_so_far_are_their_own<R, State>()
    ensures tables { LeftTablesSoFarAreTheirOwn R State }
    ensures objects { LeftObjectsSoFarAreTheirOwn R State }
    ensures damaged_tables { LeftTablesSoFarAreOwnOrDamaged R State }
    ensures damaged_objects { LeftObjectsSoFarAreOwnOrDamaged R State }
{}

/// If a run of the program `geocom` made any act over a link, its command line asked for a station, and each law on rows holds of that
/// station's run. This follows from clause `done` of `run_program`. The standard streams were open. The station measured exactly the text
/// that standard input gave, at the site and with the settings that the words name; what it did are the system's calls at that site; and
/// the bytes that its output took, or that were appended to the file that the words name, are those of its run. Status 0 says that it did
/// all, or that somebody asked for its end. What the laws on this run take as given is of the instrument and the line alone. In the field
/// it is faithful, and each row that it wrote is its own; over a line that damages, each row is by a line that is own or damaged; and rows
/// that were appended to a file with `sync` outlast crashes and failed syncs, each its own.
pub fn programs_are_faithful<
    'a,
    R: Files<File = File> + Clock + 'a,
    I: Read,
    O: Write,
    E: Write,
    Words,
    Refused,
    State,
>()
    ensures runs { ProgramsAreFaithful (seeing_by ⟦<FromReader<I> as Source>⟧ ⟦<FromReader<&'a [u8]> as Source>⟧ ⟦<Told<ToWriter<O>> as Sink>⟧ ⟦<Told<ToWriter<O>> as Durable>⟧.is_durable
        ⟦<Followed<'a, Noting<'a, R>> as Sink>⟧ ⟦<Followed<'a, Noting<'a, R>> as Durable>⟧.is_durable ⟦<Lossy<Said<E>> as Write>⟧.contents) ⟦<Said<E> as Write>⟧.contents Words Refused State }

    // If no link made an act, no station ran, and there was no file; or one was asked for, and wrote at most a front of the header.
    ensures idle { ProgramsWithoutActsWriteNoRow (seeing_by ⟦<FromReader<I> as Source>⟧ ⟦<FromReader<&'a [u8]> as Source>⟧ ⟦<Told<ToWriter<O>> as Sink>⟧ ⟦<Told<ToWriter<O>> as Durable>⟧.is_durable
        ⟦<Followed<'a, Noting<'a, R>> as Sink>⟧ ⟦<Followed<'a, Noting<'a, R>> as Durable>⟧.is_durable ⟦<Lossy<Said<E>> as Write>⟧.contents) ⟦<Said<E> as Write>⟧.contents Words Refused }
{}

/// Whatever happened on a rehearsed line on which nothing was in flight before, and whose instrument kept no reply then: for each run
/// of a station over it there are runs in the field that show the station what it saw, in which the instrument did what it did on
/// that very line, and in which the station is faithful. So each recorded answer was made on executing the very request of that
/// cycle and place, on the rehearsed line. Nothing is assumed of what the line loses, repeats, holds or closes, of when the
/// instrument restarts, of the station's moments or of its plan; of its commands only that what each asks is allowed
/// (`commands_are_askable` of gc_rehearsal).
pub fn rehearsals_are_faithful()
    ensures { RehearsalsAreFaithful }
{}

/// For stations that run one after the other over a rehearsed line there are, in the same way, runs in a row in the field, each of
/// which may be killed at any moment; a close loses what is in flight or keeps it. As long as fewer than six in a row end while
/// they synchronize, each station is faithful in these. A station doesn't count if no null procedure of its last synchronization
/// was answered. The first station's line and instrument, and the commands of each, are as in [`rehearsals_are_faithful`]; and
/// between two stations nothing is sent whole and nothing comes.
pub fn rehearsals_in_a_row_are_faithful()
    ensures { RehearsalsInARowAreFaithful }
{}

/// The runs of a rehearsal's nights are faithful, by what `run_nights` of gc_rehearsal says of the link over which they ran: as long as
/// fewer than six in a row ended while they synchronized, each answer that they recorded was made, on that line, on executing the very
/// request of its cycle and place, whatever the line lost, repeated, held or closed. A run isn't one of those six if no null procedure of
/// its last synchronization was answered. Nothing of this is said of a line that alters bytes, or whose instrument sends replies late.
pub fn nights_are_faithful()
    ensures { NightsAreFaithful }
{}
