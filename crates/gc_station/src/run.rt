//! A whole run of a station: what is next is done, until nothing is.

ghost use Rattle.std.specs.Prelude.{◌≡◌, true, false, OnOk};
ghost use Rattle.std.specs.Io.KnownBytes.{Keeps};
ghost use Rattle.gc_station.specs.Keeping.{reads_clock_alone, KeepsUpBy, close_if_failed, close_at_output};
ghost use Rattle.gc_station.specs.Runs.{EndsBy, RanBy, FailsAtOutput, LastUnlessFailed, run_seen};
ghost use Rattle.gc_station.specs.Scopes.{ForEachReadings, ForEachAndSomeReadings};
ghost use Rattle.gc_station.specs.Watching.{places_of};
ghost use Rattle.gc_station.specs.Writing.{KeepsBook};

use crate::book::Book;
use crate::cause::Cause;
use crate::kept::Kept;
use crate::plan::Plan;
use crate::progress::Action;
use crate::station::Station;
use crate::tally::Tally;
use crate::watching::Watches;
use gc_lines::PortFailed;
use gc_links::Link;
use gc_texts::{RunFault, Task};

// Makes all records so far durable before an action, unless that only reads the clock: the commands of a cycle that is abandoned or
// missed are written one after the other, each after a reading of the clock, and one sync serves them all. `Err`: the book failed.
fn sync_before<B: Book>(book: &mut B, action: Action) -> Result<(), PortFailed>
    ensures is_durable { OnOk result (reads_clock_alone action ≡ false → B.is_durable book.new ≡ true) }
    ensures same { Keeps (B.taken book.old) (B.taken book.new) }
    ensures kept { KeepsBook B.Book book.old book.new result }
{
    if action.reads_clock_alone() {
        return Ok(());
    }
    book.sync()
}

// Runs a station until no act is next. Returns why it stopped, and the counts of how commands ended. `Err`: the book failed,
// and the link was closed.
pub(crate) fn run<L: Link, B: Book>(
    link: &mut L,
    book: &mut B,
    commands: &[Task],
    plan: &Plan,
    watches: Watches,
    max_turns: u64,
    kept: &mut Kept,
) -> Result<(Cause, Tally), PortFailed>
    ensures ran { ForEachReadings (EndsBy plan.now commands.now max_turns (places_of watches)
        (run_seen (L.acts link.old) B.Book book.old) (run_seen (L.acts link.new) B.Book book.new) result) }
    ensures keeps { ForEachReadings (KeepsUpBy plan.now commands.now max_turns (places_of watches)
        (run_seen (L.acts link.old) B.Book book.old) (run_seen (L.acts link.new) B.Book book.new)
        kept.old.turns kept.new.turns (close_if_failed result)) }
    ensures is_durable { OnOk result (B.is_durable book.new ≡ true) }
    ensures kept { KeepsBook B.Book book.old book.new result }
{
    let mut station = Station::new(plan, max_turns, watches);
    // The last cycle whose overrun was reported to the book; 0 if none was.
    let mut reported = 0;
    loop {
        let action = station.action(plan);
        // Nothing is sent, read, opened or closed before all records last: through a crash of the program, or of the machine, as
        // far as the book is meant for that.
        if let Err(unsynced) = sync_before(book, action) {
            link.close();
            return Err(unsynced);
        }
        if let Action::Stop(cause) = action {
            return Ok((cause, station.recorded.tally.total()));
        }
        reported = station.report_to(book, plan, action, reported);
        *kept = kept.with_snapshot(link, book);
        if let Err(failed) = station.step(link, book, plan, commands, action) {
            link.close();
            return Err(failed);
        }
    }
}

/// Sends the commands over a link, in cycles, by the plan, and writes into a book how each command ended. The commands of `watches`
/// ([`Watches::of`]) are watched for `Stale`, from the beginning of the run on.
///
/// What a station does next is a function of what its link recorded: `action_at`. It connects, sends a lone line feed, and
/// synchronizes: eight null procedures are sent one after the other, with ids 6, 5, 4, 3, 2, 1, 0 and 7. One that isn't
/// answered by its deadline is sent again with the same id, also on the next connection. Any reply with that id answers it;
/// all other bytes are discarded. After the eighth answer the client is new, with next id 0. It sends one null procedure more; once a
/// reply has ended that one, or another that was sent after it, the commands of a cycle are sent, each once, while fewer requests are in
/// flight than the plan's width, and there is room: the outstanding ones, and those that the last line ended that ended any, are together
/// fewer than seven. Each moment times out the requests whose deadline has come, before the bytes that came with it are heard. A request
/// that has timed out keeps its id and no longer holds up the others: its own reply settles it as late, and the reply to a
/// later request as lost. If no command may be sent before those that are outstanding are settled, and all outstanding
/// requests have timed out, a null procedure is sent after them. Its reply settles them; it is in no record. A command is
/// never sent again in its cycle.
///
/// A command is sent only if one of the seven requests before it, since the synchronization, is a call of the table that a reply ended.
/// Else a null procedure is sent first, once no request is in flight that hasn't timed out. Commands that are all calls of the table are
/// held up by that only at the first one after a synchronization.
///
/// The first `setup` commands of the list are the setup. They are sent on each connection, and after each synchronization,
/// before any command of a cycle: each once the one before it was answered well. If one wasn't, the connection is closed. It
/// isn't begun between a cycle that is done and the next one, but one that was begun goes on. A
/// command of a cycle that is `chained` is sent only if the one before it was answered well, and since that was sent no
/// connection was closed and the station didn't resynchronize; else it is written as skipped. A further attempt of a chain
/// is sent only if a command of the attempt before ended as the chain's rule (`again`) names; else it is left out, without a
/// record. In a chain that is sent twice the answers of the first sending are written as unconfirmed, and those of the second are
/// compared with them: one that doesn't agree ends its command as `Disagree`. In a missed cycle nothing is sent: its commands are written as missed, and further attempts are left out.
///
/// A cycle has until the cycle after the next is due. Then nothing more of it is sent; and once nothing is in flight that hasn't timed
/// out, what isn't settled is written as lost, what wasn't sent as skipped, and the next cycle, which had no time left, as missed. So
/// it is whether there is a connection or not, unless a setup was begun that isn't done, or the end of the run was asked for.
///
/// A connection that failed, ended or is dead is closed. The outstanding requests stay outstanding on the next connection,
/// and the ids go on. Before each new attempt to connect the station pauses: for the quiet time, at each further failure
/// twice as long, up to a minute, but never below the quiet time. Once a cycle is done it connects again only when the next is
/// due. Each connection is cleared by a line feed. Unless a synchronization goes on with it, bytes on it are then discarded until
/// none came for the quiet time. The station resynchronizes where all outstanding requests have timed out and there is no room for
/// another: all of them are lost, and the null procedures are sent on the same connection. A synchronization whose connection was lost
/// goes on with the next one.
///
/// `Ok`: each command of each cycle is settled, was written as skipped or missed, or was left out, and the tally counts how
/// they ended; or the end of the run was asked for, and each command that was sent is settled or lost. Between two chains, or two
/// attempts of one, nothing more is sent then: what is in flight is waited for until it is settled or timed out, the connection
/// is closed, and commands that had no turn aren't written. So it is on a new connection that isn't quiet yet, if a close cut
/// the chain.
///
/// `Err`: for each fault but `Output` no connection is left open, and the outstanding commands are written as lost.
/// - `Clock`: the clock couldn't be read; no try is made after that.
/// - If no try is left: `Read`, a read failed; `Mute`, the line was dead; `Write`, a write was cut, with the number of
///   commands before the cycle's next one in the list (0 before the first cycle); `LinkClosed`, the other end closed the
///   connection; `Socket`, no connection could be made; `SetUp`, a command of the setup wasn't answered well. `Read` and
///   `LinkClosed` also while tries are left, if a read without a connection failed or gave an end.
/// - `Stale`: of some command of `watches` no answer of a good quality that isn't unconfirmed was recorded for `stale` milliseconds, counted from the last
///   one, or if there was none, from the start of the link's clock for deadlines. Which command that is the book was told
///   (`unanswered`).
/// - `TooManyReads`: `max_turns` acts were made. A connection that is open then is closed by one act more.
/// - `Output`: the book failed. If it failed at a record of the last act, it has all records of the acts before, those of
///   the last act before that record, and a first part of that record. If the records couldn't be made to last, it has all
///   of them. In both cases nothing more is sent: the link is closed, and the outstanding commands aren't written.
///
/// Before each act but the close after the book failed, the book has all records of the acts before; and before anything is sent,
/// read, opened or closed they outlast what the book is meant to outlast. So one sync serves all records between which only the
/// clock is read, as those of the cycles that an outage cost. What is seen of the link and the book before each act is noted in
/// `kept`.
pub fn run_station<L: Link, B: Book>(
    link: &mut L,
    book: &mut B,
    commands: &[Task],
    plan: &Plan,
    watches: Watches,
    max_turns: u64,
    kept: &mut Kept,
) -> Result<Tally, RunFault>
    // What the link recorded, what the book took and how the run ended are as the model has them, for whatever function says
    // what each reply says of its call; and there is such a function.
    ensures ran { ForEachAndSomeReadings (RanBy plan.now commands.now max_turns (places_of watches)
        (run_seen (L.acts link.old) B.Book book.old) (run_seen (L.acts link.new) B.Book book.new) result) }

    // At each act what the acts before it settled is in the book; and it lasts unless the act is a mere reading of the clock. If
    // the book failed one act is made all the same: the connection is closed.
    ensures keeps { ForEachAndSomeReadings (KeepsUpBy plan.now commands.now max_turns (places_of watches)
        (run_seen (L.acts link.old) B.Book book.old) (run_seen (L.acts link.new) B.Book book.new)
        kept.old.turns kept.new.turns (close_at_output result)) }

    // Unless the book failed, all records last at the end.
    ensures is_durable { LastUnlessFailed (B.is_durable book.new) result }

    // If the fault is `Output` the book has failed; otherwise whether it has failed is as before.
    ensures output { FailsAtOutput (B.failed book.old) (B.failed book.new) result }
{
    match run(link, book, commands, plan, watches, max_turns, kept) {
        Ok((cause, tally)) => match cause.fault() {
            None => Ok(tally),
            Some(fault) => Err(fault),
        },
        Err(_) => Err(RunFault::Output),
    }
}
