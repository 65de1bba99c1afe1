//! The acts of a link over TCP, by the system's calls.

ghost use Rattle.std.specs.Prelude.{ℕ, ◌<◌, ◌≤◌, length, Some};
ghost use Rattle.gc_links.specs.declared.connection.Peer.{Peer};
ghost use Rattle.std.specs.Time.{instant_nanos};
ghost use Rattle.gc_links.specs.Acts.{Closed, CameWithin, IsPartIfErr, read_act, put_act, open_act};
ghost use Rattle.gc_links.specs.Answered.{open_end, wired_end};
ghost use Rattle.gc_links.specs.Calls.{Makes};
ghost use Rattle.gc_links.specs.Does.{DoesOver};
ghost use Rattle.gc_links.specs.DoesOnTcp.{DoesOnTcp};

use crate::connection::{Peer, connect};
use crate::link::Came;
use crate::moments::{came, wait};
use crate::system::{Heard, System, Wired, Written};
use crate::timer::Timer;
use gc_lines::PortFailed;
use std::net::{Net, TcpListener, TcpStream};
use std::time::{Clock, Duration};

// The system may end a wait this many milliseconds too late. A read that may wait no longer than this therefore only rests for a
// millisecond and reads briefly. The caller then reads again, and isn't late for what it waits for.
const SHORT: u64 = 40;

// How many interrupted writes of one put are made again at most.
const MOST_INTERRUPTIONS: u32 = 1000;

/// Reads some bytes, or waits until about `millis` milliseconds have gone by. Where there is no connection, it only waits.
pub(crate) fn read_wired<R: Clock>(
    system: &mut System<'_, R>,
    timer: &Timer,
    stream: &Option<Wired>,
    buf: &mut [u8],
    millis: u64,
) -> Came
    ensures does { Makes system.old.calls.made system.new.calls.made
        (DoesOver (instant_nanos timer.now.start) (open_end stream.now) (read_act result buf.new)) }
    ensures within { CameWithin result buf.new }
{
    match stream {
        Some(wired) => read_over(system, timer, wired, buf, millis),
        None => wait(system, timer, millis),
    }
}

// Reads an open connection, as `read_wired` does.
fn read_over<R: Clock>(
    system: &mut System<'_, R>,
    timer: &Timer,
    wired: &Wired,
    buf: &mut [u8],
    millis: u64,
) -> Came
    ensures does { Makes system.old.calls.made system.new.calls.made
        (DoesOver (instant_nanos timer.now.start) (Some (wired_end wired.now)) (read_act result buf.new)) }
    ensures within { CameWithin result buf.new }
{
    if millis <= SHORT {
        system.rest(1);
        return read_briefly(system, timer, wired, buf);
    }
    match system.read(wired, buf, timeout_within(millis)) {
        Heard::Came(n) => came(system, timer, n),
        Heard::CameNone => read_briefly(system, timer, wired, buf),
        Heard::Failed => Came::Failure,
    }
}

// Reads with the shortest timeout, a millisecond. The moment of a silence is taken before the read: since the read gave
// nothing, nothing had come by that moment, even if this program was stopped for a while before it.
fn read_briefly<R: Clock>(
    system: &mut System<'_, R>,
    timer: &Timer,
    wired: &Wired,
    buf: &mut [u8],
) -> Came
    ensures does { Makes system.old.calls.made system.new.calls.made
        (DoesOver (instant_nanos timer.now.start) (Some (wired_end wired.now)) (read_act result buf.new)) }
    ensures within { CameWithin result buf.new }
{
    let Ok(moment) = timer.moment(system) else {
        return Came::NoMoment;
    };
    match system.read(wired, buf, 1) {
        Heard::Came(n) => came(system, timer, n),
        Heard::CameNone => Came::Silence(moment),
        Heard::Failed => Came::Failure,
    }
}

// The timeout in milliseconds for a read that is to end within `millis` milliseconds: 0 if that is 20 or less. The system may end
// a wait too late: one of more than a quarter of a second by an eighth of it, and a shorter one by two of the system's ticks. The
// caller repeats a read that ended early.
fn timeout_within(millis: u64) -> u64
    ensures { result ≤ millis }
{
    millis.saturating_sub((millis / 8).max(20))
}

/// Writes all bytes over the connection that is open, if one is. `Err(n)`: only the first n of them went out.
pub(crate) fn send<R>(
    system: &mut System<'_, R>,
    stream: &Option<Wired>,
    bytes: &[u8],
) -> Result<(), usize>
    requires { 0 < length bytes.now }
    ensures does { (start : ℕ) → Makes system.old.calls.made system.new.calls.made
        (DoesOver start (open_end stream.now) (put_act result bytes.now)) }
    ensures part { IsPartIfErr result bytes.now }
{
    match stream {
        Some(wired) => send_over(system, wired, bytes),
        None => Err(0),
    }
}

// Writes all bytes, as many at once as the system takes. A write that was interrupted is made again, at most
// `MOST_INTERRUPTIONS` times. A write that succeeds and takes nothing counts as failed.
fn send_over<R>(system: &mut System<'_, R>, wired: &Wired, bytes: &[u8]) -> Result<(), usize>
    ensures does { (start : ℕ) → Makes system.old.calls.made system.new.calls.made
        (DoesOver start (Some (wired_end wired.now)) (put_act result bytes.now)) }
    ensures part { IsPartIfErr result bytes.now }
{
    let mut at = 0;
    let mut interruptions = 0;
    while at < bytes.len() {
        match system.write(wired, &bytes[at..]) {
            Written::Took(0) => return Err(at),
            Written::Took(n) => at += n,
            Written::TookNone if interruptions < MOST_INTERRUPTIONS => interruptions += 1,
            Written::TookNone | Written::Failed => return Err(at),
        }
    }
    Ok(())
}

/// Drops the connection that is open, if one is.
pub(crate) fn hang_up<R>(system: &mut System<'_, R>, stream: &mut Option<Wired>)
    ensures { (peer : Peer) → (start : ℕ) → Makes system.old.calls.made system.new.calls.made
        (λ calls. DoesOnTcp peer start (open_end stream.old) Closed calls (open_end stream.new)) }
{
    if let Some(wired) = stream.take() {
        system.hang_up(wired);
    }
}

/// Connects to a peer in place of the old connection, and sets how long a write may wait. Where either fails, the old connection
/// stays.
pub(crate) fn renew<R: Net<Listener = TcpListener, Stream = TcpStream>>(
    system: &mut System<'_, R>,
    peer: Peer<'_>,
    patience: Duration,
    stream: &mut Option<Wired>,
) -> Result<(), PortFailed>
    ensures { (start : ℕ) → Makes system.old.calls.made system.new.calls.made
        (λ calls. DoesOnTcp peer.entry start (open_end stream.old) (open_act result) calls (open_end stream.new)) }
{
    let Ok(wired) = connect(system, peer, patience) else {
        return Err(PortFailed);
    };
    // Without this a peer that takes nothing would hold a write for ever. So a connection that refuses it counts as failed.
    if wired.set_patience(patience).is_err() {
        system.hang_up(wired);
        return Err(PortFailed);
    }
    hang_up(system, stream);
    *stream = Some(wired);
    Ok(())
}
