//! A port of this machine that is kept: each connection is served with a restarted instrument, and none waits for ever.

ghost use Rattle.std.specs.Prelude.{◌≡◌, None, IfErr, IfOk};
ghost use Rattle.gc_ask.specs.Keeping.{IsEndOf, KeepsServing, most_callers};
ghost use Rattle.gc_texts.specs.declared.fault.RunFault.{RunFault};

use crate::address::Address;
use crate::caller::{Connection, Ended, Waits};
use crate::callers::{CallerFault, Callers, PAUSE, end_of_caller, keep};
use crate::queue::CallerQueue;
use crate::simulated::Simulates;
use gc_instrument::ServeFault;
use gc_texts::RunFault;
use std::io::{self, Write};
use std::net::{Net, TcpListener, TcpStream};
use std::thread;
use std::time::{Clock, Duration};

/// How a port or a device is kept.
#[derive(Clone, Copy)]
pub struct Keeping {
    /// How many connections are served. `None`: as many as come.
    pub connections: Option<u32>,
    /// After how many seconds in which nothing came, or nothing was taken, a connection is closed. 0 counts as 1. A device is
    /// never closed for that.
    pub idle: u32,
    /// How many reads are made of each connection at most.
    pub max_reads: u32,
}

impl Keeping {
    /// How many connections are served: the number that was asked for, or else the greatest `u64`.
    pub(crate) fn most(self) -> u64
        ensures { result ≡ most_callers self.connections }
    {
        match self.connections {
            None => u64::MAX,
            Some(connections) => u64::from(connections),
        }
    }
}

/// Listens at an address, and serves its connections one after the other, as many as `keeping` says, each with the instrument,
/// which is restarted for it. A fault of a connection ends that connection alone, and its line is written on `messages`. Returns
/// whether all of these lines were written.
///
/// `Socket` comes where the address can't be listened at, and nothing was written. A connection that couldn't be accepted, or
/// whose time-outs couldn't be set, counts as one, with this fault; where none could be accepted, a pause of a second
/// follows. The instrument is left as the last connection that was served left it, and as it was where none was served.
pub fn keep_tcp<
    'c,
    R: Net<Listener = TcpListener, Stream = TcpStream> + Clock,
    I: Simulates<'c>,
    E: Write,
>(
    rt: &'c R,
    address: Address<'_>,
    keeping: Keeping,
    instrument: &mut I,
    messages: &mut E,
) -> Result<bool, RunFault>
    ensures kept { IfOk result (λ all_written. KeepsServing I.answers I.restarted keeping.max_reads keeping.connections instrument.old all_written
        (E.contents messages.old) (E.contents messages.new)) }
    ensures fault { IfErr result (λ fault. (fault ≡ RunFault.Socket) × (messages.new ≡ messages.old)) }
{
    let Ok(listener) = address.listen(rt) else {
        return Err(RunFault::Socket);
    };
    Ok(keep_on(rt, &listener, keeping, instrument, messages))
}

/// Serves the connections of a port that is bound, as `keep_tcp` does. Further callers wait in the system's queue. A caller who has
/// ended his writing is left without a reply that waits until it is to be sent, once a further one is there (`serve_on`). Returns
/// whether the lines of all faults were written.
pub fn keep_on<'c, R: Clock, I: Simulates<'c>, E: Write>(
    rt: &'c R,
    listener: &TcpListener,
    keeping: Keeping,
    instrument: &mut I,
    messages: &mut E,
) -> bool
    // Each caller who was served had the instrument's replies to his lines, in order.
    ensures { KeepsServing I.answers I.restarted keeping.max_reads keeping.connections instrument.old result (E.contents messages.old) (E.contents messages.new) }
{
    let queue = CallerQueue::new(listener);
    let mut callers = PortCallers {
        rt,
        queue: &queue,
        instrument,
        idle: Duration::from_secs(u64::from(keeping.idle.max(1))),
        max_reads: keeping.max_reads,
    };
    keep(&mut callers, keeping.most(), messages)
}

// The callers of a port, and the instrument that serves them.
#[derive(Drop)]
struct PortCallers<'a, 'c, R, I> {
    rt: &'c R,
    queue: &'a CallerQueue<'a>,
    instrument: &'a mut I,
    idle: Duration,
    max_reads: u32,
}

impl<'a, 'c, R: Clock, I: Simulates<'c>> Callers for PortCallers<'a, 'c, R, I> {
    ghost use Rattle.gc_ask.specs.Keeping.{ServesCaller};

    ghost served = { λ _. None };

    ghost serves = { λ before after end. (after.max_reads ≡ before.max_reads)
        × ServesCaller I.answers I.restarted before.max_reads before.instrument.now after.instrument.now end };

    // Waits for the next connection and serves it. `Socket`: no connection could be accepted, and then this sleeps for `PAUSE`
    // seconds; or the connection's time-outs couldn't be set. A read that timed out is the fault `Idle`, and any other failed
    // read one of serving.
    fn serve_next(&mut self) -> Result<(), CallerFault> {
        let Ok(stream) = self.queue.next() else {
            thread::sleep(self.rt, Duration::from_secs(PAUSE));
            return Err(CallerFault::Socket);
        };
        let Ok(()) = bound_waits(&stream, self.idle) else {
            return Err(CallerFault::Socket);
        };
        let waits = Waits {
            longest: Some(self.idle),
            queue: Some(self.queue),
        };
        let connection = Connection::Stream(&stream, waits);
        let ended = connection.serve(self.rt, self.instrument, self.max_reads);
        end_unless_idle(ended)
    }
}

// How the connection of a caller who was served ended: a read that timed out is the fault `Idle`, and any other failed read one of
// serving.
fn end_unless_idle(ended: Ended) -> Result<(), CallerFault>
    ensures { IsEndOf ended.served result }
{
    match ended.served {
        Err(ServeFault::Read { .. }) if ended.is_idle => Err(CallerFault::Idle),
        served => end_of_caller(served),
    }
}

// Sets the time-outs of a stream, so that no read and no write waits longer than `longest`: a caller who takes no replies would
// hold up all others, as an idle one does. `Err`: the system refused one of them.
fn bound_waits(stream: &TcpStream, longest: Duration) -> io::Result<()> {
    stream.set_read_timeout(Some(longest))?;
    stream.set_write_timeout(Some(longest))
}
