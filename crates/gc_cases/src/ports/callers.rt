//! Rows of a port at which the case listens, and of its callers. All is done in one thread: callers connect before they are
//! served. What comes of a row is appended to `came`, and what isn't as the case expects to `wrong`.
//!
//!     do call %R1Q,0,0:\r\n    one more caller, and what it writes
//!     do again 39 %R1Q,0,0:\r\n    the last caller writes this 39 times more
//!     do shut, leave           the last caller writes no more, or goes away
//!     do serve 2 9             so many callers are served, in that many reads each
//!     do keep 3                so many callers are served at a kept port, which closes on one that is idle for a second
//!     do slow drop 5003 200 2  so many callers, or one, are served by an instrument whose reply to this procedure takes this many
//!                              milliseconds, and that drops what comes meanwhile, or queues it (`queue`)
//!     do hear 0                what this caller, counted from 0, has heard at the end of its connection, or `it waits` if no end
//!                              comes
//!     do ask 9 7 5003\n        these commands are asked at the port, in that many reads
//!     do accept                the connection that `ask` or `at` made is accepted, and its end here is one more caller
//!     do listen [::1]          another port, of this address or of 127.0.0.2; where [::1] can't be listened at, `at` reports
//!                              `done`
//!     do at [::1]              a text without commands is asked there
//!     do port 7                a text without commands is asked at this port, by its number and as a place, and the port is
//!                              served
//!     do closed 7 5003\n       these commands, or none, are asked at a port at which somebody listened, and nobody does any more
//!     do bound                 the port at which the case listens is served, as if it were free
//!     do loop 9 7 5003\n       these commands are asked over a connection with the simulator at its other end, in that many reads
//!     do ends, cut_ends        in ends.rt

ghost use Rattle.std.specs.Prelude.{◌≤◌};

use crate::ports::ends::{tell_cut_ends, tell_ends, written_word};
use crate::ports::streams::{accepted, bounded, hear, listener_at_1024, tell_end_behind};
use arrayvec::ArrayVec;
use gc_ask::{
    Address, BusyClock, Keeping, Slow, ask_at, ask_tcp, keep_on, loop_tcp, serve_on, serve_tcp,
};
use gc_instrument::Instrument;
use gc_links::{Place, listen};
use gc_probes::{
    Case, PieceSink, PieceSource, Player, Row, Rows, Told, cut_word, play_rows, port_of, text_of,
};
use gc_scenes::{Delay, SceneInstrument, SceneRules, SlowInstrument, Ways};
use gc_texts::RunFault;
use gc_values::Text;
use std::io::{self, Write};
use std::net::{Ipv6Addr, Shutdown, SocketAddr, TcpListener, TcpStream};
use std::time::Instant;

/// Plays `.callers`.
pub struct CallersPlayer;

impl Player for CallersPlayer {
    // Plays a case at a free port of its own. `Err`: no port could be listened at.
    fn play(&self, rt: &HostRuntime, case: &Case<'_>, wrong: &mut Told) -> io::Result<()> {
        let listener = listen(rt, 0)?;
        play_at(rt, listener, case, wrong);
        Ok(())
    }
}

// Plays the rows of a case at the port of this listener.
fn play_at(rt: &HostRuntime, listener: TcpListener, case: &Case<'_>, wrong: &mut Told) {
    let mut played = PortRows {
        rt,
        listener,
        is_absent: false,
        instrument: Instrument::simulator(),
        callers: Vec::new(rt.alloc()),
    };
    play_rows(case, &mut played, wrong);
}

// A port, the instrument that is served there, and the port's callers.
#[derive(Drop)]
struct PortRows<'a> {
    rt: &'a HostRuntime,
    listener: TcpListener,
    // Whether the last row `listen [::1]` couldn't listen, as on a machine that has no such address.
    is_absent: bool,
    instrument: Instrument,
    callers: Vec<TcpStream>,
}

impl<'a> Rows for PortRows<'a> {
    // Plays a row by its word: here if something is served, asked or heard, otherwise in `play_alone`.
    fn play(&mut self, row: Row<'_>, came: &mut Told) {
        match row.word {
            "serve" => self.serve(row.what, came),
            "keep" => self.keep(row.what, came),
            "slow" => self.serve_slowly(row.what, came),
            "hear" => self.hear(row.what, came),
            "ask" => self.ask(row, came),
            "at" => self.ask_at(row.what, came),
            "port" => self.ask_port(row.what, came),
            _ => self.play_alone(row, came),
        }
    }
}

// Reports how asking or serving ended. Of a write that failed, the number of replies before it is reported as `+` if there were
// any, because it isn't known how many the system takes.
fn tell_end(end: Result<(), RunFault>, came: &mut Told) {
    match end {
        Ok(()) => came.text("done"),
        Err(RunFault::Write { replies, bytes }) if replies > 0 => {
            came.titled("fault 43 reply + byte ", &bytes)
        }
        Err(fault) => came.display(&fault),
    }
}

// Reports these lines, with `+` for the number between the first ` reply ` and the ` byte ` after it, because it isn't known how
// many replies the system takes. Lines without a ` reply ` are reported as they are.
fn tell_uncounted(lines: &str, came: &mut Told) {
    let Some((front, behind)) = lines.split_once(" reply ") else {
        return came.text(lines);
    };
    came.text(front);
    came.text(" reply + byte ");
    came.text(behind.split_once(" byte ").map_or(behind, |cut| cut.1));
}

impl<'a> PortRows<'a> {
    // Plays a row that needs no caller; any other in `prepare`.
    fn play_alone(&mut self, row: Row<'_>, came: &mut Told) {
        match row.word {
            "closed" => self.ask_closed(row.bytes, came),
            "bound" => self.serve_bound(came),
            "loop" => self.ask_in_a_loop(row, came),
            "ends" => tell_ends(came),
            "cut_ends" => tell_cut_ends(came),
            _ => self.prepare(row, came),
        }
    }

    // Plays a row in which a caller does something, or in which another port is listened at, and reports what can't be done, or
    // that the word is unknown.
    fn prepare(&mut self, row: Row<'_>, came: &mut Told) {
        match row.word {
            "call" => tell_done(self.call(row.bytes), came),
            "again" => tell_done(self.write_times(row, came), came),
            "shut" => tell_done(self.shut(), came),
            "leave" => drop(self.callers.pop()),
            "accept" => tell_done(self.accept(), came),
            "listen" => tell_done(self.listen(row.what), came),
            _ => came.text("an unknown word"),
        }
    }

    // Connects one more caller, who writes these bytes, and returns whether that could be done.
    fn call(&mut self, bytes: &[u8]) -> bool {
        let stream = connected(self.rt, &self.listener);
        self.add_caller(stream) && self.write(bytes)
    }

    // Accepts the connection that `ask` or `ask_at` made, and returns whether its end here is one more caller now. It waits for
    // ever if none was made.
    fn accept(&mut self) -> bool {
        let stream = accepted(&self.listener);
        self.add_caller(stream)
    }

    // Adds the end of a connection to the callers, as the last one. Returns whether that could be done: `false` if there is no
    // connection, or memory ran out.
    fn add_caller(&mut self, stream: io::Result<TcpStream>) -> bool {
        match stream {
            Ok(stream) => self.callers.push(stream).is_ok(),
            Err(_) => false,
        }
    }

    // The last caller writes the bytes that the row has after a number (`Row::cut_bytes`), as many times as the number says, up
    // to the first write that fails. Returns whether none failed.
    fn write_times(&mut self, row: Row<'_>, came: &mut Told) -> bool {
        let (times, bytes) = row.cut_bytes();
        for _ in 0..came.number_in::<u64>(times) {
            if !self.write(bytes) {
                return false;
            }
        }
        true
    }

    // The last caller writes these bytes. Returns whether that could be done; also `true` without a caller, where
    // nothing is written.
    fn write(&mut self, bytes: &[u8]) -> bool {
        match self.callers.last_mut() {
            Some(caller) => caller.write_all(bytes).is_ok(),
            None => true,
        }
    }

    // The last caller writes no more. Returns whether that could be done; also `true` without a caller.
    fn shut(&self) -> bool {
        match self.callers.last() {
            Some(caller) => caller.shutdown(Shutdown::Write).is_ok(),
            None => true,
        }
    }

    // Listens at a free port of this address from now on, which is 127.0.0.2 or [::1]. Returns whether that could be done. Where
    // [::1] can't be listened at, as on a machine without it, that counts as done, and `is_absent` is true.
    fn listen(&mut self, what: &str) -> bool {
        match what {
            "127.0.0.2" => {
                let address = SocketAddr::from(([127, 0, 0, 2], 0));
                self.listen_by(TcpListener::bind(self.rt, address))
            }
            "[::1]" => {
                self.is_absent = !self.listen_by(TcpListener::bind(
                    self.rt,
                    (Ipv6Addr::LOCALHOST, 0),
                ));
                true
            }
            _ => false,
        }
    }

    // Listens by this listener from now on, if there is one, and returns whether there is. Without one the listener from before
    // stays.
    fn listen_by(&mut self, listener: io::Result<TcpListener>) -> bool {
        match listener {
            Ok(listener) => {
                self.listener = listener;
                true
            }
            Err(_) => false,
        }
    }

    // Serves callers, and reports how that ended. `what` says how many callers, and how many reads each may take.
    fn serve(&mut self, what: &str, came: &mut Told) {
        let (count, reads) = cut_word(what);
        let count = came.number_in(count);
        let reads = came.number_in(reads);
        let end = serve_on(self.rt, &self.listener, count, &mut self.instrument, reads);
        tell_end(end, came)
    }

    // Serves callers, each in at most 99 reads, with an instrument whose reply to a procedure takes time. `what` is `drop` or
    // `queue`, the procedure, the time in milliseconds, and the number of callers if it isn't one. Reports how serving ended, and
    // `late` if it took at least that time by the clock; or `no clock`, with nobody served, if the clock can't be read.
    fn serve_slowly(&mut self, what: &str, came: &mut Told) {
        let (busy, rest) = cut_word(what);
        let (rpc, rest) = cut_word(rest);
        let (ms, callers) = cut_word(rest);
        let callers = if callers.is_empty() { "1" } else { callers };
        let count = came.number_in(callers);
        let delay = Delay {
            rpc: came.number_in(rpc),
            ms: came.number_in(ms),
        };
        let slow = slow_instrument(delay, busy == "drop");
        let (Ok(clock), Ok(begun)) = (BusyClock::new(self.rt, &slow), Instant::now(self.rt)) else {
            return came.text("no clock");
        };
        let mut instrument = Slow::new(&clock, slow);
        let end = serve_on(self.rt, &self.listener, count, &mut instrument, 99);
        tell_end(end, came);
        if has_passed(self.rt, &begun, delay.ms) {
            came.text(" late");
        }
    }

    // Serves as many callers as `what` says at a kept port, each in at most nine reads. The port closes the connection of one
    // that is idle for a second. Reports whether all lines on their faults could be written, and these lines.
    fn keep(&mut self, what: &str, came: &mut Told) {
        let keeping = Keeping {
            connections: Some(came.number_in(what)),
            idle: 1,
            max_reads: 9,
        };
        let mut messages = Vec::new(self.rt.alloc());
        let all = keep_on(
            self.rt,
            &self.listener,
            keeping,
            &mut self.instrument,
            &mut messages,
        );
        tell_kept(all, messages.as_slice(), came);
    }

    // Reports what the caller at the place `what`, counted from 0, has heard, or that there is no such caller.
    fn hear(&mut self, what: &str, came: &mut Told) {
        let place = came.number_in::<usize>(what);
        match self.callers.get_mut(place) {
            Some(caller) => tell_heard(caller, came),
            None => came.text("no such caller"),
        }
    }

    // Asks the commands that the row has after a number (`Row::cut_bytes`) at the port, in at most as many reads as the number
    // says, and reports what was written and how it ended; or `no port` if the system doesn't say which port it is.
    fn ask(&self, row: Row<'_>, came: &mut Told) {
        let port = port_of(&self.listener);
        if port == 0 {
            return came.text("no port");
        }
        let (reads, commands) = row.cut_bytes();
        let most = came.number_in(reads);
        self.tell_asked(port, commands, most, came);
    }

    // Asks a text without commands at the address or name `what`, with the listener's port (0 if the system doesn't say), and
    // reports how that ended. If `is_absent`, nobody is asked, and `done` is reported.
    fn ask_at(&self, what: &str, came: &mut Told) {
        if self.is_absent {
            return came.text("done");
        }
        let mut name = Told::new(came.alloc);
        name.text(what);
        name.titled(":", &port_of(&self.listener));
        tell_end(self.ask_place(Place::Host(text_of(name.as_bytes()))), came)
    }

    // Asks a text without commands at the port that `what` says, by its number and as a place, then serves that port, and reports
    // how each of these ended; or `no port` if `what` is no number from 1 to 65535.
    fn ask_port(&mut self, what: &str, came: &mut Told) {
        let port = came.number_in::<u16>(what);
        if port == 0 {
            return came.text("no port");
        }
        let _other = listener_at_1024(self.rt);
        self.tell_asked(port, b"", 9, came);
        came.text(", ");
        tell_end(self.ask_place(Place::Port(port)), came);
        came.text(", ");
        // Serving fails then: the port is in use, or this user can't bind it.
        let _taken = listen(self.rt, port);
        let end = serve_tcp(self.rt, Address::Here(port), 1, &mut self.instrument, 9);
        tell_end(end, came)
    }

    // Asks these commands at a port that is closed (`closed_port`), and reports what was written and how asking ended; or `no port`
    // if there is none.
    fn ask_closed(&self, commands: &[u8], came: &mut Told) {
        let port = closed_port(self.rt);
        if port == 0 {
            return came.text("no port");
        }
        self.tell_asked(port, commands, 9, came);
    }

    // Serves the port at which the case listens itself, and reports how that ended; or `no port` if the system doesn't say which
    // port it is, as any free one would be served for 0.
    fn serve_bound(&mut self, came: &mut Told) {
        let port = port_of(&self.listener);
        if port == 0 {
            return came.text("no port");
        }
        let end = serve_tcp(self.rt, Address::Here(port), 1, &mut self.instrument, 9);
        tell_end(end, came)
    }

    // Asks the commands that the row has after a number (`Row::cut_bytes`) over a connection with the simulator at its other end,
    // in at most as many reads of both ends as the number says, and reports what was written and how it ended.
    fn ask_in_a_loop(&self, row: Row<'_>, came: &mut Told) {
        let (reads, commands) = row.cut_bytes();
        let most = came.number_in(reads);
        let mut source = PieceSource::new(commands, &[], u64::MAX);
        let mut sink = PieceSink::new(self.rt.alloc(), 1000, u64::MAX);
        let end = loop_tcp(self.rt, self.rt.alloc(), &mut source, &mut sink, most);
        came.bytes(sink.taken());
        tell_end(end, came)
    }

    // Asks a text without commands at a place, in at most nine reads, and returns how that ended.
    fn ask_place(&self, place: Place<'_>) -> Result<(), RunFault> {
        let mut none = PieceSource::new(b"", &[], u64::MAX);
        let mut sink = PieceSink::new(self.rt.alloc(), 1000, u64::MAX);
        match ask_at(self.rt, self.rt.alloc(), place, &mut none, &mut sink, 9) {
            Ok(()) => Ok(()),
            Err(stop) => Err(stop.fault()),
        }
    }

    // Asks these commands at a port, by its number, in at most so many reads, and reports what was written and how it ended.
    fn tell_asked(&self, port: u16, commands: &[u8], reads: u32, came: &mut Told)
        requires { 1 ≤ port }
    {
        let mut source = PieceSource::new(commands, &[], u64::MAX);
        let mut sink = PieceSink::new(self.rt.alloc(), 1000, u64::MAX);
        let end = ask_tcp(
            self.rt,
            self.rt.alloc(),
            port,
            &mut source,
            &mut sink,
            reads,
        );
        came.bytes(sink.taken());
        tell_end(end, came)
    }
}

// A port of this machine that was listened at, and is closed again; 0 if none could be listened at.
fn closed_port(rt: &HostRuntime) -> u16 {
    match listen(rt, 0) {
        Ok(listener) => port_of(&listener),
        Err(_) => 0,
    }
}

// An instrument without rules whose reply to one procedure takes time, and that drops what comes meanwhile (`drops`), or queues
// it.
fn slow_instrument(delay: Delay, drops: bool) -> SlowInstrument {
    let mut delays = ArrayVec::new();
    delays.push(delay);
    let rules = SceneRules {
        prisms: ArrayVec::new(),
        faults: ArrayVec::new(),
        answers: ArrayVec::new(),
        noise: None,
        repeats: true,
        ways: Ways::none(),
    };
    SlowInstrument::new(
        SceneInstrument::new(7, slow_name(), rules),
        ArrayVec::new(),
        delays,
        drops,
    )
}

// The name of the slow instrument. It is never empty, because plain bytes as these make a text.
fn slow_name() -> Text {
    Text::new(b"SLOW").unwrap_or(Text::empty())
}

// Whether `ms` milliseconds have passed since the moment `begun`; `false` if the clock can't be read.
fn has_passed(rt: &HostRuntime, begun: &Instant, ms: u32) -> bool {
    match begun.elapsed(rt) {
        Ok(time) => time.as_millis() >= u128::from(ms),
        Err(_) => false,
    }
}

// Reports that an act can't be done, unless it was done.
fn tell_done(is_done: bool, came: &mut Told) {
    came.text_if(!is_done, "it can't be done");
}

// Connects to this listener, and returns the caller's end, of which each read waits for a bounded time (`bounded`). `Err`: the
// system doesn't say the listener's address, can't connect to it, or can't bound the reads.
fn connected(rt: &HostRuntime, listener: &TcpListener) -> io::Result<TcpStream> {
    let address = listener.local_addr()?;
    bounded(TcpStream::connect(rt, address)?)
}

// Reports whether all lines on the faults of a kept port's callers were written (`all`), and these lines, `messages`, as
// `tell_uncounted` does.
fn tell_kept(all: bool, messages: &[u8], came: &mut Told) {
    came.text(written_word(all));
    came.text(": ");
    tell_uncounted(text_of(messages), came);
}

// Reports what a caller hears until the end of its connection, or `it waits` if no end comes, a read fails, or memory runs out.
fn tell_heard(caller: &mut TcpStream, came: &mut Told) {
    let mut bytes = Vec::new(came.alloc);
    if !hear(caller, &mut bytes) {
        return came.text("it waits");
    }
    tell_end_behind(bytes.as_slice(), came);
}
