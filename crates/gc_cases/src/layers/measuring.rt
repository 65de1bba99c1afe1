//! The core of a station, which `docs/LIBRARY.md` names as an example: it sends calls to targets, and reports how each request
//! ended. After it comes what plays the rows of a case with such a station.

use crate::layers::client::target_and_deadline;
use gc_catalogue::{Answer, Call, Reading};
use gc_client::{Client, Heard, Outcome, Settlement, Slots};
use gc_lines::{Assembler, Frame};
use gc_probes::{Row, Rows, Told};
use std::alloc::{AllocError, Global};
use std::io::{self, Write};

/// A station's end of a connection.
#[derive(Drop)]
struct StationEnd {
    client: Client<Slots>,
    assembler: Assembler,
}

impl StationEnd {
    /// A station that has sent nothing, at the start of a line.
    fn new() -> StationEnd {
        StationEnd {
            client: Client::new(Slots::new()),
            assembler: Assembler::new(),
        }
    }

    /// Sends a call to a target, to be answered before the deadline. `false`: seven requests are outstanding, so nothing was
    /// sent. `Err`: the connection didn't take the whole line; the request is outstanding all the same.
    fn ask<W: Write>(
        &mut self,
        connection: &mut W,
        target: u32,
        call: Call,
        deadline: u64,
    ) -> io::Result<bool> {
        let Ok(line) = self.client.send(target, call, deadline) else {
            return Ok(false);
        };
        connection.write_all(line.as_slice())?;
        connection.write_all(b"\r\n")?;
        Ok(true)
    }

    /// Takes the bytes of one read, and the moment after it: times out the requests whose deadline has come, and reports in
    /// `told` what the bytes settle. `Err`: memory ran out for `told`; the bytes after the line whose report had no room aren't
    /// taken.
    fn hear(&mut self, bytes: &[u8], now: u64, told: &mut String) -> Result<(), AllocError> {
        self.client.expire(now);
        let mut left = bytes;
        while !left.is_empty() {
            let (used, frame) = self.assembler.take(left);
            left = &left[used..];
            self.hear_frame(&frame, told)?;
        }
        Ok(())
    }

    /// Takes a frame: if it is a line that settles requests, reports how they ended. Every other frame is ignored. `Err`: memory
    /// ran out for `told`; the requests are settled all the same.
    fn hear_frame(&mut self, frame: &Frame, told: &mut String) -> Result<(), AllocError> {
        let Frame::Line(line) = frame else {
            return Ok(());
        };
        if let Heard::Settled(settled) = self.client.on_line(line) {
            tell_settlements(&settled, told)?;
        }
        Ok(())
    }

    /// Continues over a connection that was closed and opened again, and whose stale input was discarded: half a line is
    /// discarded, and ids continue.
    fn go_on(&mut self) {
        self.assembler = Assembler::new();
    }

    /// Restarts over a connection that was opened again, once the caller has synchronized over it with a `Beginning` of
    /// gc_client: reports that what is outstanding is lost. `Err`: memory ran out for `told`; the client has restarted all the
    /// same.
    fn restart(&mut self, told: &mut String) -> Result<(), AllocError> {
        self.assembler = Assembler::new();
        tell_settlements(&self.client.restart(), told)
    }
}

// Reports how these requests ended, each in a line. `Err`: memory ran out.
fn tell_settlements(settled: &[Settlement<Call>], told: &mut String) -> Result<(), AllocError> {
    for settlement in settled {
        tell_settlement(settlement, told)?;
    }
    Ok(())
}

// Reports how a request ended, in a line. `Err`: memory ran out.
fn tell_settlement(settlement: &Settlement<Call>, told: &mut String) -> Result<(), AllocError> {
    let target = settlement.target;
    match &settlement.outcome {
        Outcome::Answered(Reading::Value(Answer::Measured { hz, v, distance }), _) => {
            writeln!(told, "target {target}: {hz} rad, {v} rad, {distance} m")?;
        }
        Outcome::Answered(reading, _) => writeln!(told, "target {target}: {reading:?}")?,
        Outcome::Late => writeln!(told, "target {target}: late")?,
        Outcome::Lost => writeln!(told, "target {target}: lost")?,
    }
    Ok(())
}

/// What plays these rows: a station, and all bytes that it sent.
#[derive(Drop)]
pub struct Stations {
    station: StationEnd,
    connection: Vec<u8>,
}

impl Stations {
    /// A station that has sent nothing.
    pub fn new(alloc: Global) -> Stations {
        Stations {
            station: StationEnd::new(),
            connection: Vec::new(alloc),
        }
    }

    // Asks for a measurement of the target that the first word says, to be answered before the moment of the second one. Reports
    // only if nothing was sent (seven wait), or memory ran out.
    fn ask(&mut self, words: &str, came: &mut Told) {
        let (target, deadline) = target_and_deadline(words, came);
        let call = Call::SimpleMea {
            wait: 5000,
            mode: 1,
        };
        let connection = &mut self.connection;
        match self.station.ask(connection, target, call, deadline) {
            Ok(true) => {}
            Ok(false) => came.text("seven wait"),
            Err(_) => came.lack(),
        }
    }

    // Hands the station the bytes of a read and the moment after it, which are in the row: first the moment, then the bytes
    // (`Row::cut_bytes`). Reports what the station reported.
    fn hear(&mut self, row: Row<'_>, came: &mut Told) {
        let mut told = String::new(came.alloc);
        let (now, read) = row.cut_bytes();
        let heard = self.station.hear(read, came.number_in(now), &mut told);
        tell_report(heard, told.as_str(), came);
    }

    // Restarts the station, and reports what it reported.
    fn restart(&mut self, came: &mut Told) {
        let mut told = String::new(came.alloc);
        let restarted = self.station.restart(&mut told);
        tell_report(restarted, told.as_str(), came);
    }
}

// Reports the text `told` in which a station reported how requests ended; where memory ran out for it, `came` lacks a part.
fn tell_report(end: Result<(), AllocError>, told: &str, came: &mut Told) {
    came.text(told);
    if end.is_err() {
        came.lack();
    }
}

impl Rows for Stations {
    // Plays a row: `ask` with a target and a deadline, `hear` with a moment and bytes, `restart`, `deadline`, `go_on` or `sent`.
    fn play(&mut self, row: Row<'_>, came: &mut Told) {
        match row.word {
            "ask" => self.ask(row.what, came),
            "hear" => self.hear(row, came),
            "restart" => self.restart(came),
            "deadline" => came.debug(&self.station.client.next_deadline()),
            "go_on" => self.station.go_on(),
            "sent" => came.bytes(self.connection.as_slice()),
            _ => came.text("an unknown word"),
        }
    }
}
