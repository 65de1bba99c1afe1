//! Rows of the ports over a reader and a writer of std: how often a reader is asked and for how many bytes, and what fits
//! into a writer.

ghost use Rattle.std.specs.Prelude.{None};

use gc_lines::{FromReader, Line, ReadAhead, Sink, Source, ToWriter, begin_request, write_line};
use gc_probes::{Row, Rows, Told, cut_word};
use std::cell::Cell;
use std::io::{self, ErrorKind, Read};

// How often a reader was asked, and for how many bytes the last time; 0 before the first.
#[derive(Drop)]
struct ReadCalls {
    calls: Cell<u64>,
    room: Cell<usize>,
}

impl ReadCalls {
    // The reader wasn't asked yet.
    fn none() -> ReadCalls {
        ReadCalls {
            calls: Cell::new(0),
            room: Cell::new(0),
        }
    }
}

// A reader that gives `left`, at most `most` bytes a read, and is interrupted at read number `fails_at`, counted from 0.
#[derive(Drop)]
struct PieceReader<'a, 'b> {
    left: &'a [u8],
    most: usize,
    fails_at: u64,
    asked: &'b ReadCalls,
}

impl Read for PieceReader<'_, '_> {
    ghost remaining = { λ _. None };

    // Notes the call and the room for its bytes, and gives the next bytes, none once all are given; or, at the call with the
    // number `fails_at`, an interruption.
    fn read(&mut self, buf: &mut [u8]) -> io::Result<usize> {
        let call = self.asked.calls.get();
        self.asked.calls.set(call.saturating_add(1));
        self.asked.room.set(buf.len());
        if call == self.fails_at {
            return Err(ErrorKind::Interrupted.into());
        }
        let left = self.left;
        let count = left.len().min(buf.len()).min(self.most);
        buf[..count].copy_from_slice(&left[..count]);
        self.left = &left[count..];
        Ok(count)
    }
}

/// What plays these rows. Nothing is kept from row to row.
#[derive(Drop)]
pub struct Ports;

impl Rows for Ports {
    // Plays a row: `source` or `ahead` with three words, `sink` with a room in bytes, or `lines`.
    fn play(&mut self, row: Row<'_>, came: &mut Told) {
        match row.word {
            "source" => read_source(row.what, came),
            "ahead" => read_ahead(row.what, came),
            "sink" => write_through(row.what, came),
            "lines" => write_lines(came),
            _ => came.text("an unknown word"),
        }
    }
}

// Reads through a port from the reader of these words (`reader_of`), and reports what `read_four_times` does.
fn read_source(words: &str, came: &mut Told) {
    let asked = ReadCalls::none();
    let reader = reader_of(words, &asked, came);
    read_four_times(&mut FromReader::new(reader), &asked, came);
}

// As `read_source`, but the port reads ahead.
fn read_ahead(words: &str, came: &mut Told) {
    let asked = ReadCalls::none();
    let reader = reader_of(words, &asked, came);
    read_four_times(&mut FromReader::new(ReadAhead::new(reader)), &asked, came);
}

// A reader of the bytes of the third word. The first word says how many bytes it gives a read at most, and the second at which
// read it is interrupted, counted from 0.
fn reader_of<'a, 'b>(words: &'a str, asked: &'b ReadCalls, came: &mut Told) -> PieceReader<'a, 'b> {
    let (most, rest) = cut_word(words);
    let (fails_at, left) = cut_word(rest);
    PieceReader {
        left: left.as_bytes(),
        most: came.number_in(most),
        fails_at: came.number_in(fails_at),
        asked,
    }
}

// Reads four times into four bytes, by the trait's bound alone, and reports of each read what came (`read_once`), how often the
// reader was asked by then, and for how many bytes the last time.
fn read_four_times<S: Source>(source: &mut S, asked: &ReadCalls, came: &mut Told) {
    for _ in 0..4 {
        read_once(source, came);
        came.titled(" asked ", &asked.calls.get());
        came.titled(" for ", &asked.room.get());
        came.text(", ");
    }
}

// Reads once into four bytes, and reports what came and, by `!`, whether the source has failed.
fn read_once<S: Source>(source: &mut S, came: &mut Told) {
    let mut buf = [0u8; 4];
    match source.read(&mut buf) {
        Ok(count) => came.bytes(buf.get(..count).unwrap_or(b"?")),
        Err(_) => came.text("failed"),
    }
    if source.has_failed() {
        came.text("!");
    }
}

// Writes three bytes four times, into a writer with room for as many bytes as `room` says, at most 16. Reports what
// `write_four_times` does.
fn write_through(room: &str, came: &mut Told) {
    let mut bytes = [0u8; 16];
    let room = came.number_in::<usize>(room).min(16);
    write_four_times(&mut ToWriter::new(&mut bytes[..room]), came);
}

// Writes three bytes four times, by the trait's bound alone, and reports of each time how many were taken, or `failed`, and, by
// `!`, whether the sink has failed.
fn write_four_times<K: Sink>(sink: &mut K, came: &mut Told) {
    for _ in 0..4 {
        match sink.write(b"abc") {
            Ok(count) => came.display(&count),
            Err(_) => came.text("failed"),
        }
        came.either(sink.has_failed(), "! ", " ");
    }
}

// Writes a line three times into a writer with room for 16 bytes, reports how that went (`write_thrice`), and what it holds then.
fn write_lines(came: &mut Told) {
    let mut room = [0u8; 16];
    let line = begin_request(0, Some(1));
    write_thrice(&mut ToWriter::new(&mut room[..]), &line, came);
    came.bytes(room.as_slice());
}

// Writes a line three times, and reports of each time that it went out whole, or how many bytes of it and its CR LF did.
fn write_thrice<K: Sink>(sink: &mut K, line: &Line, came: &mut Told) {
    for _ in 0..3 {
        match write_line(sink, line) {
            Ok(()) => came.text("whole, "),
            Err(count) => came.counted(&count, " bytes, "),
        }
    }
}
