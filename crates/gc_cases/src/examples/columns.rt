//! The list of columns: of each its name, what is under it, its unit, and the procedures whose answers fill it.

use gc_catalogue::{
    Answer, Asked, Call, Reading, decode_answer, decode_call, encode_answer, procedure_name,
};
use gc_lines::{Reply, Request, ToWriter};
use gc_probes::{Told, text_of};
use gc_rows::{COLUMNS, Column, EndedCommand, Form, Kind, When, write_record};
use gc_texts::{Ending, Quality, Stamp, Turn, Wish, described_as};
use std::alloc::Global;
use std::{fs, io};

/// Compares the list with the file `columns.csv` of the folder in which the program runs, and prints a line; if they differ, also
/// the list. Returns whether they are the same. `Err`: the file can't be read, a line can't be printed, or memory ran out for the
/// file.
pub fn play_columns(rt: &HostRuntime) -> io::Result<bool> {
    let expected = fs::read(rt, "columns.csv")?;
    let mut list = Told::new(rt.alloc());
    write_list(&mut list);
    if !list.is_lacking() && list.as_bytes() == expected.as_slice() {
        println!(rt; "columns.csv: as the program has it")?;
        return Ok(true);
    }
    println!(rt;
        "columns.csv: the program has another list\n{}",
        text_of(list.as_bytes())
    )?;
    Ok(false)
}

// One of these texts reads as the parameters of each procedure, and one as the values of its answer.
const VALUES: [&[u8]; 8] = [
    b"",
    b"0",
    b"0,0",
    b"0,0,0",
    b"0,0,0,0",
    b"0,0,0,0,0",
    b"\"\"",
    b"2026,'0b','1e','00','00','00'",
];

// When the command of each object was sent and ended.
const WHEN: When = When {
    run: 0,
    stamp: Stamp {
        sent: Some(0),
        id: 0,
        utc: 0,
        cycle: 1,
        place: 0,
        turn: Turn {
            place: 0,
            attempt: 1,
            link: 0,
        },
    },
};

// Appends the list as comma-separated values: a row of names, and one for each column.
fn write_list(list: &mut Told) {
    list.text("name,kind,unit,procedures\n");
    for column in &COLUMNS {
        write_column(column, list);
    }
}

// Appends the row of a column.
fn write_column(column: &Column, list: &mut Told) {
    list.text(column.name);
    list.text(",");
    list.text(word_of(column.kind));
    list.text(",");
    list.text(column.unit);
    list.text(",");
    write_procedures(column.name, list);
    list.text("\n");
}

// The words of a kind.
fn word_of(kind: Kind) -> &'static str {
    match kind {
        Kind::Text => "text",
        Kind::Moment => "moment",
        Kind::Whole => "whole number",
        Kind::Decimal => "decimal",
        Kind::Code => "code",
        Kind::Texts => "list of texts",
    }
}

// Appends the numbers of the procedures of the table whose answers fill a column of this name, with a space between them: none if
// an answer to the null procedure fills it, too.
fn write_procedures(name: &str, list: &mut Told) {
    let mut space = "";
    for rpc in 1..=u16::MAX {
        if procedure_name(rpc).is_some()
            && fills(list.alloc, rpc, name)
            && !fills(list.alloc, 0, name)
        {
            list.titled(space, &rpc);
            space = " ";
        }
    }
}

// Whether the object of an answer of the procedure with this number has a member of this name. An object that can't be written has
// all.
fn fills(alloc: Global, rpc: u16, name: &str) -> bool {
    let mut object = Told::new(alloc);
    write_object(rpc, &mut object);
    object.is_lacking()
        || text_of(object.as_bytes())
            .split('"')
            .any(|part| part == name)
}

// Appends the object of an answer of the procedure with this number. If no text of `VALUES` reads as a call of it, or none as its
// answer, `object` notes that it lacks a part.
fn write_object(rpc: u16, object: &mut Told) {
    match exchange_of(rpc) {
        Some((call, answer)) => write_answered(call, &answer, object),
        None => object.lack(),
    }
}

// Appends the object of this answer to this call.
fn write_answered(call: Call, answer: &Answer, object: &mut Told) {
    let line = encode_answer(0, 0, answer, 15);
    let command = Wish {
        target: 0,
        call: Asked::Table(call),
    };
    let ended = EndedCommand {
        when: WHEN,
        name: b"",
        command: &command,
        ending: Ending::Answered(Quality::Fine, Some(answer), &line),
        described: described_as(0, &[]),
        columns: &[],
    };
    let _ = write_record(&mut ToWriter::new(object), Form::Json, ended);
}

// A call of the procedure with this number, and an answer to it. `None`: no text of `VALUES` reads as one of these.
fn exchange_of(rpc: u16) -> Option<(Call, Answer)> {
    let call = call_of(rpc)?;
    let answer = answer_of(&call)?;
    Some((call, answer))
}

// A call of the procedure with this number, whose parameters are a text of `VALUES`.
fn call_of(rpc: u16) -> Option<Call> {
    for params in VALUES {
        let request = Request {
            rpc,
            id: None,
            params,
        };
        if let Ok(call) = decode_call(&request) {
            return Some(call);
        }
    }
    None
}

// An answer to a call, whose values are a text of `VALUES`.
fn answer_of(call: &Call) -> Option<Answer> {
    for params in VALUES {
        let reply = Reply {
            rc_com: 0,
            id: None,
            rc: 0,
            params,
        };
        if let Reading::Value(answer) = decode_answer(call, &reply) {
            return Some(answer);
        }
    }
    None
}
