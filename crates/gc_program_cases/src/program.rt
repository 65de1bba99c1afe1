//! Cases of the program: it is run with a case's words and standard streams, over the system, or at a far end if the case has
//! one. The case expects a status, the output and the messages; of a far end also what came there, and how much time passed by
//! its clock (said.rt).
//!
//!     words ask PORT         the words after the program's name; `PORT` stands for the case's own port
//!     port free              nobody listens at that port; otherwise, as with `used`, the case does
//!     input 7 5003\n         standard input (`input_of`)
//!     reads fail             each read of standard input fails
//!     room 20                the output has room for this many bytes
//!     closed input output    these of `input`, `output` and `messages` are closed
//!     terminal yes           the messages go to a terminal; `output`: the output does
//!     far 20                 there is a far end, whose answers take this many milliseconds; with another word it gives none
//!     line echoes            of a far end: what is sent comes back; with `bare` a CR comes as LF; with `lone` no LF comes; with
//!                            `echoes_lone` what is sent comes back, and no LF comes; with `doubled` a CR comes before each LF; with
//!                            `strays` a reply with id 6 comes before each reply to a request for 5004, with `starts` a sign-on; with
//!                            `alters` the reply to 2011 with id 3 has the height 1.7
//!     site target 0 1 2\n    of a far end: the instrument of this scene answers, as that of `serve`, in place of a new simulator each time
//!     refused 2              of a far end: this many connections are refused before one is made
//!     silent 500             of a far end: after this many milliseconds nothing is answered any more
//!     until 9000             of a far end: after this many milliseconds its monotonic clock can't be read any more

use crate::far_end::{FarEnd, Seen, paired_ends};
use crate::said::{Said, compare_seen};
use crate::site::Site;
use gc_console::{Oddities, Standard, Streams, run_program};
use gc_links::listen;
use gc_probes::{Case, CaseRuntime, Player, Told, input_of, port_of, text_of};
use std::alloc::{AllocError, Global};
use std::cell::RefCell;
use std::env::Args;
use std::fs::{File, Files};
use std::io::{self, ErrorKind, Read};
use std::net::{Net, TcpListener, TcpStream};
use std::time::Clock;

// An hour in milliseconds: how long the monotonic clock of a far end can be read, if the case doesn't say `until`.
const HOUR: u64 = 3_600_000;

/// Plays `.program`.
pub struct Program;

impl Player for Program {
    // Plays a case with a port that was free, and is held meanwhile unless the case wants it free. `Err`: no port could be
    // listened at.
    fn play(&self, rt: &HostRuntime, case: &Case<'_>, wrong: &mut Told) -> io::Result<()> {
        let listener = listen(rt, 0)?;
        let port = port_of(&listener);
        let _held = held(case, listener);
        play_at(rt, case, port, wrong);
        Ok(())
    }
}

// The listener, for a caller that keeps its port in use; `None`, and the listener is closed, if the case wants the port free.
fn held(case: &Case<'_>, listener: TcpListener) -> Option<TcpListener> {
    if case.is("port", "free") {
        return None;
    }
    Some(listener)
}

// Plays a case in which `PORT` stands for this port.
fn play_at(rt: &HostRuntime, case: &Case<'_>, port: u16, wrong: &mut Told) {
    let mut digits = Told::new(rt.alloc());
    digits.display(&port);
    play_named(rt, case, text_of(digits.as_bytes()), wrong);
}

// Plays a case in which `PORT` stands for these digits.
fn play_named(rt: &HostRuntime, case: &Case<'_>, port: &str, wrong: &mut Told) {
    let mut seen = RefCell::new(Seen::new(rt.alloc()));
    let mut said = Said::new(rt.alloc(), case.number("room", u64::MAX));
    let run = Run {
        alloc: rt.alloc(),
        case: *case,
        port,
    };
    run.play(rt, &seen, &mut said);
    said.compare(case, port, wrong);
    compare_seen(case, seen.get_mut(), wrong);
}

// A run of the program: the case that says how it is run, and the digits for which `PORT` stands in the case's words.
#[derive(Drop)]
struct Run<'a, 'b> {
    alloc: Global,
    case: Case<'a>,
    port: &'b str,
}

impl<'a, 'b> Run<'a, 'b> {
    // Runs the program over the system, or, if the case has `far`, at a far end. `far` is the milliseconds that an answer there
    // takes, or another word for a far end that gives no answers. What came there is noted in `seen`.
    fn play(&self, rt: &HostRuntime, seen: &RefCell<Seen>, said: &mut Said) {
        match self.case.value("far") {
            "" => self.run(rt, said),
            answer => self.run_far(rt, answer.parse::<u64>().ok(), seen, said),
        }
    }

    // Runs the program at a far end whose answers take `answer` milliseconds. `None`: it gives no answers. If the connection
    // can't be made, the program isn't run, and `said` has no status.
    fn run_far(
        &self,
        rt: &HostRuntime,
        answer: Option<u64>,
        seen: &RefCell<Seen>,
        said: &mut Said,
    ) {
        let site = RefCell::new(Site::of_case(self.alloc, &self.case));
        if let Ok(ends) = paired_ends(rt) {
            self.run(&far_end_of(&self.case, answer, &ends, seen, &site), said);
        }
    }

    // Runs the program over this runtime with the case's input. If memory runs out for the input, the program isn't run, and
    // `said` has no status.
    fn run<R: Net<Listener = TcpListener, Stream = TcpStream> + Clock + Files<File = File>>(
        &self,
        rt: &R,
        said: &mut Said,
    ) {
        if let Ok(input) = input_of(self.alloc, &self.case) {
            self.run_with_input(rt, input.as_slice(), said);
        }
    }

    // Runs the program with this input and the case's words and streams. `said` takes the output, the messages and the status,
    // which is `None` if the run ended with an error of the system.
    fn run_with_input<
        R: Net<Listener = TcpListener, Stream = TcpStream> + Clock + Files<File = File>,
    >(&self, rt: &R, input: &[u8], said: &mut Said) {
        let streams = Streams {
            input: Input {
                bytes: input,
                is_broken: self.case.is("reads", "fail"),
            },
            output: &mut said.output,
            messages: &mut said.messages,
        };
        let standard = standard_of(&self.case);
        said.status = run_program(rt, self.alloc, standard, self.words(), streams)
            .0
            .ok();
    }

    // The program's name and the words of the case after it. `Err`: the error that the program gets in their place, because the
    // case says so (`!no memory`, `!no text`), or memory ran out.
    fn words(&self) -> io::Result<Args> {
        match self.case.value("words") {
            "!no memory" => Err(io::Error::from(ErrorKind::OutOfMemory)),
            "!no text" => Err(io::Error::from(ErrorKind::InvalidData)),
            words => Ok(self.split_words(words)?),
        }
    }

    // The program's name, and after it these words, which have spaces between, the port in place of `PORT`. `Err`: memory ran
    // out.
    fn split_words(&self, words: &str) -> Result<Args, AllocError> {
        let mut all = Vec::new(self.alloc);
        push_word(self.alloc, "geocom", &mut all)?;
        for word in words.split(' ') {
            push_word(self.alloc, port_or_word(word, self.port), &mut all)?;
        }
        Ok(all.into_iter())
    }
}

// What the line of a case does to what is sent over it: `echoes`, `bare`, `lone`, `echoes_lone`, `doubled`, or nothing.
fn oddities_of(case: &Case<'_>) -> Oddities {
    let both = case.is("line", "echoes_lone");
    Oddities {
        echoes: both || case.is("line", "echoes"),
        bare: case.is("line", "bare"),
        lone: both || case.is("line", "lone"),
        doubled: case.is("line", "doubled"),
    }
}

// A runtime with the far end that a case has, over the connection with these two ends. Its answers take `answer`
// milliseconds; `None`: it gives none. What comes there is noted in `seen`, and the instrument of `site` answers, if there is one.
fn far_end_of<'a, 'b>(
    case: &Case<'_>,
    answer: Option<u64>,
    ends: &'a (TcpStream, TcpStream),
    seen: &'b RefCell<Seen>,
    site: &'b RefCell<Site>,
) -> CaseRuntime<FarEnd<'a, 'b>> {
    CaseRuntime {
        stand_in: FarEnd {
            ends,
            seen,
            answer,
            until: case.number("until", HOUR),
            refused: case.number("refused", 0),
            silent: case.number("silent", u64::MAX),
            odd: oddities_of(case),
            strays: case.is("line", "strays"),
            alters: case.is("line", "alters"),
            starts: case.is("line", "starts"),
            site,
        },
    }
}

// Which standard streams of a case are open, and whether its messages or its output go to a terminal.
fn standard_of(case: &Case<'_>) -> Standard {
    let closed = case.value("closed");
    Standard {
        input: !closed.contains("input"),
        output: !closed.contains("output"),
        messages: !closed.contains("messages"),
        terminal: case.is("terminal", "yes"),
        output_terminal: case.is("terminal", "output"),
    }
}

// The port if the word is `PORT`, and otherwise the word itself.
fn port_or_word<'a>(word: &'a str, port: &'a str) -> &'a str {
    if word == "PORT" { port } else { word }
}

// Appends a word, unless it is empty. `Err`: memory ran out, and nothing was appended.
fn push_word(alloc: Global, word: &str, all: &mut Vec<String>) -> Result<(), AllocError> {
    if !word.is_empty() {
        all.push(String::from_str(alloc, word)?)?;
    }
    Ok(())
}

// Standard input: these bytes, or one whose every read fails.
#[derive(Drop)]
struct Input<'a> {
    bytes: &'a [u8],
    is_broken: bool,
}

impl<'a> Read for Input<'a> {
    // Gives the next bytes, or fails if the input is broken.
    fn read(&mut self, buf: &mut [u8]) -> io::Result<usize> {
        if self.is_broken {
            return Err(io::Error::from(ErrorKind::BrokenPipe));
        }
        self.bytes.read(buf)
    }
}
