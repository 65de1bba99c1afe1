//! Troubles of scenes: what is at fault in a faulty line of a scene, and what is printed of it.

ghost use Rattle.std.specs.Prelude.{◌≡◌, ◌++◌, IsTrue, codes};
ghost use Rattle.gc_lines.specs.Ports.{WritesIfOk};
ghost use Rattle.gc_texts.specs.Faults.{run_fault_text, fault_line};
ghost use Rattle.gc_texts.specs.declared.fault.RunFault.{RunFault};
ghost use Rattle.gc_filters.specs.SceneLines.{SaysRestart};
ghost use Rattle.gc_filters.specs.SceneTroubles.{BeginsWith, IsSceneTrouble, NeedsClock, form_text, scene_trouble_line, scene_trouble_text};
ghost use Rattle.gc_filters.specs.declared.scene_trouble.SceneWord.{SceneWord};

use crate::scene_line::SceneLine;
use crate::scene_reading::{read_scene_line, says_restart, word_of};
use gc_texts::{RunFault, before, is_word};
use std::io::{self, Write};

/// A word that a line of a scene begins with.
#[derive(Clone, Copy)]
pub enum SceneWord {
    Serial,
    Name,
    Target,
    Fault,
    Answer,
    Blocked,
    Drift,
    Noise,
    Repeats,
    Behave,
    Delay,
    Busy,
}

/// What is at fault in a faulty line of a scene. The texts are this project's own.
#[derive(Clone, Copy)]
pub enum SceneTrouble {
    /// No line of a scene begins with the line's first word.
    NoWord,
    /// The line needs a clock, which `serve` alone has.
    Clock,
    /// The line is a fault with the word `restart`, which `serve` alone takes.
    Restart,
    /// The line says that replies to a procedure come late, which `rehearse` alone takes.
    Late,
    /// The line begins with this word, but hasn't its form, and no single field is named: it has too few fields or too many, or what
    /// follows the fields doesn't read (of `repeats`, `behave` and `busy`, all that follows the word), or the parameters of `answer` are
    /// too long for a reply.
    Form(SceneWord),
    /// The serial number is no whole number of 32 bits.
    Serial,
    /// The name has more than 64 bytes, a double quote or a carriage return.
    Name,
    /// The procedure is no number up to 65535.
    Rpc,
    /// The return code is no number up to 65535, nor, in a line `fault`, the word `restart`.
    Rc,
    /// The number of the target is no number up to 32.
    Target,
    /// The first look of a line `blocked` is no number up to 4294967295.
    From,
    /// The last look of a line `blocked` is no number up to 4294967295.
    To,
    /// The horizontal angle is no decimal, or more than 10^13 from zero, rounded to 24 places.
    Hz,
    /// The vertical angle is no decimal, or more than 10^13 from zero, rounded to 24 places.
    V,
    /// The distance is no decimal, or more than 10^13 from zero, rounded to 24 places.
    Distance,
    /// The seed of a line `noise` is no number up to 4294967295.
    Seed,
    /// The delay is no number up to 3600000.
    Ms,
    /// The procedure of a line `answer`, which has this number, is in the table: `answer` is for other procedures.
    InTable(u16),
    /// The parameters of a line `answer` can't be those of any request, and so not of a reply.
    Params,
}

impl SceneWord {
    // How a line with this word is written.
    fn form(self) -> &'static str
        ensures { result.now ≡ form_text self }
    {
        match self {
            SceneWord::Serial => "serial N",
            SceneWord::Name => "name TEXT",
            SceneWord::Target => "target HZ V DISTANCE",
            SceneWord::Fault => {
                "fault RPC RC [after COUNT] [for COUNT] or fault RPC restart [after COUNT] [for COUNT]"
            }
            SceneWord::Answer => "answer RPC RC[,PARAMS]",
            SceneWord::Blocked => "blocked TARGET FROM TO",
            SceneWord::Drift => "drift TARGET HZ V D",
            SceneWord::Noise => "noise HZ V D SEED",
            SceneWord::Repeats => "repeats no",
            SceneWord::Behave =>
                "behave faces, aims, takes, values, clock or real, or behave busy-then-late RPC MS",
            SceneWord::Delay => "delay RPC MS",
            SceneWord::Busy => "busy queue or busy drop",
        }
    }
}

impl SceneTrouble {
    /// Writes the trouble of the scene's line with this number, counted from 1: the program's name, the number, and what is at fault.
    /// `Err`: it couldn't be written whole.
    pub fn tell<E: Write>(self, line: u32, messages: &mut E) -> io::Result<()>
        ensures { WritesIfOk E.contents messages.old messages.new result (scene_trouble_line line self) }
    {
        write!(messages, "geocom: line {line} of the scene: ")?;
        self.tell_fault(messages)
    }

    /// Writes the fault of a scene whose line with this number, counted from 1, doesn't parse (`Schedule`), and then the trouble of that
    /// line (`tell`). `Err`: they couldn't be written whole.
    pub fn tell_with_fault<E: Write>(self, line: u32, messages: &mut E) -> io::Result<()>
        ensures { WritesIfOk E.contents messages.old messages.new result
            (fault_line (run_fault_text (RunFault.Schedule line)) ++ scene_trouble_line line self) }
    {
        RunFault::Schedule { line }.tell(messages)?;
        self.tell(line, messages)
    }

    // Writes what is at fault, and a line feed.
    fn tell_fault<E: Write>(self, messages: &mut E) -> io::Result<()>
        ensures { WritesIfOk E.contents messages.old messages.new result (scene_trouble_text self ++ codes "\n") }
    {
        match self {
            SceneTrouble::NoWord => writeln!(messages, "no line of a scene begins so"),
            SceneTrouble::Clock => writeln!(messages, "serve alone has a clock"),
            SceneTrouble::Restart => {
                writeln!(messages, "serve alone restarts an instrument at a request")
            }
            SceneTrouble::Late => writeln!(messages, "rehearse alone has late replies"),
            SceneTrouble::Form(word) => tell_form(word.form(), messages),
            SceneTrouble::Serial => writeln!(messages, "N is no whole number of 32 bits"),
            SceneTrouble::Name => writeln!(
                messages,
                "TEXT has more than 64 bytes, a double quote or a carriage return"
            ),
            SceneTrouble::Rpc => writeln!(messages, "RPC is no number up to 65535"),
            SceneTrouble::Rc => writeln!(messages, "RC is no number up to 65535"),
            SceneTrouble::Target => writeln!(messages, "TARGET is no number up to 32"),
            SceneTrouble::From => writeln!(messages, "FROM is no number up to 4294967295"),
            SceneTrouble::To => writeln!(messages, "TO is no number up to 4294967295"),
            SceneTrouble::Hz => writeln!(messages, "HZ is no decimal"),
            SceneTrouble::V => writeln!(messages, "V is no decimal"),
            SceneTrouble::Distance => writeln!(messages, "the distance is no decimal"),
            SceneTrouble::Seed => writeln!(messages, "SEED is no number up to 4294967295"),
            SceneTrouble::Ms => writeln!(messages, "MS is no number up to 3600000"),
            SceneTrouble::InTable(rpc) => {
                writeln!(
                    messages,
                    "{rpc} is in the table: answer is for other procedures"
                )
            }
            SceneTrouble::Params => {
                writeln!(
                    messages,
                    "PARAMS has more than 16 parameters, a double quote without its end, or too many bytes"
                )
            }
        }
    }
}

// Writes that the line should have this form, and a line feed.
fn tell_form<E: Write>(form: &str, messages: &mut E) -> io::Result<()>
    ensures { WritesIfOk E.contents messages.old messages.new result (codes "the form is " ++ form.now ++ codes "\n") }
{
    writeln!(messages, "the form is {form}")
}

/// What is at fault in a faulty line of a scene. `has_clock`: the scene is read for `serve`, which has a clock, and starts an instrument
/// anew at a request. Of a line that isn't faulty
/// the result says nothing.
///
/// It is the first of these that holds:
/// - `Clock`: the line needs a clock, and `has_clock` isn't set;
/// - `Restart`: the line begins with `fault`, its third word is `restart`, and `has_clock` isn't set;
/// - `Late`: the line says that replies to a procedure come late, in its whole form;
/// - `NoWord`: no line of a scene begins with the line's first word;
/// - `Form`: the line has too few fields, or too many. This isn't asked of `name` and `answer`, nor of `fault` whether it has too many;
/// - a field doesn't read: the result names the first such field;
/// - `InTable`, `Params`: in a line `answer`, the procedure is in the table, or no request can have the parameters;
/// - `Form`: none of the others.
///
/// The clause says only that the result holds of the line, and not that it is the first.
pub fn scene_trouble_of(line: &[u8], has_clock: bool) -> SceneTrouble
    ensures { IsSceneTrouble line.now result }
{
    if !has_clock && needs_clock(line) {
        return SceneTrouble::Clock;
    }
    if !has_clock && is_start(line) {
        return SceneTrouble::Restart;
    }
    let Some(word) = word_of(before(b' ', line)) else {
        return SceneTrouble::NoWord;
    };
    match read_scene_line(line) {
        Err(trouble) => trouble,
        Ok(SceneLine::Late(_)) => SceneTrouble::Late,
        Ok(_) => SceneTrouble::Form(word),
    }
}

// Whether a line needs a clock, which `serve` alone has: it gives the instrument one, or it begins with `delay` or `busy`.
fn needs_clock(line: &[u8]) -> bool
    ensures { IsTrue result → NeedsClock line.now }
{
    let first = before(b' ', line);
    is_word(b"behave clock", line)
        || is_word(b"behave real", line)
        || is_word(b"delay", first)
        || is_word(b"busy", first)
}

// Whether the first word of a line is `fault`, and its third one `restart`.
fn is_start(line: &[u8]) -> bool
    ensures { IsTrue result → BeginsWith SceneWord.Fault line.now × SaysRestart line.now }
{
    is_word(b"fault", before(b' ', line)) && says_restart(line)
}
