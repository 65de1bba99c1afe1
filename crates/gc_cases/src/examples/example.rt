//! One example: what goes in, and what must come out.

use crate::cases::{Engine, Setup, first_differing_recut};
use std::{fs, io};

/// The files of an example.
#[derive(Drop)]
pub struct Example {
    /// The engine, its input and, for an engine with a scene's instrument, the scene.
    pub setup: Setup,
    /// What the engine has to write.
    pub expected: Vec<u8>,
}

impl Example {
    /// Reads the example whose input is the file of this name. `None`: no input has such a name. `Err`: one of its files can't be
    /// read, or memory ran out.
    pub fn find(rt: &HostRuntime, name: &str) -> io::Result<Option<Example>> {
        match parts_of(name) {
            Some(parts) => Ok(Some(read_example(rt, name, parts)?)),
            None => Ok(None),
        }
    }

    /// Gives the input whole, in single bytes, and cut in two at each place, and returns the first of these ways in which the run
    /// goes wrong, in words that begin with a comma; empty if there is none. Given whole, it has to come to a good end and the
    /// expected output; given otherwise, to the same as whole. A run for which memory runs out goes wrong.
    pub fn fault(&self) -> &'static str {
        let whole = self.setup.run(&[]);
        if !whole.wrote(self.expected.as_slice()) {
            return ", whole";
        }
        match first_differing_recut(&self.setup, &whole, true) {
            Some(way) => way.words(),
            None => "",
        }
    }
}

// What the name of an example's input says of it.
#[derive(Clone, Copy)]
struct Parts<'a> {
    engine: Engine,
    // The name up to its first `.`; the names of the example's other files begin with it.
    stem: &'a str,
    // The ending of the name of the file of the expected output, which follows the stem and a `.`.
    ending: &'static str,
}

// What the name of an input says. `None`: no input has such a name.
fn parts_of(name: &str) -> Option<Parts<'_>> {
    let (stem, ending) = name.split_once('.')?;
    let (engine, ending) = engine_and_output(ending)?;
    Some(Parts {
        engine,
        stem,
        ending,
    })
}

// The engine of an input whose name has this ending, and the ending of its output's name. `None`: no input has it.
fn engine_and_output(ending: &str) -> Option<(Engine, &'static str)> {
    match ending {
        "requests" => Some((Engine::Exec, "replies")),
        "recording" => Some((Engine::Check, "verdicts")),
        "schedule" => Some((Engine::Drill, "expected")),
        "scene-requests" => Some((Engine::Rules, "scene-replies")),
        "scene-schedule" => Some((Engine::DrillRules, "scene-expected")),
        _ => None,
    }
}

// Reads the example whose input is the file of this name, which says `parts`: the input, the expected output, and, if the engine
// has a scene's instrument, the scene in the file whose name is the stem and then `.scene`. `Err`: one of these can't be read, or
// memory ran out.
fn read_example(rt: &HostRuntime, name: &str, parts: Parts<'_>) -> io::Result<Example> {
    let Parts {
        engine,
        stem,
        ending,
    } = parts;
    let output = format!(in rt.alloc(); "{stem}.{ending}")?;
    let input = fs::read(rt, name)?;
    let mut setup = Setup::new(rt.alloc(), engine, input);
    if engine == Engine::Rules || engine == Engine::DrillRules {
        let scene = format!(in rt.alloc(); "{stem}.scene")?;
        setup.scene = fs::read(rt, scene.as_str())?;
    }
    Ok(Example {
        setup,
        expected: fs::read(rt, output.as_str())?,
    })
}
