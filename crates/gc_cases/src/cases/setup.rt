//! What a case says of a run: the engine, its input, and how many calls of each port are answered.

ghost use Rattle.gc_client.specs.Rule.{IsWidth};

use crate::cases::engines::push_single;
use crate::cases::outcome::{Returned, RunOutcome};
use crate::cases::scene_runs::reading_alone;
use crate::cases::sink::Taking;
use gc_ask::{Duplex, run_ask, run_loop_on};
use gc_filters::{
    PlainForm, Playable, RuleForm, StillForm, TimedForm, read_scene, run_check, run_check_log,
    run_drill_on, run_exec,
};
use gc_instrument::Instrument;
use gc_probes::{Case, PieceSource, Pipe, input_of, push_bytes_of};
use gc_scenes::{SceneInstrument, SlowInstrument};
use gc_texts::RunFault;
use std::alloc::{AllocError, Global};

/// Which engine a case goes through.
#[derive(Clone, Copy)]
pub enum Engine {
    /// `exec` on the simulator.
    Exec,
    /// The instrument of a scene without rules answers the input.
    Serve,
    /// `check` of the input.
    Check,
    /// `check` of the input as a log.
    CheckLog,
    /// `drill` of the input, on the instrument of a scene without rules.
    Drill,
    /// `ask` of the input's commands, over a link that gives what the case says.
    Ask,
    /// `loop` of the input's commands, with the instrument of a scene without rules.
    Loop,
    /// The input is read as a scene without rules.
    Scene,
    /// The instrument of a scene with rules answers the input.
    Rules,
    /// `drill` of the input, on the instrument of a scene with rules.
    DrillRules,
    /// The input is read as a scene with rules.
    RuleScene,
    /// The instrument of a scene whose replies take time answers the input, each line at its moment.
    Slow,
    /// The input is read as a scene whose replies may take time.
    TimedScene,
    /// The input is read as a scene with rules for an instrument without a clock.
    StillScene,
    /// The case names no engine.
    None,
}

/// How many calls of each port are answered before it fails.
#[derive(Clone, Copy)]
pub struct AnsweredCalls {
    /// Reads of the input.
    pub input: u64,
    /// Writes of the output.
    pub output: u64,
    /// Reads of the link by the client.
    pub link_in: u64,
    /// Writes to the link by the client.
    pub link_out: u64,
    /// Reads by the instrument of `loop`.
    pub instrument_in: u64,
    /// Writes by the instrument of `loop`.
    pub instrument_out: u64,
}

/// A port that fails, or what stands for one.
#[derive(Clone, Copy)]
pub enum Port {
    Input,
    Output,
    /// What the client reads from the link.
    LinkIn,
    /// What the client writes to the link.
    LinkOut,
    /// What the instrument of `loop` reads.
    InstrumentIn,
    /// What the instrument of `loop` writes.
    InstrumentOut,
    /// The number of reads that are allowed.
    Allowed,
}

/// The port that a word names. `None`: it names none.
pub fn port_named(word: &str) -> Option<Port> {
    match word {
        "input" => Some(Port::Input),
        "output" => Some(Port::Output),
        "link-in" => Some(Port::LinkIn),
        "link-out" => Some(Port::LinkOut),
        "instrument-in" => Some(Port::InstrumentIn),
        "instrument-out" => Some(Port::InstrumentOut),
        "allowed" => Some(Port::Allowed),
        _ => None,
    }
}

/// How a run is set up.
#[derive(Drop)]
pub struct Setup {
    /// Where the run takes memory.
    pub alloc: Global,
    pub engine: Engine,
    pub input: Vec<u8>,
    /// The sizes of the pieces in which the input comes.
    pub sizes: Vec<usize>,
    /// What the link of `ask` gives, whatever is sent.
    pub link: Vec<u8>,
    /// The sizes of the pieces in which the link gives it.
    pub link_sizes: Vec<usize>,
    /// The text of the scene whose instrument answers.
    pub scene: Vec<u8>,
    /// At which moments the scene's instrument gets the lines of the input, in milliseconds. If there are none, it gets no
    /// moment.
    pub moments: Vec<usize>,
    /// How many reads are allowed.
    pub allowed: u32,
    pub answers: AnsweredCalls,
    /// The most bytes that one write of the output takes.
    pub most: usize,
    /// The most bytes that one write of the link takes.
    pub link_most: usize,
    /// Whether a drill prints its totals.
    pub totals: bool,
    /// The width of a drill's window, as the case says it; `width_of` says which ones count.
    pub width: u8,
}

// The engine that a word names; `Engine::None` if it names none. `totals` is a drill that prints its totals, which `take_numbers`
// sees.
fn engine_of(word: &str) -> Engine {
    match word {
        "exec" => Engine::Exec,
        "serve" => Engine::Serve,
        "check" => Engine::Check,
        "check-log" => Engine::CheckLog,
        "drill" | "totals" => Engine::Drill,
        "ask" => Engine::Ask,
        "loop" => Engine::Loop,
        "scene" => Engine::Scene,
        "rules" => Engine::Rules,
        "drill-rules" => Engine::DrillRules,
        "rule-scene" => Engine::RuleScene,
        "slow" => Engine::Slow,
        "timed-scene" => Engine::TimedScene,
        "still-scene" => Engine::StillScene,
        _ => Engine::None,
    }
}

/// How many requests may be outstanding, by the width that a case says: 1 to 6 as they are, and 7 for any other.
pub(crate) fn width_of(width: u8) -> u8
    ensures { IsWidth result }
{
    match width {
        1..=6 => width,
        _ => 7,
    }
}

// Appends the sizes, or moments, of a text: words with a space between two, of which those that are no number are skipped; or
// `N x M`, N times the number M. `Err`: memory ran out, and some of them may be appended.
fn push_sizes(sizes: &mut Vec<usize>, text: &str) -> Result<(), AllocError> {
    if let Some((times, size)) = text.split_once(" x ") {
        return push_times(sizes, times, size);
    }
    for word in text.split(' ') {
        if let Ok(size) = word.parse::<usize>() {
            sizes.push(size)?;
        }
    }
    Ok(())
}

// Appends the size that `size` writes as many times as `times` says. Either of the two that is no number counts as 0. `Err`: as
// `push_sizes`.
fn push_times(sizes: &mut Vec<usize>, times: &str, size: &str) -> Result<(), AllocError> {
    let size = size.parse::<usize>().unwrap_or(0);
    for _ in 0..times.parse::<u64>().unwrap_or(0) {
        sizes.push(size)?;
    }
    Ok(())
}

impl Setup {
    /// A run of an engine over an input, which comes in as few pieces as the reads allow, with ports that don't fail but for
    /// memory: a write of the output takes at most 5 bytes, one of the link 1000. The link gives nothing, the scene is an empty
    /// text, there are no moments, and a drill prints its totals and has a window of 7.
    pub fn new(alloc: Global, engine: Engine, input: Vec<u8>) -> Setup {
        Setup {
            alloc,
            engine,
            input,
            sizes: Vec::new(alloc),
            link: Vec::new(alloc),
            link_sizes: Vec::new(alloc),
            scene: Vec::new(alloc),
            moments: Vec::new(alloc),
            allowed: u32::MAX,
            answers: AnsweredCalls {
                input: u64::MAX,
                output: u64::MAX,
                link_in: u64::MAX,
                link_out: u64::MAX,
                instrument_in: u64::MAX,
                instrument_out: u64::MAX,
            },
            most: 5,
            link_most: 1000,
            totals: true,
            width: 7,
        }
    }

    /// A run without an engine and without input, before a case says what they are.
    pub fn unset(alloc: Global) -> Setup {
        Setup::new(alloc, Engine::None, Vec::new(alloc))
    }

    /// Sets up a run that is unset, as a case says. `Err`: memory ran out.
    pub fn take(&mut self, case: &Case<'_>) -> Result<(), AllocError> {
        self.engine = engine_of(case.value("engine"));
        self.take_numbers(case);
        self.input = input_of(self.alloc, case)?;
        self.take_lists(case)
    }

    // Takes from a case the sizes of the input's pieces, what the link gives and in which pieces, the moments, and the scene.
    // `Err`: memory ran out.
    fn take_lists(&mut self, case: &Case<'_>) -> Result<(), AllocError> {
        push_sizes(&mut self.sizes, case.value("sizes"))?;
        push_bytes_of(&mut self.link, case.value("link"))?;
        push_sizes(&mut self.link_sizes, case.value("link-sizes"))?;
        push_sizes(&mut self.moments, case.value("moments"))?;
        push_bytes_of(&mut self.scene, case.value("scene"))
    }

    // Takes from a case how many reads are allowed, how many calls of the input, the output and the client's link are answered,
    // how many bytes a write takes, whether a drill prints its totals (the engine `totals`), and its width. A number that the
    // case doesn't have stays. How many calls of the instrument's ports are answered, only `fail_at` says.
    fn take_numbers(&mut self, case: &Case<'_>) {
        self.allowed = case.number("allowed", self.allowed);
        self.answers.input = case.number("reads", self.answers.input);
        self.answers.output = case.number("taken", self.answers.output);
        self.answers.link_in = case.number("link-reads", self.answers.link_in);
        self.answers.link_out = case.number("link-taken", self.answers.link_out);
        self.most = case.number("most", self.most);
        self.link_most = case.number("link-most", self.link_most);
        self.totals = case.is("engine", "totals");
        self.width = case.number("width", self.width);
    }

    /// Has a port fail at its call k, counted from 0.
    pub fn fail_at(&mut self, port: Port, k: u64) {
        match port {
            Port::Input => self.answers.input = k,
            Port::Output => self.answers.output = k,
            Port::LinkIn => self.answers.link_in = k,
            Port::LinkOut => self.answers.link_out = k,
            Port::InstrumentIn => self.answers.instrument_in = k,
            Port::InstrumentOut => self.answers.instrument_out = k,
            Port::Allowed => self.allowed = u32::try_from(k).unwrap_or(u32::MAX),
        }
    }

    /// Whether the input in single bytes comes to `whole`, which it came to in as few pieces as the reads allow; `false`, too, if
    /// memory runs out for the sizes.
    pub fn is_same_in_single_bytes(&self, whole: &RunOutcome) -> bool {
        let mut ones = Vec::new(self.alloc);
        push_single(&mut ones, self.input.as_slice()).is_ok()
            && self.comes_to(ones.as_slice(), whole)
    }

    /// Whether the input, cut in two, comes to `whole` at each place of the cut; `true` for an input of at most one byte.
    pub fn is_same_cut_in_two(&self, whole: &RunOutcome) -> bool {
        for place in 1..self.input.len() {
            if !self.comes_to(&[place], whole) {
                return false;
            }
        }
        true
    }

    // Whether the input in pieces of these sizes comes to `whole`, as `RunOutcome::is_same_as` says.
    fn comes_to(&self, sizes: &[usize], whole: &RunOutcome) -> bool {
        self.run(sizes).is_same_as(whole)
    }

    /// Runs the engine over the input in pieces of these sizes, with what is behind the last one in as few pieces as the reads
    /// allow, and returns how it ended, what it wrote and what it sent over the link.
    pub fn run(&self, sizes: &[usize]) -> RunOutcome {
        let output = Taking::new(self.alloc, self.most, self.answers.output);
        let link = Taking::new(self.alloc, self.link_most, self.answers.link_out);
        let mut came = RunOutcome::new(self.alloc, output, link);
        let mut source = PieceSource::new(self.input.as_slice(), sizes, self.answers.input);
        let returned = self.run_on(&mut source, &mut came);
        came.end.set(returned);
        came
    }

    // Runs the engine over this source, the link and the output of `came`, and returns what it returned. `Slow`, `Rules` with
    // moments, and each engine that only reads a scene take the input as a whole, and nothing from the source.
    fn run_on(&self, source: &mut PieceSource<'_>, came: &mut RunOutcome) -> Returned {
        let text = self.input.as_slice();
        let output = &mut came.output;
        match self.engine {
            Engine::Exec => Returned::Served(run_exec(source, output, self.allowed)),
            Engine::Check => Returned::Served(run_check(source, output, self.allowed)),
            Engine::CheckLog => Returned::Served(run_check_log(source, output, self.allowed)),
            Engine::Serve => self.serve(source, output),
            Engine::Rules => self.serve_rules(source, output),
            Engine::Slow => self.serve_slow(output),
            Engine::Drill => Returned::Run(self.drill(source, output)),
            Engine::DrillRules => Returned::Run(self.drill_rules(source, output)),
            Engine::Ask => Returned::Run(self.ask(source, &mut came.link, output)),
            Engine::Loop => Returned::Run(self.ask_in_a_loop(source, output)),
            Engine::Scene => reading_alone(read_scene::<PlainForm, Instrument>(self.alloc, text)),
            Engine::RuleScene => reading_alone(read_scene::<RuleForm, SceneInstrument>(
                self.alloc, text,
            )),
            Engine::TimedScene => reading_alone(read_scene::<TimedForm, SlowInstrument>(
                self.alloc, text,
            )),
            Engine::StillScene => reading_alone(read_scene::<StillForm, SceneInstrument>(
                self.alloc, text,
            )),
            Engine::None => Returned::NoEngine,
        }
    }

    // Drills the input on the instrument of the scene, which has no rules. `Err`: the fault of the scene, or of the drill.
    fn drill(&self, source: &mut PieceSource<'_>, output: &mut Taking) -> Result<(), RunFault> {
        let instrument = read_scene::<PlainForm, Instrument>(self.alloc, self.scene.as_slice())?;
        self.drill_on(instrument, source, output)
    }

    // Drills the input on the instrument of the scene, which has rules. `Err`: the fault of the scene, or of the drill.
    fn drill_rules(
        &self,
        source: &mut PieceSource<'_>,
        output: &mut Taking,
    ) -> Result<(), RunFault> {
        let instrument = read_scene::<StillForm, SceneInstrument>(
            self.alloc,
            self.scene.as_slice(),
        )?;
        self.drill_on(instrument, source, output)
    }

    // Drills the input on this instrument. `Err`: the fault of the drill.
    fn drill_on<I: Playable>(
        &self,
        instrument: I,
        source: &mut PieceSource<'_>,
        output: &mut Taking,
    ) -> Result<(), RunFault> {
        run_drill_on(
            self.alloc,
            instrument,
            source,
            output,
            self.totals,
            width_of(self.width),
        )
    }

    // Asks the commands of the input over a link that gives what the case says, whatever is sent to it. `Err`: as `run_ask` says.
    fn ask(
        &self,
        source: &mut PieceSource<'_>,
        link_out: &mut Taking,
        output: &mut Taking,
    ) -> Result<(), RunFault> {
        let mut link_in = PieceSource::new(
            self.link.as_slice(),
            self.link_sizes.as_slice(),
            self.answers.link_in,
        );
        run_ask(
            self.alloc,
            source,
            &mut link_in,
            link_out,
            output,
            self.allowed,
        )
    }

    // Asks the commands of the input over two pipes, with the scene's instrument at their other end. `Err`: as `loop_over`.
    fn ask_in_a_loop(
        &self,
        source: &mut PieceSource<'_>,
        output: &mut Taking,
    ) -> Result<(), RunFault> {
        let (up, down) = (Pipe::new(self.alloc), Pipe::new(self.alloc));
        self.loop_over(&up, &down, source, output)
    }

    // Asks the commands of `source` over two pipes: the client writes to `up` and reads from `down`, and the scene's instrument
    // does the reverse. A write takes as many bytes as the case says at most, or 1 if it says 0. `Err`: the fault of the scene,
    // or as `run_loop_on` says.
    fn loop_over(
        &self,
        up: &Pipe,
        down: &Pipe,
        source: &mut PieceSource<'_>,
        output: &mut Taking,
    ) -> Result<(), RunFault> {
        let most = self.link_most.max(1);
        let mut client = Duplex {
            source: down.source(self.answers.link_in),
            sink: up.sink(most, self.answers.link_out),
        };
        let mut instrument_end = Duplex {
            source: up.source(self.answers.instrument_in),
            sink: down.sink(most, self.answers.instrument_out),
        };
        run_loop_on(
            self.alloc,
            read_scene::<PlainForm, Instrument>(self.alloc, self.scene.as_slice())?,
            source,
            &mut client,
            &mut instrument_end,
            output,
            self.allowed,
        )
    }
}
