//! The instrument of a subcommand: that of a scene's file, or the simulator where none is named. Which instrument a scene sets up
//! depends on what its lines need: the execution table alone, rules, or, for `serve`, a clock.

ghost use Rattle.std.specs.Prelude.{◌≡◌, None, Ok, IfErr, IfOk};
ghost use Rattle.gc_console.specs.Staging.{GivesInstrument, GivesNoInstrument};

use crate::refusal::Refusal;
use gc_filters::{FromScene, SceneKind, SceneLine, StillForm, TimedForm, read_scene};
use gc_instrument::Instrument;
use gc_lines::{FromReader, Source};
use gc_scenes::{SceneInstrument, SlowInstrument};
use gc_texts::{RunFault, read_text};
use std::alloc::Global;
use std::fs::{File, Files};

/// The instrument that a scene sets up: that of the execution table, or one with rules, where a line of the scene is a rule.
#[derive(Drop)]
pub(crate) enum Staged {
    /// That of the execution table.
    Plain(Instrument),
    /// One with rules.
    Ruled(SceneInstrument),
}

/// The instrument that a scene sets up for `serve`, which has a clock: also one that needs the clock, where a line says so
/// (`delay`, `busy`, `behave clock`, `behave real`).
#[derive(Drop)]
pub(crate) enum Timed {
    /// One that needs no clock: its replies take no time.
    Still(Staged),
    /// One that needs the clock: its replies may take time.
    Slow(SlowInstrument),
}

/// An instrument that a scene sets up: `Staged`, or for `serve` `Timed`.
pub(crate) trait SetUp: Drop {
    ghost use Rattle.std.specs.Prelude.{ℕ, List};
    ghost use Rattle.gc_texts.specs.declared.fault.RunFault.{RunFault};

    /// The text is a scene, and this is the opening state of its instrument.
    ghost is: { List ℕ → Self → Type 0 };

    /// The text sets up no instrument, for this fault.
    ghost fails: { List ℕ → RunFault → Type 0 };

    /// The simulator.
    ghost simulator: { Self };

    /// The simulator.
    fn simulator() -> Self
        ensures { result ≡ simulator };

    /// Whether a line of the scene may need a clock.
    fn has_clock() -> bool;

    /// The instrument of a scene's text. `Schedule` names the first line that no such scene may have.
    fn of_text(alloc: Global, text: &[u8]) -> Result<Self, RunFault>
        ensures found { IfOk result (λ instrument. is text.now instrument) }
        ensures fault { IfErr result (λ e. fails text.now e) };
}

impl SetUp for Staged {
    ghost use Rattle.gc_instrument.specs.State.{simulator_opening};
    ghost use Rattle.gc_console.specs.Staging.{IsStaged, StagedFault};
    ghost use Rattle.gc_console.specs.declared.scene.Staged.TheVariants.{Plain};

    ghost is = { IsStaged };

    ghost fails = { StagedFault };

    ghost simulator = { Plain simulator_opening };

    fn simulator() -> Staged {
        Staged::Plain(Instrument::simulator())
    }

    fn has_clock() -> bool {
        false
    }

    fn of_text(alloc: Global, text: &[u8]) -> Result<Staged, RunFault> {
        read_scene::<StillForm, Staged>(alloc, text)
    }
}

impl FromScene for Staged {
    ghost use Rattle.gc_console.specs.Staging.{OpensStaged};

    ghost opens = { OpensStaged };

    // Without rules if no line is a rule, else with rules.
    fn from_lines(lines: &[SceneLine]) -> Option<Staged> {
        if SceneKind::Plain.takes_all(lines) {
            let instrument = Instrument::from_lines(lines)?;
            return Some(Staged::Plain(instrument));
        }
        let instrument = SceneInstrument::from_lines(lines)?;
        Some(Staged::Ruled(instrument))
    }
}

impl SetUp for Timed {
    ghost use Rattle.gc_instrument.specs.State.{simulator_opening};
    ghost use Rattle.gc_console.specs.Staging.{IsTimed, TimedStagedFault};
    ghost use Rattle.gc_console.specs.declared.scene.Staged.TheVariants.{Plain};
    ghost use Rattle.gc_console.specs.declared.scene.Timed.TheVariants.{Still};

    ghost is = { IsTimed };

    ghost fails = { TimedStagedFault };

    ghost simulator = { Still (Plain simulator_opening) };

    fn simulator() -> Timed {
        Timed::Still(Staged::simulator())
    }

    fn has_clock() -> bool {
        true
    }

    fn of_text(alloc: Global, text: &[u8]) -> Result<Timed, RunFault> {
        read_scene::<TimedForm, Timed>(alloc, text)
    }
}

impl FromScene for Timed {
    ghost use Rattle.gc_console.specs.Staging.{OpensTimedStage};

    ghost opens = { OpensTimedStage };

    // One that needs no clock if no line needs one, else one that needs the clock.
    fn from_lines(lines: &[SceneLine]) -> Option<Timed> {
        if SceneKind::Still.takes_all(lines) {
            let staged = Staged::from_lines(lines)?;
            return Some(Timed::Still(staged));
        }
        let slow = SlowInstrument::from_lines(lines)?;
        Some(Timed::Slow(slow))
    }
}

/// The instrument of the scene in a file, or the simulator if no file is named. The file is read to its end, or until it is found
/// too long, a read fails or memory is refused, and closed.
///
/// `Read` comes where the file can't be opened. The faults of its reading are those of `read_text`; those of a scene's text are
/// those of `of_text`. The clause speaks only of the simulator: what a file holds isn't known.
pub(crate) fn instrument_of<I: SetUp, R: Files>(
    rt: &R,
    alloc: Global,
    scene: Option<&str>,
) -> Result<I, Refusal>
    ensures simulator { scene.entry ≡ None → result ≡ Ok I.simulator }
{
    let Some(path) = scene else {
        return Ok(I::simulator());
    };
    let mut source = source_at(rt, path)?;
    instrument_in(alloc, &mut source)
}

// Opens the file at this path as a source. `Read` comes where it can't be opened.
fn source_at<R: Files>(rt: &R, path: &str) -> Result<FromReader<R::File>, Refusal> {
    match File::open(rt, path) {
        Ok(file) => Ok(FromReader::new(file)),
        Err(_) => Err(Refusal::Fault(RunFault::Read)),
    }
}

// The instrument of the scene that a source gives. The faults are those of `instrument_of`.
fn instrument_in<I: SetUp, S: Source>(alloc: Global, source: &mut S) -> Result<I, Refusal>
    // The whole of what the source gave is its text.
    ensures found { IfOk result (λ instrument. GivesInstrument I.is (S.remaining source.old) (S.remaining source.new) instrument) }

    // Either the source wasn't read to its end, or what it gave sets up no instrument, also for want of memory.
    ensures fault { IfErr result (λ r. GivesNoInstrument I.fails (S.remaining source.old) (S.remaining source.new) r) }
{
    let text = match read_text(alloc, source) {
        Ok(text) => text,
        Err(fault) => return Err(Refusal::Fault(fault)),
    };
    match I::of_text(alloc, text.as_slice()) {
        Ok(instrument) => Ok(instrument),
        Err(fault) => Err(Refusal::of(fault, text.as_slice(), I::has_clock())),
    }
}
