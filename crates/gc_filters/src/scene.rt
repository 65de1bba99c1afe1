//! The text of a scene, of whatever kind, read into the instrument that it sets up.

ghost use Rattle.std.specs.Prelude.{◌≡◌, Err, IfErr, IfOk};
ghost use Rattle.gc_texts.specs.LineForms.{FirstFaulty, NamesFaulty, RefusesLong};
ghost use Rattle.gc_texts.specs.declared.fault.RunFault.{RunFault};
ghost use Rattle.gc_filters.specs.Scenes.{IsOverfull, SceneFault, SetsUp, is_late};

use crate::scene_line::SceneLine;
use crate::scene_parts::{Parts, parts_of};
use arrayvec::ArrayVec;
use gc_instrument::Instrument;
use gc_scenes::{Delay, SceneInstrument, SlowInstrument};
use gc_texts::{LineForm, RunFault, read_items};
use std::alloc::Global;

/// An instrument that the lines of a scene set up.
pub trait FromScene: Drop {
    ghost use Rattle.std.specs.Prelude.{List, MatchOption};
    ghost use Rattle.gc_filters.specs.Scenes.{FitAnInstrument, OverfillAnInstrument};
    ghost use Rattle.gc_filters.specs.declared.scene_line.SceneLine.{SceneLine};

    /// The instrument is the one that the lines set up, in its opening state.
    ghost opens: { List SceneLine → Self → Type 0 };

    /// The instrument that these lines set up. `None`: they have more of something than an instrument has room for.
    fn from_lines(lines: &[SceneLine]) -> Option<Self>
        ensures { MatchOption result (OverfillAnInstrument lines.now)
            (λ instrument. FitAnInstrument lines.now × opens lines.now instrument) };
}

impl FromScene for Instrument {
    ghost use Rattle.gc_filters.specs.Scenes.{OpensPlain};

    ghost opens = { OpensPlain };

    fn from_lines(lines: &[SceneLine]) -> Option<Instrument> {
        let Parts { base, .. } = parts_of(lines)?;
        Instrument::new(base.serial, base.name, base.targets.as_slice()).ok()
    }
}

impl FromScene for SceneInstrument {
    ghost use Rattle.gc_filters.specs.Scenes.{OpensRuled};

    ghost opens = { OpensRuled };

    fn from_lines(lines: &[SceneLine]) -> Option<SceneInstrument> {
        let Parts { base, rules, .. } = parts_of(lines)?;
        Some(SceneInstrument::new(base.serial, base.name, rules))
    }
}

impl FromScene for SlowInstrument {
    ghost use Rattle.gc_filters.specs.Scenes.{OpensTimed};

    ghost opens = { OpensTimed };

    fn from_lines(lines: &[SceneLine]) -> Option<SlowInstrument> {
        let Parts { base, rules, times } = parts_of(lines)?;
        let scene = SceneInstrument::new(base.serial, base.name, rules);
        Some(SlowInstrument::new(scene, times.starts, times.delays, times.drops))
    }
}

/// The instrument of a scene for a rehearsal, in its opening state.
#[derive(Drop)]
pub struct LateScene {
    pub instrument: SceneInstrument,
    /// After how many milliseconds the replies to some procedures come, behind one that says busy; of several for one procedure the last
    /// one counts.
    pub delays: ArrayVec<Delay, 32>,
}

impl LateScene {
    /// Whether it sends some replies late.
    pub fn is_late(&self) -> bool
        ensures { result ≡ is_late self.now }
    {
        !self.delays.as_slice().is_empty()
    }
}

impl FromScene for LateScene {
    ghost use Rattle.gc_filters.specs.Scenes.{OpensLate};

    ghost opens = { OpensLate };

    fn from_lines(lines: &[SceneLine]) -> Option<LateScene> {
        let Parts { base, rules, times } = parts_of(lines)?;
        let instrument = SceneInstrument::new(base.serial, base.name, rules);
        Some(LateScene {
            instrument,
            delays: times.late,
        })
    }
}

/// Reads the text of a scene whose lines have the form `F`, and returns the instrument that it sets up, in its opening state.
///
/// In `PlainForm` a line is `serial N`, `name TEXT` or `target HZ V DISTANCE`. In the other forms it may also be a rule:
/// `fault RPC RC [after COUNT] [for COUNT]`, `answer RPC RC[,PARAMS]`, `blocked TARGET FROM TO`, `drift TARGET HZ V D`,
/// `noise HZ V D SEED`, `repeats no`, or `behave` with one of the words `faces`, `aims`, `takes`, `values`, `clock`, and `real`, which
/// stands for these five; but `behave clock` and `behave real`, which ask for a clock, have no form in `StillForm`. In `TimedForm` it may
/// also be `delay RPC MS`, `busy queue`, `busy drop` or `fault RPC restart [after COUNT] [for COUNT]`, and in `LateForm`
/// `behave busy-then-late RPC MS`. Empty lines and those that begin with `#` are skipped.
///
/// Angles are in radians and distances in metres, each a decimal at most 10^13 from zero; MS is in milliseconds, at most 3,600,000. N is a
/// whole number of 32 bits, and TEXT has at most 64 bytes, without a double quote or a CR. Targets and looks are counted from 1.
///
/// Of several serial numbers, names, lines `noise` or `busy`, lines `blocked` or `drift` of one target, or delays of one procedure, the last
/// one counts; of several lines `answer` of one procedure the first; and of several lines `fault` of one procedure the first that meets the
/// request. If there is no serial number or name, the instrument has the simulator's. The targets are those of the text alone, in its
/// order. A line `blocked` or `drift` of a target that the scene doesn't have changes nothing. Without a line `busy` the instrument queues.
///
/// `InputTooLong` refuses a text of more than 65,536 bytes, before any line is looked at. `Schedule` names the first line that has no form,
/// counted from 1. `SceneFull` refuses more than 32 targets, faults, starts or delays, or 16 replies, if each line has a form. `Memory`
/// comes only where the list of lines couldn't grow, at a line that has a form.
pub fn read_scene<F: LineForm<Item = SceneLine>, I: FromScene>(
    alloc: Global,
    text: &[u8],
) -> Result<I, RunFault>
    ensures found { IfOk result (λ instrument. SetsUp F.form I.opens text.now instrument) }
    ensures too_long { RefusesLong text.now result }
    ensures faulty { NamesFaulty (FirstFaulty F.form text.now) result }
    ensures full { result ≡ Err RunFault.SceneFull → IsOverfull F.form text.now }
    ensures faults { IfErr result (λ e. SceneFault F.form text.now e) }
{
    let lines = read_items::<F>(alloc, text)?;
    match I::from_lines(lines.as_slice()) {
        Some(instrument) => Ok(instrument),
        None => Err(RunFault::SceneFull),
    }
}
