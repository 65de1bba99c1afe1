//! What the lines of a scene say together, of whatever kind the scene is.

ghost use Rattle.std.specs.Prelude.{◌≡◌, ◌≤◌, length, MatchOption};
ghost use Rattle.gc_scenes.specs.Laws.{still};
ghost use Rattle.gc_filters.specs.SceneParts.{ArePartsOf, AreRulesOf, AreTimesOf, IsBaseOf};
ghost use Rattle.gc_filters.specs.Scenes.{FitAnInstrument, HaveManyDelays, HaveManyRules, HaveManyTargets, OverfillAnInstrument, prism_of, prisms_of, ruled};
ghost use Rattle.gc_filters.specs.declared.scene_parts.TheConstants.{MOST_TARGETS};

use crate::scene_line::SceneLine;
use arrayvec::ArrayVec;
use gc_instrument::{SIMULATOR_SERIAL, Target, simulator_name};
use gc_scenes::{Delay, Fault, Prism, SceneRules, Scripted, Ways};
use gc_values::Text;

// The most targets of an instrument.
const MOST_TARGETS: usize = 32;

// The most faults of an instrument.
const MOST_FAULTS: usize = 32;

// The most replies of an instrument to procedures that aren't in the table.
const MOST_ANSWERS: usize = 16;

// The most delays of an instrument, of either kind.
const MOST_DELAYS: usize = 32;

// The most faults at which an instrument starts anew.
const MOST_STARTS: usize = 32;

/// What the lines of a scene say together.
#[derive(Drop)]
pub(crate) struct Parts {
    pub(crate) base: Base,
    pub(crate) rules: SceneRules,
    pub(crate) times: Times,
}

/// What lines say of any instrument.
#[derive(Drop)]
pub(crate) struct Base {
    pub(crate) serial: i32,
    pub(crate) name: Text,
    pub(crate) targets: ArrayVec<Target, MOST_TARGETS>,
}

/// What lines say of when an instrument replies, and when it starts anew.
#[derive(Drop)]
pub(crate) struct Times {
    pub(crate) starts: ArrayVec<Fault, MOST_STARTS>,
    pub(crate) delays: ArrayVec<Delay, MOST_DELAYS>,
    pub(crate) drops: bool,
    pub(crate) late: ArrayVec<Delay, MOST_DELAYS>,
}

/// What these lines say together. `None`: they have more of something than an instrument has room for.
pub(crate) fn parts_of(lines: &[SceneLine]) -> Option<Parts>
    ensures { MatchOption result (OverfillAnInstrument lines.now) (λ parts. FitAnInstrument lines.now × ArePartsOf lines.now parts) }
{
    let base = base_of(lines)?;
    let prisms = prisms_of(lines, base.targets.as_slice());
    let rules = rules_of(lines, prisms)?;
    let times = times_of(lines)?;
    Some(Parts { base, rules, times })
}

// The serial number and the name of the last lines that say one, or the simulator's, and the targets, in order. `None`: they
// are more than `MOST_TARGETS`.
fn base_of(lines: &[SceneLine]) -> Option<Base>
    ensures { MatchOption result (HaveManyTargets lines.now) (λ base. IsBaseOf lines.now base) }
{
    let mut serial = SIMULATOR_SERIAL;
    let mut name = simulator_name();
    let mut targets = ArrayVec::new();
    for line in lines {
        match *line {
            SceneLine::Serial(said) => serial = said,
            SceneLine::Name(said) => name = said,
            SceneLine::Target(target) => {
                if targets.try_push(target).is_err() {
                    return None;
                }
            }
            _ => {}
        }
    }
    Some(Base {
        serial,
        name,
        targets,
    })
}

// The rules that these lines set up, with these targets. Of several lines `noise` the last one counts. `None`: they have more
// than `MOST_FAULTS` or `MOST_ANSWERS`.
fn rules_of(lines: &[SceneLine], prisms: ArrayVec<Prism, MOST_TARGETS>) -> Option<SceneRules>
    ensures { MatchOption result (HaveManyRules lines.now) (λ rules. AreRulesOf lines.now prisms.items rules) }
{
    let mut faults: ArrayVec<Fault, MOST_FAULTS> = ArrayVec::new();
    let mut answers: ArrayVec<Scripted, MOST_ANSWERS> = ArrayVec::new();
    let mut noise = None;
    let mut repeats = true;
    let mut ways = Ways::none();
    for line in lines {
        match *line {
            SceneLine::Fault(fault) => {
                if faults.try_push(fault).is_err() {
                    return None;
                }
            }
            SceneLine::Answer(answer) => {
                if answers.try_push(answer).is_err() {
                    return None;
                }
            }
            SceneLine::Noise(said) => noise = Some(said),
            SceneLine::Behave(way) => ways = ways.with(way),
            SceneLine::NoRepeats => repeats = false,
            _ => {}
        }
    }
    Some(SceneRules {
        prisms,
        faults,
        answers,
        noise,
        repeats,
        ways,
    })
}

// The starts and the delays of these lines, in order, and whether the instrument drops what comes while it is busy: as the last line
// `busy` says. If there is none, it doesn't. `None`: they have more than `MOST_STARTS` or `MOST_DELAYS`.
fn times_of(lines: &[SceneLine]) -> Option<Times>
    ensures { MatchOption result (HaveManyDelays lines.now) (λ times. AreTimesOf lines.now times) }
{
    let mut starts = ArrayVec::new();
    let mut delays = ArrayVec::new();
    let mut drops = false;
    let mut late = ArrayVec::new();
    for line in lines {
        match *line {
            SceneLine::Start(start) => {
                if starts.try_push(start).is_err() {
                    return None;
                }
            }
            SceneLine::Delay(delay) => {
                if delays.try_push(delay).is_err() {
                    return None;
                }
            }
            SceneLine::Late(delay) => {
                if late.try_push(delay).is_err() {
                    return None;
                }
            }
            SceneLine::Queues => drops = false,
            SceneLine::Drops => drops = true,
            _ => {}
        }
    }
    Some(Times {
        starts,
        delays,
        drops,
        late,
    })
}

// The target as this line changes it, if the line is about the target with this number: `blocked` sets the looks in which it is
// hidden, and `drift` how it moves. Any other line leaves it as it is.
fn ruled(number: u32, line: &SceneLine, prism: &Prism) -> Prism
    ensures { result ≡ ruled number line.now prism.now }
{
    match *line {
        SceneLine::Blocked(blocked) if blocked.target == number => Prism {
            from: blocked.from,
            to: blocked.to,
            ..*prism
        },
        SceneLine::Drift(drift) if drift.target == number => Prism {
            drift: Some(drift.by),
            ..*prism
        },
        _ => *prism,
    }
}

// The target with this number, as all lines change it, one after the other. A target that no line changes is never hidden and doesn't
// move.
fn prism_of(number: u32, lines: &[SceneLine], target: Target) -> Prism
    ensures { result ≡ prism_of number lines.now (still target) }
{
    let mut prism = Prism::still(target);
    for line in lines {
        prism = ruled(number, line, &prism);
    }
    prism
}

// The targets as the lines change them; the first target has the number 1.
fn prisms_of(lines: &[SceneLine], targets: &[Target]) -> ArrayVec<Prism, MOST_TARGETS>
    requires { length targets.now ≤ MOST_TARGETS }
    ensures { result.items ≡ prisms_of lines.now 1 targets.now }
{
    let mut prisms = ArrayVec::new();
    let mut number = 1u32;
    for target in targets {
        // There is room, since there are at most `MOST_TARGETS` targets.
        let _ = prisms.try_push(prism_of(number, lines, *target));
        number = number.saturating_add(1);
    }
    prisms
}
