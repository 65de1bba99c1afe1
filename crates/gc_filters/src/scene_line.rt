//! The lines of scenes, of whatever kind: what each says, and which kinds of scenes may have it.

ghost use Rattle.std.specs.Prelude.{◌≡◌, IsFalse, IsTrue};
ghost use Rattle.gc_filters.specs.SceneLines.{IsLineOf, need_of, takes, takes_all, way_need};
ghost use Rattle.gc_filters.specs.declared.scene_line.SceneKind.{SceneKind};

use crate::scene_reading::read_scene_line;
use gc_instrument::Target;
use gc_scenes::{Delay, Fault, Noise, Offset, Scripted, Way};
use gc_texts::LineForm;
use gc_values::Text;

/// A line `blocked`: the target with this number is hidden in the looks from number `from` to number `to`. A look is a measurement or a
/// search of the instrument, of whichever target; looks are counted from 1, and so are targets.
#[derive(Clone, Copy)]
pub struct Blocked {
    pub target: u32,
    pub from: u32,
    pub to: u32,
}

/// A line `drift`: the target with this number, counted from 1, moves by an offset with each measurement of it.
#[derive(Clone, Copy)]
pub struct Drift {
    pub target: u32,
    pub by: Offset,
}

/// Which requests of its procedure a fault meets: not the first `after`, but the next `times`. Requests are counted up to
/// 4294967295, so a fault whose `after` and `times` add up to more never ends. Therefore 4294967295 `times` stand for "without
/// end"; but if `after` is 0, the fault ends after as many.
#[derive(Clone, Copy)]
pub struct Span {
    pub after: u32,
    pub times: u32,
}

/// What a line of a scene says.
#[derive(Clone, Copy)]
pub enum SceneLine {
    /// The instrument's serial number.
    Serial(i32),
    /// Its name.
    Name(Text),
    /// One more target.
    Target(Target),
    /// A procedure that is answered with a return code.
    Fault(Fault),
    /// The reply to a procedure that isn't in the table.
    Answer(Scripted),
    /// A target that is hidden in some looks.
    Blocked(Blocked),
    /// A target that moves.
    Drift(Drift),
    /// The most by which measurements deviate.
    Noise(Noise),
    /// The instrument has a way of real instruments, or all of them.
    Behave(Way),
    /// The instrument keeps no reply, so it treats a repeated request as a new one.
    NoRepeats,
    /// The reply to a procedure goes out later, by a number of milliseconds.
    Delay(Delay),
    /// The instrument starts anew at some requests of a procedure. The return code of the fault isn't used.
    Start(Fault),
    /// Lines that come while the instrument is busy wait in order.
    Queues,
    /// Lines that come while the instrument is busy are discarded.
    Drops,
    /// Requests of a procedure are answered at once, busy, and the reply comes later, by a number of milliseconds.
    Late(Delay),
}

/// What a line of a scene needs.
#[derive(Clone, Copy)]
pub(crate) enum Need {
    /// The execution table alone.
    Table,
    /// An instrument with rules.
    Rules,
    /// An instrument with rules whose clock runs.
    Clock,
    /// `serve`, which alone delays and discards lines, and restarts an instrument at a request.
    Serve,
    /// `rehearse`, which alone has late replies.
    Rehearsal,
}

/// A kind of scene: which lines it may have.
#[derive(Clone, Copy)]
pub enum SceneKind {
    /// A scene without rules.
    Plain,
    /// A scene with rules for an instrument without a clock.
    Still,
    /// A scene with rules.
    Ruled,
    /// A scene for `serve`.
    Timed,
    /// A scene for a rehearsal.
    Late,
}

impl SceneLine {
    /// What the line needs.
    pub(crate) fn need(&self) -> Need
        ensures { result ≡ need_of self.now }
    {
        match *self {
            SceneLine::Serial(_) | SceneLine::Name(_) | SceneLine::Target(_) => Need::Table,
            SceneLine::Behave(way) => way_need(way),
            SceneLine::Delay(_) | SceneLine::Start(_) | SceneLine::Queues | SceneLine::Drops => {
                Need::Serve
            }
            SceneLine::Late(_) => Need::Rehearsal,
            _ => Need::Rules,
        }
    }
}

// What a way of real instruments needs.
fn way_need(way: Way) -> Need
    ensures { result ≡ way_need way }
{
    match way {
        Way::Clock | Way::Real => Need::Clock,
        _ => Need::Rules,
    }
}

impl SceneKind {
    /// Whether a scene of this kind may have a line with this need.
    pub(crate) fn takes(self, need: Need) -> bool
        ensures { result ≡ takes self need }
    {
        match need {
            Need::Table => true,
            Need::Rules => !matches!(self, SceneKind::Plain),
            Need::Clock => !matches!(self, SceneKind::Plain | SceneKind::Still),
            Need::Serve => matches!(self, SceneKind::Timed),
            Need::Rehearsal => matches!(self, SceneKind::Late),
        }
    }

    /// Whether a scene of this kind may have all of these lines.
    pub fn takes_all(self, lines: &[SceneLine]) -> bool
        ensures { result ≡ takes_all self lines.now }
    {
        lines.iter().all(|line| self.takes(line.need()))
    }

    // Reads a line of a scene of this kind into `item`, and returns whether it is one. If it isn't, `item` stays.
    #[tactic(auto, using(crate::proofs::SceneWords::not_taken))]
    fn read(self, line: &[u8], item: &mut SceneLine) -> bool
        ensures found { IsTrue result → IsLineOf self line.now item.new }
        ensures none { IsFalse result → (other : SceneLine) → IsLineOf self line.now other → ⊥ }
    {
        match read_scene_line(line) {
            Ok(said) => {
                if !self.takes(said.need()) {
                    return false;
                }
                *item = said;
                true
            }
            Err(_) => false,
        }
    }
}

/// The form of the lines of a scene without rules.
pub struct PlainForm;

impl LineForm for PlainForm {
    type Item = SceneLine;

    ghost form = { IsLineOf SceneKind.Plain };

    fn blank() -> SceneLine {
        SceneLine::Queues
    }

    fn read(line: &[u8], says: &mut SceneLine) -> bool {
        SceneKind::Plain.read(line, says)
    }
}

/// The form of the lines of a scene with rules for an instrument without a clock.
pub struct StillForm;

impl LineForm for StillForm {
    type Item = SceneLine;

    ghost form = { IsLineOf SceneKind.Still };

    fn blank() -> SceneLine {
        SceneLine::Queues
    }

    fn read(line: &[u8], says: &mut SceneLine) -> bool {
        SceneKind::Still.read(line, says)
    }
}

/// The form of the lines of a scene with rules.
pub struct RuleForm;

impl LineForm for RuleForm {
    type Item = SceneLine;

    ghost form = { IsLineOf SceneKind.Ruled };

    fn blank() -> SceneLine {
        SceneLine::Queues
    }

    fn read(line: &[u8], says: &mut SceneLine) -> bool {
        SceneKind::Ruled.read(line, says)
    }
}

/// The form of the lines of a scene for `serve`.
pub struct TimedForm;

impl LineForm for TimedForm {
    type Item = SceneLine;

    ghost form = { IsLineOf SceneKind.Timed };

    fn blank() -> SceneLine {
        SceneLine::Queues
    }

    fn read(line: &[u8], says: &mut SceneLine) -> bool {
        SceneKind::Timed.read(line, says)
    }
}

/// The form of the lines of a scene for a rehearsal.
pub struct LateForm;

impl LineForm for LateForm {
    type Item = SceneLine;

    ghost form = { IsLineOf SceneKind.Late };

    fn blank() -> SceneLine {
        SceneLine::Queues
    }

    fn read(line: &[u8], says: &mut SceneLine) -> bool {
        SceneKind::Late.read(line, says)
    }
}
