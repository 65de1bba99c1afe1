//! The rules of a scene.

ghost use Rattle.std.specs.Prelude.{◌<◌, ◌≤◌, length};
ghost use Rattle.gc_scenes.specs.Params.{scripted_params};

use crate::ways::Ways;
use arrayvec::ArrayVec;
use gc_catalogue::RawCall;
use gc_instrument::{Pointing, Target};
use gc_values::Decimal;

/// What is added to a target: to its horizontal direction and its vertical angle, in radians, and to its distance, in metres.
#[derive(Clone, Copy)]
pub struct Offset {
    pub hz: Decimal,
    pub v: Decimal,
    pub distance: Decimal,
}

/// A target of a scene: where it is; the offset by which it moves at each measurement with the telescope pointing exactly at it
/// (`None`: it never moves); and the looks in which it is hidden and doesn't move: those from number `from` to `to`. A look is a
/// measurement or a search; looks are counted from 1. A target that is never hidden has 1 and 0.
#[derive(Clone, Copy)]
pub struct Prism {
    pub at: Target,
    pub drift: Option<Offset>,
    pub from: u32,
    pub to: u32,
}

/// How the telescope meets targets at a call: in the look with this number, from where it points (`there`), in face II if `turned`.
#[derive(Clone, Copy)]
pub struct Sight {
    pub turned: bool,
    pub look: u32,
    pub there: Pointing,
}

/// A procedure whose requests are answered with a return code, and do nothing: `times` of them, after the first `after`, but for
/// those that an earlier fault of the scene answers. `met` counts its requests, up to 2^32 - 1, but none that gets the stored
/// reply again or has parameters that can't be read.
#[derive(Clone, Copy)]
pub struct Fault {
    pub rpc: u16,
    pub rc: u16,
    pub after: u32,
    pub times: u32,
    pub met: u32,
    pub ghost fits: { rc < 65536 },
}

/// The reply to a procedure that isn't in the table: its number, the return code, and parameters of at most 490 bytes, which are
/// those of a request `with` of that procedure (`None`: the reply has no parameters).
#[derive(Clone, Copy)]
pub struct Scripted {
    pub rpc: u16,
    pub rc: u16,
    pub with: Option<RawCall>,
    pub ghost fits: { rc < 65536 },
    pub ghost short: { length (scripted_params with) ≤ 490 },
}

/// What a scene says of its instrument besides the serial number and the name: at most 32 targets, 32 faults and 16 replies.
#[derive(Drop)]
pub struct SceneRules {
    /// The targets.
    pub prisms: ArrayVec<Prism, 32>,
    pub faults: ArrayVec<Fault, 32>,
    /// The replies to procedures that aren't in the table.
    pub answers: ArrayVec<Scripted, 16>,
    /// The noise of answers with angles and a distance. `None`: they have none.
    pub noise: Option<Noise>,
    /// Whether the instrument stores its last reply to a request with an id, for a repeat, as the simulator does.
    pub repeats: bool,
    /// Which ways of real instruments the instrument has.
    pub ways: Ways,
}

/// The most by which an answer with angles and a distance deviates, either way, in radians and metres, and the generator's last
/// number, or, before the first such answer, the number from which the generator starts.
#[derive(Clone, Copy)]
pub struct Noise {
    pub hz: Decimal,
    pub v: Decimal,
    pub distance: Decimal,
    pub seed: u32,
}
