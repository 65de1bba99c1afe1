//! Settlements: how a request ended. Requests are settled in the order of sending, and none of them twice.

ghost use Rattle.std.specs.Prelude.{◌≡◌};
ghost use Rattle.gc_client.specs.declared.settlement.Outcome.TheVariants.{Lost};

use gc_catalogue::{Asking, Reading};
use gc_lines::Line;

/// How a request ended.
#[derive(Debug, PartialEq, Eq, Drop)]
pub enum Outcome {
    /// Its reply came before it had timed out: the reading of the reply, and its line. A reply whose parameters can't be read is
    /// an answer, too, with the reading `Unreadable`.
    Answered(Reading, Line),
    /// A reply to it came after it had timed out. The reply is discarded.
    Late,
    /// A reply to a later request came first, or the client was restarted. A reply to it that comes now is a stray, unless a new
    /// request waits with its id. It isn't known whether the instrument acted on the lost request.
    Lost,
}

// The default is `Lost`: the value in the unused places of a list.
impl Default for Outcome {
    ghost is_default = { λ outcome. outcome ≡ Lost };

    fn default() -> Outcome {
        Outcome::Lost
    }
}

/// The end of one request. That is what "settlement" means here, and no movement of the ground.
#[derive(Debug, PartialEq, Eq, Drop)]
pub struct Settlement<Q> {
    /// Whom the request was for: the number that was passed to `send`.
    pub target: u32,
    /// What it asked for.
    pub call: Q,
    /// How it ended.
    pub outcome: Outcome,
}

impl<Q: Asking> Default for Settlement<Q> {
    ghost is_default = { λ s. (s.target ≡ 0) × (s.call ≡ Q.blank) × (s.outcome ≡ Lost) };

    /// A lost request for target 0: the value in the unused places of an `ArrayVec`.
    #[inline(always)]
    fn default() -> Settlement<Q> {
        Settlement {
            target: 0,
            call: Q::blank(),
            outcome: Outcome::default(),
        }
    }
}
