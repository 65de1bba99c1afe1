//! Executing: what a stage asks of its instrument, and how the simulator and the instrument of a scene do it.

ghost use Rattle.std.specs.Prelude.{◌≡◌, []};
ghost use Rattle.gc_instrument.specs.Replying.{OfItsCall};
ghost use Rattle.gc_world.specs.Behaviours.{IsHandedOver, TellsExecution};

use gc_instrument::Instrument;
use gc_lines::Line;
use gc_scenes::SceneInstrument;

/// An instrument to which a stage hands the requests of its client.
pub trait Executes: Drop {
    ghost use Rattle.gc_world.specs.Behaviours.{Behaviour};

    /// What it does with a request and at a restart.
    ghost acts: { Behaviour Self };

    /// Restarts it.
    fn restart(&mut self)
        ensures { self.new ≡ acts.restarted self.old };

    /// Hands it the line of a request, and appends its reply, without CR LF, to `reply`, which is empty. Returns whether it executed the
    /// request: not if it sent a stored reply again.
    fn execute(&mut self, request: &[u8], reply: &mut Line) -> bool
        requires { reply.old.items ≡ [] }
        ensures { OfItsCall request.now (λ id call. IsHandedOver (acts.handed self.old id call) self.new reply.new.items result) };
}

impl Executes for Instrument {
    ghost use Rattle.gc_world.specs.Clients.{simulator};

    ghost acts = { simulator };

    #[inline(always)]
    fn restart(&mut self) {
        Instrument::restart(self);
    }

    #[inline(always)]
    fn execute(&mut self, request: &[u8], reply: &mut Line) -> bool {
        let before = self.kept_id();
        // The lines of a client are requests, and each request gets a reply.
        let _answered = self.reply_onto(request, reply);
        let after = self.kept_id();
        is_execution(true, before, after)
    }
}

impl Executes for SceneInstrument {
    ghost use Rattle.gc_world.specs.SceneRuns.{scene};

    ghost acts = { scene };

    fn restart(&mut self) {
        SceneInstrument::restart(self);
    }

    fn execute(&mut self, request: &[u8], reply: &mut Line) -> bool {
        let repeats = self.repeats();
        let before = self.kept_id();
        let _sent = self.reply_onto(request, reply);
        let after = self.kept_id();
        is_execution(repeats, before, after)
    }
}

// Whether an instrument executed the request by which its stored id went from `before` to `after`: an execution changes that id, and a
// repeat leaves it. An instrument that stores no replies (`repeats` is false) executes each request.
#[inline(always)]
fn is_execution(repeats: bool, before: Option<u8>, after: Option<u8>) -> bool
    ensures { TellsExecution repeats before after result }
{
    !repeats || before != after
}
