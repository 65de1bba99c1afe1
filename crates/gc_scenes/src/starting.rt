//! The instrument of a scene that starts anew at some requests: at each of these it restarts, and sends its sign-on line in place
//! of a reply.

ghost use Rattle.std.specs.Prelude.{◌≡◌};
ghost use Rattle.gc_lines.specs.Answering.{AppendsAnswer, GrowsByReply, HasRoomForReply};
ghost use Rattle.gc_lines.specs.Requests.{IsRequest, RequestFields};
ghost use Rattle.gc_scenes.specs.Starting.{StartsOrPlays, is_start_due, starting_at, starting_restarted};

use crate::instrument::{SceneInstrument, counted};
use crate::rules::Fault;
use arrayvec::ArrayVec;
use gc_lines::{append, read_request};
use std::marker::Model;

// The line that the instrument sends once it has started, without CR LF: from memory.
const SIGN_ON: &[u8] = b"%N1,0,255,,0%T0,0,0,:";

/// The instrument of a scene, which starts anew at some requests. It counts each request that it gets, also one that a stored reply
/// answers or that is refused.
#[derive(Drop)]
pub(crate) struct StartingInstrument {
    scene: SceneInstrument,
    // The faults at which it starts anew. Their return codes aren't used.
    starts: ArrayVec<Fault, 32>,
}

impl Model for StartingInstrument {
    ghost use Rattle.gc_lines.specs.Requests.{IsRequest, RequestFields};
    ghost use Rattle.gc_scenes.specs.Starting.{StartingState};

    ghost Value = { StartingState };

    ghost view = { λ i. record { scene = i.scene; starts = i.starts.items } };
}

impl StartingInstrument {
    /// The instrument of a scene with these starts.
    pub fn new(scene: SceneInstrument, starts: ArrayVec<Fault, 32>) -> StartingInstrument
        ensures { result ≡ record { scene = scene; starts = starts.items } }
    {
        StartingInstrument { scene, starts }
    }

    /// Sets the moment of the next request, as `SceneInstrument::set_moment` does.
    pub fn set_moment(&mut self, moment: u64)
        ensures { self.new ≡ starting_at moment self.old }
    {
        self.scene.set_moment(moment);
    }

    /// Restarts the instrument, as `SceneInstrument::restart` does. The counts of requests stay.
    pub fn restart(&mut self)
        ensures { self.new ≡ starting_restarted self.old }
    {
        self.scene.restart();
    }

    /// Appends what the instrument sends for a line to `out`, without CR LF, and returns `true`: the sign-on line, if it starts anew
    /// at the request, or else its reply. If the line is no request, it returns `false`, and `out` and the instrument are unchanged.
    pub fn send_onto<const N: usize>(&mut self, line: &[u8], out: &mut ArrayVec<u8, N>) -> bool
        requires { HasRoomForReply N out.old }
        ensures does { AppendsAnswer (StartsOrPlays self.old line.now self.new) out.old.items out.new.items result }
        ensures bound { GrowsByReply out.old.items out.new.items }
    {
        match read_request(line) {
            Ok(request) => self.send_for(request.rpc, line, out),
            Err(_) => false,
        }
    }

    // Does what `send_onto` says of a line that is a request of this procedure, which is counted first.
    fn send_for<const N: usize>(&mut self, rpc: u16, line: &[u8], out: &mut ArrayVec<u8, N>) -> bool
        requires { HasRoomForReply N out.old }
        ensures does { (q : RequestFields) → IsRequest line.now q → q.rpc ≡ rpc
            → AppendsAnswer (StartsOrPlays self.old line.now self.new) out.old.items out.new.items result }
        ensures bound { GrowsByReply out.old.items out.new.items }
    {
        let starts = is_start_due(rpc, self.starts.as_slice());
        self.starts = counted(rpc, self.starts.as_slice());
        if !starts {
            return self.scene.reply_onto(line, out);
        }
        self.scene.restart();
        append(out, SIGN_ON);
        true
    }
}

// Whether the instrument starts anew at the next request of this procedure: one of these faults is due then.
fn is_start_due(rpc: u16, starts: &[Fault]) -> bool
    ensures { result ≡ is_start_due rpc starts.now }
{
    starts.iter().find(|start| start.is_due(rpc)).is_some()
}
