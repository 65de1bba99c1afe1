//! An instrument whose replies take time. It doesn't wait, and has no clock: its caller says when each line came, learns when the reply
//! goes out, and waits until then.

ghost use Rattle.std.specs.Prelude.{◌≡◌, ◌<◌, true, IsTrue, IsFalse};
ghost use Rattle.gc_lines.specs.Answering.{AppendsAnswer, GrowsByReply, HasRoomForReply};
ghost use Rattle.gc_catalogue.specs.Moments.{later};
ghost use Rattle.gc_scenes.specs.Slow.{HearsLine, IsDelay, TakesUp, delay_of, slow_restarted, taken_up};

use crate::delay::Delay;
use crate::instrument::SceneInstrument;
use crate::rules::Fault;
use crate::starting::StartingInstrument;
use arrayvec::ArrayVec;
use gc_lines::read_request;
use std::marker::Model;

/// The instrument of a scene, whose replies to some procedures take time. Until a reply goes out it is busy: lines that come then wait in
/// order, or are discarded. Moments are milliseconds on one clock.
#[derive(Drop)]
pub struct SlowInstrument {
    scene: StartingInstrument,
    delays: ArrayVec<Delay, 32>,
    // Whether it discards lines that come while it is busy.
    drops: bool,
    // The moment at which the last reply goes out; 0 before the first.
    free_from: u64,
}

impl Model for SlowInstrument {
    ghost use Rattle.gc_scenes.specs.Slow.{SlowState};

    ghost Value = { SlowState };

    ghost view = { λ i. record { scene = i.scene; delays = i.delays.items; drops = i.drops; free_from = i.free_from } };
}

impl SlowInstrument {
    /// The instrument that starts anew where one of the faults `starts` is due, with these delays; of several delays for one
    /// procedure the last one counts. If `drops`, it discards lines that come while it is busy.
    pub fn new(
        scene: SceneInstrument,
        starts: ArrayVec<Fault, 32>,
        delays: ArrayVec<Delay, 32>,
        drops: bool,
    ) -> SlowInstrument
        ensures { result ≡ record { scene = record { scene = scene; starts = starts.items }; delays = delays.items; drops = drops; free_from = 0 } }
    {
        SlowInstrument {
            scene: StartingInstrument::new(scene, starts),
            delays,
            drops,
            free_from: 0,
        }
    }

    /// Whether it discards lines that come while it is busy.
    pub fn drops(&self) -> bool
        ensures { result ≡ self.now.drops }
    {
        self.drops
    }

    /// The moment at which the last reply goes out; 0 before the first. The instrument is busy until then.
    pub fn free_from(&self) -> u64
        ensures { result ≡ self.now.free_from }
    {
        self.free_from
    }

    /// Restarts the scene's instrument, as `SceneInstrument::restart` does. It stays busy until the same moment as before.
    pub fn restart(&mut self)
        ensures { self.new ≡ slow_restarted self.old }
    {
        self.scene.restart();
    }

    /// Answers a line whose last byte came at the moment `at`: appends the reply to `out`, without CR LF, and returns whether there is one.
    /// The reply goes out at `free_from`. Where the instrument starts anew at the line, the sign-on line stands for the reply. If the instrument is busy and `drops`, the line is discarded: nothing is executed, and there is
    /// no reply. A line that is no request gets none either. Without a reply `free_from` stays as it is. Unless the line is
    /// discarded, the moment at which the instrument starts on it is set in the scene's instrument
    /// (`SceneInstrument::set_moment`).
    pub fn hear<const N: usize>(&mut self, line: &[u8], at: u64, out: &mut ArrayVec<u8, N>) -> bool
        requires { HasRoomForReply N out.old }
        ensures heard { AppendsAnswer (HearsLine self.old line.now at self.new) out.old.items out.new.items result }
        ensures bound { GrowsByReply out.old.items out.new.items }
    {
        if self.drops_at(at) {
            return false;
        }
        let from = self.taken_up(at);
        let due = moment_after(from, self.delay_of_line(line));
        self.scene.set_moment(from);
        if !self.scene.send_onto(line, out) {
            return false;
        }
        self.free_from = due;
        true
    }

    // Whether a line that comes at this moment is discarded.
    fn drops_at(&self, at: u64) -> bool
        ensures busy { IsTrue result → (self.now.drops ≡ true) × (at < self.now.free_from) }
        ensures taken { IsFalse result → TakesUp self.now at }
    {
        self.drops && at < self.free_from
    }

    // The moment at which the instrument starts on a line that came at the moment `at`, unless it discards the line: `at`, or
    // `free_from` if it is busy until then.
    fn taken_up(&self, at: u64) -> u64
        ensures { result ≡ taken_up self.now at }
    {
        at.max(self.free_from)
    }

    // How long the reply to a line takes, in milliseconds. For a line that is no request it is 0. (The contract doesn't say so.)
    fn delay_of_line(&self, line: &[u8]) -> u32
        ensures { IsDelay self.now.delays line.now result }
    {
        match read_request(line) {
            Ok(request) => delay_of(request.rpc, self.delays.as_slice()),
            Err(_) => 0,
        }
    }
}

// The moment `ms` milliseconds after `at`, at most the last one that 64 bits hold.
fn moment_after(at: u64, ms: u32) -> u64
    ensures { result ≡ later at ms }
{
    at.saturating_add(u64::from(ms))
}

// How long the reply to a request of this procedure takes, in milliseconds, by the last delay of that procedure; 0 without one.
fn delay_of(rpc: u16, delays: &[Delay]) -> u32
    ensures { result ≡ delay_of rpc delays.now }
{
    let mut ms = 0;
    for delay in delays {
        if delay.rpc == rpc {
            ms = delay.ms;
        }
    }
    ms
}
