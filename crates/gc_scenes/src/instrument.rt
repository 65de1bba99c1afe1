//! The instrument of a scene with rules: its parts, how it starts, and how it executes a call.

ghost use Rattle.std.specs.Prelude.{◌≡◌, ◌<◌, ◌≤◌, ◌++◌, ℕ, List, Bool, [], length, true, false, Option, None};
ghost use Rattle.std.specs.Option.{option_map};
ghost use Rattle.gc_instrument.specs.State.{kept_id, opening};
ghost use Rattle.gc_instrument.specs.Targets.{first_at};
ghost use Rattle.gc_scenes.specs.Rules.{seen, drifted, counted, fault_of, scripted_reply, noisy, noise_after};
ghost use Rattle.gc_scenes.specs.SceneExecution.{HasCodeAndAnswer, is_measurement, is_search, look_of, heading, is_turned_for, outcome, noting, after_call, counting, clock_shows, sight_at, seen_by, clock_after, distance_in_warning, known_distance};
ghost use Rattle.gc_scenes.specs.SceneState.{scene_restarted, at_moment, seeing};
ghost use Rattle.gc_catalogue.specs.declared.answer.Answer.TheVariants.{Nothing};

use crate::acting::{act_faceless, set_face_by_angle};
use crate::clock::Clock;
use crate::rules::{Fault, Noise, Prism, SceneRules, Scripted, Sight};
use crate::ways::{Ways, has_distance, target_in_face};
use arrayvec::ArrayVec;
use gc_catalogue::{Answer, Call, DateTime};
use gc_instrument::{Instrument, Kept, Pointing, Target, first_at};
use gc_values::{Decimal, Text};
use std::marker::Model;

/// The instrument of a scene with rules: at most 32 targets, 32 faults and 16 replies. It holds no allocated memory.
#[derive(Drop)]
pub struct SceneInstrument {
    // The instrument of the execution table. It isn't handed lines, so it stores no reply; its targets are those that the last call saw.
    pub(crate) base: Instrument,
    // The stored reply, if there is one.
    pub(crate) kept: Kept,
    // The scene's targets.
    prisms: ArrayVec<Prism, 32>,
    faults: ArrayVec<Fault, 32>,
    // The replies to procedures that aren't in the table.
    answers: ArrayVec<Scripted, 16>,
    noise: Option<Noise>,
    // How many looks there were, counted up to 2^32 - 1: a look is a measurement or a search.
    looks: u32,
    // Whether it stores its last reply to a request with an id, for a repeat.
    pub(crate) repeats: bool,
    pub(crate) ways: Ways,
    // The clock that runs. `None`: the instrument has none, or it hasn't been set yet.
    clock: Option<Clock>,
    // The moment of the next request, in milliseconds of the program's clock.
    moment: u64,
}

impl Model for SceneInstrument {
    ghost use Rattle.gc_scenes.specs.SceneState.{SceneState};

    ghost Value = { SceneState };

    ghost use Rattle.gc_scenes.specs.Seen.{scene_of, IsSound};

    ghost view = { scene_of };

    ghost invariant = { IsSound };
}

impl SceneInstrument {
    /// The instrument of a scene with this serial number, this name and these rules, in its opening state: no look is counted yet, and no
    /// clock runs. The moment of the first request is 0 until it is set.
    pub fn new(serial: i32, name: Text, rules: SceneRules) -> SceneInstrument
        ensures { result ≡ record {
          base = opening serial name [];
          prisms = rules.prisms.items;
          faults = rules.faults.items;
          answers = rules.answers.items;
          noise = rules.noise;
          looks = 0;
          repeats = rules.repeats;
          ways = rules.ways;
          clock = None;
          moment = 0;
        } }
    {
        let SceneRules {
            prisms,
            faults,
            answers,
            noise,
            repeats,
            ways,
        } = rules;
        SceneInstrument {
            base: without_targets(serial, name),
            kept: Kept::nothing(),
            prisms,
            faults,
            answers,
            noise,
            looks: 0,
            repeats,
            ways,
            clock: None,
            moment: 0,
        }
    }

    /// Sets the moment of the next request, in milliseconds of the program's clock; it stands until it is set again. What the
    /// instrument's own clock shows, if it runs, is computed from it.
    pub fn set_moment(&mut self, moment: u64)
        ensures { self.new ≡ at_moment moment self.old }
    {
        self.moment = moment;
    }

    /// Whether the instrument stores its last reply to a request with an id, and sends it again to a request with that id
    /// (`reply_onto` says which replies it doesn't store).
    pub fn repeats(&self) -> bool
        ensures { result ≡ self.now.repeats }
    {
        self.repeats
    }

    /// The id of the stored reply. `None`: no reply is stored.
    pub fn kept_id(&self) -> Option<u8>
        ensures { result ≡ kept_id self.now.base.kept }
    {
        self.kept.id()
    }

    /// Restarts the instrument, as the simulator is restarted. The scene goes on: its counts, its targets and its noise stay,
    /// and so does a clock that runs.
    pub fn restart(&mut self)
        ensures { self.new ≡ scene_restarted self.old }
    {
        self.base.restart();
        self.kept.forget();
    }

    /// The return code of the first fault that answers the next request of this procedure. `None`: no fault answers it.
    pub(crate) fn fault_of(&self, rpc: u16) -> Option<u16>
        ensures { result ≡ fault_of rpc self.now.faults }
    {
        self.faults
            .as_slice()
            .iter()
            .find(|fault| fault.is_due(rpc))
            .map(|fault| fault.rc)
    }

    /// The first reply that the scene has for this procedure. `None`: it has none.
    pub(crate) fn scripted_reply(&self, rpc: u16) -> Option<Scripted>
        ensures { result ≡ scripted_reply rpc self.now.answers }
    {
        self.answers
            .as_slice()
            .iter()
            .find(|reply| reply.rpc == rpc)
            .copied()
    }

    /// Counts one more request of this procedure, in each fault of that procedure.
    pub(crate) fn count(&mut self, rpc: u16)
        ensures { self.new ≡ counting rpc self.old }
    {
        self.faults = counted(rpc, self.faults.as_slice());
    }

    // What the instrument's clock shows at the moment of the next request. `None`: the instrument has no clock that runs, or it
    // hasn't been set yet.
    fn clock_shows(&self) -> Option<DateTime>
        ensures { result ≡ clock_shows self.now }
    {
        match &self.clock {
            Some(clock) => Some(clock.shown_at(self.moment)),
            None => None,
        }
    }

    // Whether the telescope is in face II when the call looks for a target. `false`: it is in face I, or the instrument has no angles of
    // face II.
    fn is_turned_for(&self, call: &Call) -> bool
        ensures { result ≡ is_turned_for self.now call.now }
    {
        self.ways.is_turned(&heading(self.base.pointing(), call))
    }

    // The number of looks after this call: measurements and searches are counted, up to the greatest number of 32 bits.
    fn look_of(&self, call: &Call) -> u32
        ensures { result ≡ look_of self.now.ways.aims self.now.looks call.now }
    {
        if is_measurement(call) || is_search(self.ways.aims, call) {
            self.looks.saturating_add(1)
        } else {
            self.looks
        }
    }

    // How the telescope meets targets at this call. The number of the look is the count of looks after the call, so a call that is no
    // look has that of the last one, or 0 before the first. The telescope is where it points before the call, and in the face in which
    // the call looks for a target.
    fn sight_at(&self, call: &Call) -> Sight
        ensures { result ≡ sight_at self.now call.now }
    {
        Sight {
            turned: self.is_turned_for(call),
            look: self.look_of(call),
            there: self.base.pointing(),
        }
    }

    // The targets that aren't hidden at this call, each with the angles at which the telescope points at it.
    fn seen_by(&self, call: &Call) -> ArrayVec<Target, 32>
        ensures { result.items ≡ seen_by self.now call.now }
    {
        seen(&self.sight_at(call), self.prisms.as_slice())
    }

    // Carries out a call with the instrument's ways, over the targets of `seen_by`, and returns the return code. An answer is written into
    // `answer`, which stays `Answer::Nothing` if there is none.
    fn act_over_seen(&mut self, call: &Call, answer: &mut Answer) -> u16
        requires { answer.old ≡ Nothing }
        ensures gives { HasCodeAndAnswer (outcome self.old call.now) result answer.new }
        ensures state { self.new ≡ record self.old { base = seeing self.old.base.scene (outcome self.old call.now).state } }
    {
        let now = self.clock_shows();
        let targets = self.seen_by(call);
        self.base.set_scene(&targets);
        let rc = act_faceless(&mut self.base, &self.ways, now, call, answer);
        set_face_by_angle(&mut self.base, self.ways.faces);
        rc
    }

    // The clock after a call that had this return code. If the instrument has a clock that runs, a call that sets the date, and isn't
    // refused, starts it from that date; else it stays as it was.
    fn clock_after(&self, call: &Call, rc: u16) -> Option<Clock>
        ensures { result ≡ clock_after self.now.ways.clock self.now.moment call.now rc self.now.clock }
    {
        if !self.ways.clock {
            return self.clock;
        }
        match call {
            Call::SetDate(date) if rc == 0 => Some(Clock {
                set: *date,
                at: self.moment,
            }),
            _ => self.clock,
        }
    }

    // Notes that a call was carried out with this sight and had this return code: its look counts, after a measurement each target that
    // isn't hidden and lies exactly where the telescope pointed has moved by its drift, and setting the date may start the clock.
    fn note_act(&mut self, sight: &Sight, call: &Call, rc: u16)
        ensures { self.new ≡ noting sight.now call.now rc self.old }
    {
        self.clock = self.clock_after(call, rc);
        if is_measurement(call) {
            self.prisms = drifted(sight, self.prisms.as_slice());
        }
        self.looks = sight.look;
    }

    /// Executes a call that no fault answers, and returns the return code. An answer is written into `answer`, which stays
    /// `Answer::Nothing` if there is none. A measurement or a search is counted as a look; after a measurement each target that
    /// isn't hidden and lies exactly where the telescope points has moved by its drift, if it has one; and setting the date may
    /// start the clock. The noise is left to `disturb`.
    pub(crate) fn execute(&mut self, call: &Call, answer: &mut Answer) -> u16
        requires { answer.old ≡ Nothing }
        ensures gives { HasCodeAndAnswer (outcome self.old call.now) result answer.new }
        ensures state { self.new ≡ record (after_call self.old call.now (outcome self.old call.now)) { noise = self.old.noise } }
    {
        let sight = self.sight_at(call);
        let rc = self.act_over_seen(call, answer);
        self.note_act(&sight, call, rc);
        rc
    }

    /// The distance in the reply to a call that a fault answers with this code, in metres: that of `known_distance`, if replies with the
    /// code have a distance and one is known, and else 0.
    pub(crate) fn distance_in_warning(&self, call: &Call, rc: u16) -> Decimal
        ensures { result ≡ distance_in_warning self.now call.now rc }
    {
        if !has_distance(rc) {
            return Decimal::zero();
        }
        self.known_distance(call).unwrap_or(Decimal::zero())
    }

    // The distance that is known for a reply to the call, in metres: for TMC_GetSimpleMea the one that was measured last, for any other
    // call that of the first of the targets of `seen_by` that lies exactly where the telescope points. `None`: there is none.
    fn known_distance(&self, call: &Call) -> Option<Decimal>
        ensures { result ≡ known_distance self.now call.now }
    {
        match call {
            Call::SimpleMea { .. } => self.base.distance(),
            _ => distance_at(&self.base.pointing(), self.seen_by(call).as_slice()),
        }
    }

    /// Adds the scene's noise, if it has one, to an answer with angles and a distance, also if that was measured earlier
    /// (TMC_GetSimpleMea), and advances the noise's generator. Any other answer stays as it is, and so does the generator then.
    pub(crate) fn disturb(&mut self, answer: &mut Answer)
        ensures answer { answer.new ≡ noisy self.old.noise answer.old }
        ensures state { self.new ≡ record self.old { noise = noise_after self.old.noise answer.old } }
    {
        if let Some(noise) = self.noise {
            self.noise = Some(noise.advanced(answer));
            noise.disturb(answer);
        }
    }
}

// An instrument with this serial number, this name and no targets, in the opening state.
fn without_targets(serial: i32, name: Text) -> Instrument
    ensures { result ≡ opening serial name [] }
{
    match Instrument::new(serial, name, &[]) {
        Ok(instrument) => instrument,
        // More than 32 targets are refused, and nothing else; here are none.
        Err(_) => unreachable!(),
    }
}

// The distance, in metres, of the first of these targets that lies exactly `there`, where the telescope points. `None`: none does.
fn distance_at(there: &Pointing, targets: &[Target]) -> Option<Decimal>
    ensures { result ≡ option_map (λ t. t.distance) (first_at there.now targets.now) }
{
    first_at(there, targets).map(|target| target.distance)
}

// Whether the call measures a distance. TMC_GetSimpleMea doesn't: it answers the one that was measured last.
fn is_measurement(call: &Call) -> bool
    ensures { result ≡ is_measurement call.now }
{
    match call {
        Call::DoMeasure { command, .. } => *command == 1,
        Call::QuickDist => true,
        Call::MeasDistance { .. } => true,
        _ => false,
    }
}

// Whether the call is a search: AUT_FineAdjust, or, if the instrument `aims`, a positioning with target recognition.
fn is_search(aims: bool, call: &Call) -> bool
    ensures { result ≡ is_search aims call.now }
{
    match call {
        Call::FineAdjust { .. } => true,
        Call::Position { atr_mode, .. } => aims && *atr_mode == 1,
        _ => false,
    }
}

// Where the telescope points when the call looks for a target: at the angles of a positioning, and else `there`.
fn heading(there: Pointing, call: &Call) -> Pointing
    ensures { result ≡ heading there call.now }
{
    match call {
        Call::Position { hz, v, .. } => Pointing { hz: *hz, v: *v },
        _ => there,
    }
}

// The targets that aren't hidden in the look of this sight, each with the angles at which the telescope points at it: those of face II if
// it is in that face.
fn seen(sight: &Sight, prisms: &[Prism]) -> ArrayVec<Target, 32>
    requires { length prisms.now ≤ 32 }
    ensures { result.items ≡ seen sight.now prisms.now }
{
    let mut targets = ArrayVec::new();
    for prism in prisms {
        if !prism.is_clear(sight.look) {
            continue;
        }
        // There is room, since there are at most as many as prisms.
        let _ = targets.try_push(target_in_face(sight.turned, &prism.at));
    }
    targets
}

// The targets after a measurement with this sight: all that aren't hidden and lie exactly where the telescope points have moved by their
// drift.
fn drifted(sight: &Sight, prisms: &[Prism]) -> ArrayVec<Prism, 32>
    requires { length prisms.now ≤ 32 }
    ensures { result.items ≡ drifted sight.now prisms.now }
{
    let mut moved = ArrayVec::new();
    for prism in prisms {
        // There is room, since there are as many as before.
        let _ = moved.try_push(prism.moved(sight));
    }
    moved
}

/// The faults after one more request of this procedure.
pub(crate) fn counted(rpc: u16, faults: &[Fault]) -> ArrayVec<Fault, 32>
    requires { length faults.now ≤ 32 }
    ensures { result.items ≡ counted rpc faults.now }
{
    let mut all = ArrayVec::new();
    for fault in faults {
        // There is room, since there are as many as before.
        let _ = all.try_push(fault.met_once(rpc));
    }
    all
}
