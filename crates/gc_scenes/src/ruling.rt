//! What each rule of a scene does to targets, to requests and to answers.

ghost use Rattle.std.specs.Prelude.{◌≡◌, ◌<◌, ◌≤◌, length, IfSome, IfNone, Some};
ghost use Rattle.gc_catalogue.specs.RawTexts.{raw_bytes};
ghost use Rattle.gc_scenes.specs.Laws.{still};
ghost use Rattle.gc_scenes.specs.Params.{scripted_params};
ghost use Rattle.gc_scenes.specs.Rules.{is_clear, applied_to, moved_by, moved, is_due, met_once, deviated_hz, deviated_v, deviated_distance, disturbed, is_measured, advanced};
ghost use Rattle.gc_scenes.specs.Shifting.{next, shifted, deviation};

use crate::rules::{Fault, Noise, Offset, Prism, Scripted, Sight};
use crate::shifting::{deviation, next, shifted};
use crate::ways::target_in_face;
use gc_catalogue::{Answer, RawCall};
use gc_instrument::{Target, is_at};
use gc_values::Decimal;

impl Fault {
    /// Makes a fault that lets the first `after` requests of the procedure `rpc` pass, and answers the next `times` with the
    /// return code `rc`, but for those that an earlier fault of the scene answers. No request is counted yet.
    pub fn new(rpc: u16, rc: u16, after: u32, times: u32) -> Fault
        ensures rpc { result.rpc ≡ rpc }
        ensures rc { result.rc ≡ rc }
        ensures after { result.after ≡ after }
        ensures times { result.times ≡ times }
        ensures met { result.met ≡ 0 }
    {
        Fault {
            rpc,
            rc,
            after,
            times,
            met: 0,
        }
    }

    /// Whether the next request of this procedure is answered by the fault, if no fault before it answers the request.
    pub(crate) fn is_due(&self, rpc: u16) -> bool
        ensures { result ≡ is_due rpc self.now }
    {
        self.rpc == rpc && self.after <= self.met && self.met - self.after < self.times
    }

    /// The fault after one more request of this procedure, which it counts if the procedure is its own. The count goes up to 2^32 - 1, and
    /// stays there.
    pub(crate) fn met_once(&self, rpc: u16) -> Fault
        ensures { result ≡ met_once rpc self.now }
    {
        let mut fault = *self;
        if self.rpc == rpc {
            fault.met = self.met.saturating_add(1);
        }
        fault
    }
}

impl Scripted {
    /// Makes the reply to the procedure of this request: it has this return code and the request's parameters. `None`: these have more than
    /// 490 bytes.
    pub fn new(call: RawCall, rc: u16) -> Option<Scripted>
        ensures made { IfSome result (λ s. (s.rpc ≡ call.rpc) × (s.with ≡ Some call) × (s.rc ≡ rc)) }
        ensures none { IfNone result (490 < length (raw_bytes call.params)) }
    {
        if call.params().len() <= 490 {
            Some(Scripted {
                rpc: call.number(),
                rc,
                with: Some(call),
            })
        } else {
            None
        }
    }

    /// The parameters of the reply, as they stand in its line; empty if it has none.
    pub(crate) fn params(&self) -> &[u8]
        ensures value { result.now ≡ scripted_params self.now.with }
        ensures few { length result.now ≤ 490 }
    {
        match &self.with {
            Some(call) => call.params(),
            None => b"",
        }
    }
}

impl Default for Scripted {
    /// The value in the unused places of a list: procedure 0, with code 0 and no parameters.
    fn default() -> Scripted {
        Scripted {
            rpc: 0,
            rc: 0,
            with: None,
        }
    }
}

impl Default for Fault {
    /// The value in the unused places of a list: a fault that answers no request.
    fn default() -> Fault {
        Fault::new(0, 0, 0, 0)
    }
}

impl Default for Prism {
    /// The value in the unused places of a list: a target of zeros.
    fn default() -> Prism {
        Prism::still(Target::default())
    }
}

impl Prism {
    /// A target that never moves and is never hidden.
    pub fn still(at: Target) -> Prism
        ensures { result ≡ still at }
    {
        Prism {
            at,
            drift: None,
            from: 1,
            to: 0,
        }
    }

    /// Whether the target can be seen in the look with this number.
    pub(crate) fn is_clear(&self, look: u32) -> bool
        ensures { result ≡ is_clear look self.now }
    {
        !(self.from <= look && look <= self.to)
    }

    // The target after a measurement of it: moved by its drift, if it has one.
    fn moved_by_drift(&self) -> Prism
        ensures { result ≡ moved_by self.now.drift self.now }
    {
        match self.drift {
            None => *self,
            Some(offset) => Prism {
                at: offset.applied_to(&self.at),
                ..*self
            },
        }
    }

    /// The target after a measurement with this sight: moved by its drift, if it isn't hidden and lies exactly where the telescope points.
    pub(crate) fn moved(&self, sight: &Sight) -> Prism
        ensures { result ≡ moved sight.now self.now }
    {
        let at = target_in_face(sight.turned, &self.at);
        if self.is_clear(sight.look) && is_at(&sight.there, &at) {
            self.moved_by_drift()
        } else {
            *self
        }
    }
}

impl Offset {
    // The target moved by this offset. What would leave a decimal's range stays.
    fn applied_to(&self, target: &Target) -> Target
        ensures { result ≡ applied_to self.now target.now }
    {
        Target {
            hz: shifted(&target.hz, self.hz.units()),
            v: shifted(&target.v, self.v.units()),
            distance: shifted(&target.distance, self.distance.units()),
        }
    }
}

impl Noise {
    // The generator's next three numbers, which the three deviations of one answer take.
    fn next_three_numbers(&self) -> (u32, u32, u32)
        ensures first { result.0 ≡ next self.now.seed }
        ensures second { result.1 ≡ next (next self.now.seed) }
        ensures third { result.2 ≡ next (next (next self.now.seed)) }
    {
        let first = next(self.seed);
        let second = next(first);
        (first, second, next(second))
    }

    /// Adds three deviations to an answer with angles and a distance, also if that was measured earlier (TMC_GetSimpleMea). Any
    /// other answer stays as it is. The generator isn't advanced: `advanced` does that.
    pub(crate) fn disturb(&self, answer: &mut Answer)
        ensures { answer.new ≡ disturbed self.now answer.old }
    {
        match *answer {
            Answer::Measured { hz, v, distance } => {
                let (hz, v, distance) = self.deviated(hz, v, distance);
                *answer = Answer::Measured { hz, v, distance };
            }
            Answer::MeasuredMode {
                hz,
                v,
                distance,
                mode,
            } => {
                let (hz, v, distance) = self.deviated(hz, v, distance);
                *answer = Answer::MeasuredMode {
                    hz,
                    v,
                    distance,
                    mode,
                };
            }
            _ => {}
        }
    }

    // This direction, angle and distance, each with its deviation added: by the generator's next number, the one after that, and the third.
    fn deviated(&self, hz: Decimal, v: Decimal, distance: Decimal) -> (Decimal, Decimal, Decimal)
        ensures hz { result.0 ≡ deviated_hz self.now hz }
        ensures v { result.1 ≡ deviated_v self.now v }
        ensures distance { result.2 ≡ deviated_distance self.now distance }
    {
        let (first, second, third) = self.next_three_numbers();
        let hz = with_deviation(&hz, &self.hz, first);
        let v = with_deviation(&v, &self.v, second);
        let distance = with_deviation(&distance, &self.distance, third);
        (hz, v, distance)
    }

    /// The noise after an answer: one with angles and a distance takes the generator's next three numbers, and any other none.
    pub(crate) fn advanced(&self, answer: &Answer) -> Noise
        ensures { result ≡ advanced self.now answer.now }
    {
        if is_measured(answer) {
            let (_, _, third) = self.next_three_numbers();
            Noise {
                seed: third,
                ..*self
            }
        } else {
            *self
        }
    }
}

// Whether an answer has angles and a distance.
fn is_measured(answer: &Answer) -> bool
    ensures { result ≡ is_measured answer.now }
{
    match answer {
        Answer::Measured { .. } => true,
        Answer::MeasuredMode { .. } => true,
        _ => false,
    }
}

// The decimal `d` plus the deviation, of at most the size of `most` either way, that the generator's number `x` gives; `d` itself if the
// sum is out of a decimal's range.
fn with_deviation(d: &Decimal, most: &Decimal, x: u32) -> Decimal
    ensures { result ≡ shifted d.now (deviation most.now x) }
{
    shifted(d, deviation(most, x))
}
