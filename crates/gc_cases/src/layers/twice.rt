//! A request handed in twice: the second time the instrument sends the reply that it has stored, and executes nothing.

use crate::layers::calls::call_of;
use crate::layers::instrument::hand_in;
use gc_instrument::Instrument;
use gc_probes::Told;

// Requests whose calls are carried out between a request and its repeat. They go to `Instrument::execute` and not through a line,
// so that the stored reply stays: whatever can be set is set to something else, then the face is changed, and the third target
// measured.
const ALL_SET: [&[u8]; 8] = [
    b"%R1Q,107,0:3",
    b"%R1Q,5007,0:2001,'02','03','04','05','06'",
    b"%R1Q,2010,0:5,6,7,8",
    b"%R1Q,2012,0:2.5",
    b"%R1Q,17008,0:9",
    b"%R1Q,9028,0:0,0,0",
    b"%R1Q,9027,0:4,1.5,0,0,0",
    b"%R1Q,2008,0:1,1",
];

// Carries out the calls of `ALL_SET`.
fn set_all(instrument: &mut Instrument) {
    for line in ALL_SET.as_slice() {
        carry_out(instrument, line);
    }
}

// Carries out the call of a request's line, if it has one, without a look at what comes of it.
fn carry_out(instrument: &mut Instrument, line: &[u8]) {
    if let Some(call) = call_of(line) {
        let _ = instrument.execute(&call);
    }
}

/// Hands a request to a new simulator, carries out the calls of `ALL_SET`, and hands the same request in again. Reports both
/// replies, each with the id whose reply is stored then, and the distance, which has to be that of the third target, 48.5 m.
pub fn ask_twice(request: &[u8], came: &mut Told) {
    let mut instrument = Instrument::simulator();
    hand_in(&mut instrument, request, came);
    set_all(&mut instrument);
    came.text("; again ");
    hand_in(&mut instrument, request, came);
    tell_distance(&instrument, came)
}

// Reports the distance that the instrument has, in metres, or that it has none.
fn tell_distance(instrument: &Instrument, came: &mut Told) {
    match instrument.distance() {
        Some(distance) => came.titled("; as set ", &distance),
        None => came.text("; no distance"),
    }
}
