//! A client's exchange: a request is sent, and its reply is heard.

use arrayvec::ArrayVec;
use gc_catalogue::{Answer, Call, Reading};
use gc_client::{Client, Outcome, Settlement, WINDOW, Window};
use gc_lines::Line;

// Replies to a simple measurement, one for each id of a request, 0 to 7 in order.
const REPLIES: [&[u8]; 8] = [
    b"%R1P,0,0:0,0.512345678901,1.512345678901,25.1252",
    b"%R1P,0,1:0,0.512345678901,1.512345678901,25.1252",
    b"%R1P,0,2:0,0.512345678901,1.512345678901,25.1252",
    b"%R1P,0,3:0,0.512345678901,1.512345678901,25.1252",
    b"%R1P,0,4:0,0.512345678901,1.512345678901,25.1252",
    b"%R1P,0,5:0,0.512345678901,1.512345678901,25.1252",
    b"%R1P,0,6:0,0.512345678901,1.512345678901,25.1252",
    b"%R1P,0,7:0,0.512345678901,1.512345678901,25.1252",
];

/// Sends `count` requests, each answered before the next is sent, and returns the sum of the lengths of the request lines
/// and of the scales of the distances. One line serves for all sends, and one list for all settlements.
pub fn send<W: Window<Asked = Call>>(window: W, count: u32) -> u64 {
    let mut client = Client::new(window);
    let mut line = Line::new();
    let mut settled = ArrayVec::new();
    let mut sum = 0u64;
    for n in 0..count {
        sum = sum.wrapping_add(send_one(&mut client, n, &mut line));
        sum = sum.wrapping_add(hear_reply(&mut client, REPLIES[n as usize % 8], &mut settled));
    }
    sum
}

// Sends a request, and returns the length of its line, or 0 where the window is full. `bench/parts.sh` counts the instructions of
// this function by its name.
#[inline(never)]
fn send_one<W: Window<Asked = Call>>(client: &mut Client<W>, target: u32, line: &mut Line) -> u64 {
    let call = Call::SimpleMea {
        wait: 5000,
        mode: 1,
    };
    match client.send_into(target, &call, 1000, line) {
        Ok(()) => line.len() as u64,
        Err(_) => 0,
    }
}

// Lets the client hear a reply, and returns the scale of the distance in the first settlement that it gave (`scale_of`).
// `bench/parts.sh` counts the instructions of this function by its name.
#[inline(never)]
fn hear_reply<W: Window<Asked = Call>>(
    client: &mut Client<W>,
    reply: &[u8],
    settled: &mut ArrayVec<Settlement<Call>, WINDOW>,
) -> u64 {
    let _ = client.hear(reply, settled);
    scale_of(settled.as_slice())
}

// The scale of the distance in the first settlement's answer; 0 if there is no settlement, or no distance in it.
fn scale_of(settled: &[Settlement<Call>]) -> u64 {
    let Some(settlement) = settled.first() else {
        return 0;
    };
    match &settlement.outcome {
        Outcome::Answered(Reading::Value(Answer::Measured { distance, .. }), _) => {
            u64::from(distance.scale())
        }
        _ => 0,
    }
}
