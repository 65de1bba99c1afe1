//! Events with each delivery in single bytes.

use crate::cases::world::WorldRows;
use gc_client::Slots;
use gc_world::{Direction, Event};
use std::alloc::AllocError;

/// The most bytes of a line in flight, with CR LF.
const MOST_BYTES: usize = 514;

/// These events, with deliveries of one byte in place of each delivery of a line: one for each byte of the line that isn't
/// delivered yet, or one delivery if no line is in flight. `world` plays the events, to see how far a line is delivered. `Err`:
/// memory ran out.
pub fn in_single_bytes(world: &WorldRows, events: &[Event]) -> Result<Vec<Event>, AllocError> {
    let mut pieces = Pieces {
        world,
        events: Vec::new(world.alloc),
    };
    pieces.push_all(events)?;
    let Pieces { events, .. } = pieces;
    Ok(events)
}

// Events with each delivery in single bytes, as far as they are made.
#[derive(Drop)]
struct Pieces<'a> {
    // What plays the events, to see how far a line is delivered.
    world: &'a WorldRows,
    events: Vec<Event>,
}

impl<'a> Pieces<'a> {
    // Appends these events, each delivery in single bytes. `Err`: memory ran out, and some of them may be appended.
    fn push_all(&mut self, events: &[Event]) -> Result<(), AllocError> {
        for event in events {
            self.push(*event)?;
        }
        Ok(())
    }

    // Appends an event: a delivery of a line in single bytes, and any other event as it is. `Err`: as `push_all`.
    fn push(&mut self, event: Event) -> Result<(), AllocError> {
        match event {
            Event::UpDeliver => self.push_delivery(Direction::Up),
            Event::DownDeliver => self.push_delivery(Direction::Down),
            _ => Ok(self.events.push(event)?),
        }
    }

    // Appends the delivery of one byte in a direction: once, and again until no line is half delivered in this direction, at most
    // `MOST_BYTES` times in all. `Err`: as `push_all`.
    fn push_delivery(&mut self, direction: Direction) -> Result<(), AllocError> {
        for _ in 0..MOST_BYTES {
            self.events.push(byte_in(direction))?;
            if self.is_at_start(direction)? {
                break;
            }
        }
        Ok(())
    }

    // Whether after the events so far a direction is at the start of a line. `Err`: memory ran out.
    fn is_at_start(&self, direction: Direction) -> Result<bool, AllocError> {
        let (report, _) = self
            .world
            .play_events(Slots::new(), self.events.as_slice())?;
        Ok(match direction {
            Direction::Up => report.up.at_start(),
            Direction::Down => report.down.at_start(),
        })
    }
}

// The delivery of one byte in a direction.
fn byte_in(direction: Direction) -> Event {
    match direction {
        Direction::Up => Event::UpBytes(1),
        Direction::Down => Event::DownBytes(1),
    }
}
