//! The text of a schedule, read into its events.

ghost use Rattle.std.specs.Prelude.{◌≡◌, Err, IfOk, IfErr};
ghost use Rattle.gc_texts.specs.LineForms.{FirstFaulty, NamesFaulty, ReachesASoundLine, RefusesLong, TextFault};
ghost use Rattle.gc_filters.specs.Schedule.{IsEvent, IsSchedule};
ghost use Rattle.gc_texts.specs.declared.fault.RunFault.{RunFault};

use crate::event::EventForm;
use gc_texts::{RunFault, read_items};
use gc_world::Event;
use std::alloc::Global;

/// Reads the text of a schedule: its events, in order. Empty lines and those that begin with `#` are skipped.
///
/// A line is `send T D RPC` or `send T D RPC PARAMS`, with the target T, the deadline D, and the number and the parameters of a procedure
/// of the table; `up deliver`, `up bytes N`, `up lose K`, `up repeat K`, or one of these with `down` in place of `up`; `expire M`, with
/// the moment M; `restart client`; or `restart instrument`. D and M are numbers of 64 bits, and T, N and K of 32. [`Event`] says what each
/// of them does.
///
/// `InputTooLong` refuses a text of more than 65,536 bytes, before any line is looked at. `Schedule` names the first line that
/// has the form of no event, counted from 1. `Memory` comes only where the list of events couldn't grow, at a line that is an
/// event.
pub fn read_schedule(alloc: Global, text: &[u8]) -> Result<Vec<Event>, RunFault>
    ensures found { IfOk result (λ events. IsSchedule text.now events.items) }
    ensures too_long { RefusesLong text.now result }
    ensures faulty { NamesFaulty (FirstFaulty IsEvent text.now) result }
    ensures memory { result ≡ Err RunFault.Memory → ReachesASoundLine IsEvent text.now }
    ensures faults { IfErr result (λ e. TextFault IsEvent text.now e) }
{
    read_items::<EventForm>(alloc, text)
}
