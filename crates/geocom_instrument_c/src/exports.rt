//! The calls for C: an instrument is in memory of the caller's, at a pointer. What a call does with it is in `bench.rt` and
//! `setting.rt`; only this file handles pointers.

ghost use Rattle.std.specs.Borrow.{full_share, sem};
ghost use Rattle.std.specs.Prelude.{Option};
ghost use Rattle.std.specs.Ptr.{lies_at, room_at};
ghost use Rattle.geocom_instrument_c.specs.Bench.{BenchState};
ghost use Rattle.geocom_instrument_c.specs.Feeding.{IsFed};
ghost use Rattle.geocom_instrument_c.specs.Setting.{IsRestarted, IsSetUp};
ghost use Rattle.geocom_instrument_c.specs.contracts.bench.GeocomInstrument.{the_row};

use crate::bench::GeocomInstrument;
use crate::replied::{GeocomMade, GeocomReplied};
use std::alloc::Global;

/// How many bytes of memory an instrument needs. They must be aligned to 16 bytes, as those that `malloc` returns are.
#[unsafe(no_mangle)]
pub extern "C" fn geocom_instrument_size() -> usize {
    std::mem::size_of::<GeocomInstrument>()
}

/// Sets up the instrument of a scene's text, in its opening state, in the memory at `at`: `geocom_instrument_size` bytes, aligned
/// to 16 bytes. The call allocates memory while it reads the scene, and frees it.
///
/// Faults: 41, more targets, faults, replies or delays than an instrument can have; 51, the scene's line number `line`, counted
/// from 1, is the first that has no form; 52, memory was refused; 53, more than 65,536 bytes. After a fault no instrument is
/// there, and `geocom_instrument_feed` and `geocom_instrument_restart` return fault 69.
#[unsafe(no_mangle)]
pub unsafe extern "C" fn geocom_instrument_init(
    alloc: Global,
    at: *mut u8,
    scene: &[u8],
) -> GeocomMade
    requires* { sem 𝓛 (room_at the_row at) }
    ensures* { ∃ₛ (λ (after : Option BenchState). sem 𝓛 (lies_at the_row full_share at after) ∗ ⌜ IsSetUp scene.now after result ⌝) }
{
    (at as *mut GeocomInstrument).write(GeocomInstrument::none());
    GeocomInstrument::set_up(&mut *(at as *mut GeocomInstrument), alloc, scene)
}

/// Takes bytes that came at the moment `now`, through the first line feed, and returns the reply to the line that it ends, if
/// there is one, with the moment at which it goes out. Without a line feed all bytes are used, and there is no reply. Call it
/// again with the bytes that are left until all are used. `at` points to an instrument that `geocom_instrument_init` wrote.
/// Moments are milliseconds of the caller's clock, which never runs backwards.
///
/// Fault 69: no instrument is there. No byte was used, and there is no reply.
#[unsafe(no_mangle)]
pub unsafe extern "C" fn geocom_instrument_feed(
    at: *mut u8,
    bytes: &[u8],
    now: u64,
) -> GeocomReplied
    ghost before: { Option BenchState }
    requires* { sem 𝓛 (lies_at the_row full_share at before) }
    ensures* { ∃ₛ (λ (after : Option BenchState). sem 𝓛 (lies_at the_row full_share at after) ∗ ⌜ IsFed before bytes.now now after result ⌝) }
{
    GeocomInstrument::feed(&mut *(at as *mut GeocomInstrument), bytes, now)
}

/// Restarts the instrument, and discards the bytes of an incomplete line. The scene goes on: its counts, its targets and its
/// noise stay, and so does a clock that runs. The instrument is busy until the same moment as before. `at` points to an
/// instrument that `geocom_instrument_init` wrote. Returns 0.
///
/// Fault 69: no instrument is there; nothing has changed.
#[unsafe(no_mangle)]
pub unsafe extern "C" fn geocom_instrument_restart(at: *mut u8) -> u32
    ghost before: { Option BenchState }
    requires* { sem 𝓛 (lies_at the_row full_share at before) }
    ensures* { ∃ₛ (λ (after : Option BenchState). sem 𝓛 (lies_at the_row full_share at after) ∗ ⌜ IsRestarted before after result ⌝) }
{
    GeocomInstrument::restart(&mut *(at as *mut GeocomInstrument))
}
