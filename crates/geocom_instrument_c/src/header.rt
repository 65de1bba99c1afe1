//! The numbers of the calls for an instrument, which `library/include/geocom.h` has, too. Those of the client are geocom_c's.

ghost use Rattle.std.specs.Prelude.{◌≡◌, ℕ};
ghost use Rattle.gc_texts.specs.Faults.{run_fault_number};
ghost use Rattle.gc_texts.specs.declared.fault.RunFault.{RunFault};
ghost use Rattle.geocom_instrument_c.specs.declared.header.TheConstants.{NO_INSTRUMENT, REPLY_ROOM};

/// The most bytes that a reply has with its CR LF.
pub const REPLY_ROOM: usize = 514;

/// No instrument is there: none was set up, or its scene was refused.
pub const NO_INSTRUMENT: u32 = 69;

/// The constants have the values that the header gives them, and the faults of a scene, which gc_texts names, have the header's
/// numbers. `library/tests/same_numbers.py` compares these clauses with the constants above and with the header. The function
/// does nothing: its contract is the law.
pub fn instrument_numbers_are_the_headers()
    ensures instrument_rooms { REPLY_ROOM ≡ 514 }
    ensures instrument_faults { NO_INSTRUMENT ≡ 69 }
    ensures scene_full { run_fault_number RunFault.SceneFull ≡ 41 }
    ensures scene_line { (line : ℕ) → run_fault_number (RunFault.Schedule line) ≡ 51 }
    ensures scene_memory { run_fault_number RunFault.Memory ≡ 52 }
    ensures scene_long { run_fault_number RunFault.InputTooLong ≡ 53 }
{}
