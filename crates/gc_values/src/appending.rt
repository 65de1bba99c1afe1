//! Appending a decimal, as it is or rounded first.

ghost use Rattle.std.specs.Prelude.{◌≡◌, ◌+◌, ◌≤◌, ◌++◌};
ghost use Rattle.arrayvec.specs.ArrayVec.{array_vec_len};
ghost use Rattle.gc_values.specs.Decimals.{decimal_text, rounded};

use crate::decimal::Decimal;
use crate::tail::Tail;
use arrayvec::ArrayVec;

/// Appends a decimal's one written form, as [`Decimal::write`] returns it, which has at most 40 bytes.
pub fn push_decimal<const N: usize>(out: &mut ArrayVec<u8, N>, d: &Decimal)
    requires room { array_vec_len out.old + 40 ≤ N }
    ensures items { out.new.items ≡ out.old.items ++ decimal_text d.now }
    ensures len { array_vec_len out.new ≤ array_vec_len out.old + 40 }
{
    let mut tail = Tail::new();
    d.put(&mut tail);
    // The caller has shown that there is room, so this never fails.
    let _ = out.try_extend_from_slice(tail.as_bytes());
}

/// Rounds a decimal to at most this many places, half away from zero, and appends its written form, at most 40 bytes.
pub fn push_rounded<const N: usize>(out: &mut ArrayVec<u8, N>, d: &Decimal, places: u8)
    requires room { array_vec_len out.old + 40 ≤ N }
    requires places { places ≤ 24 }
    ensures items { out.new.items ≡ out.old.items ++ decimal_text (rounded d.now places) }
    ensures len { array_vec_len out.new ≤ array_vec_len out.old + 40 }
{
    push_decimal(out, &d.round(places));
}
