//! Sign-on lines: what an instrument sends by itself when it is switched on or off.

ghost use Rattle.std.specs.Prelude.{◌≡◌};
ghost use Rattle.gc_texts.specs.SignOns.{is_sign_on};

use crate::cuts::has_part;

/// Whether a line has a sign-on in it: `%N1,`, at its beginning or later, as in `%N1,0,255,,0%T0,0,0,:`. A reply that the start cut off may
/// stand before it in the same line, and a reply after it.
pub fn is_sign_on(line: &[u8]) -> bool
    ensures { result ≡ is_sign_on line.now }
{
    has_part(b"%N1,", line)
}
