//! Sign-on lines: what an instrument sends by itself when it is switched on or off. The rule is gc_texts'.

ghost use Rattle.std.specs.Prelude.{◌≡◌, if◌then◌else◌};
ghost use Rattle.gc_texts.specs.SignOns.{is_sign_on};

use gc_texts::is_sign_on;

/// 1 if a line has a sign-on in it, `%N1,`, at its beginning or later: then the instrument was switched on or off. Otherwise 0. The bytes are
/// those of a line without its CR LF, and any bytes will do.
#[unsafe(no_mangle)]
pub extern "C" fn geocom_is_sign_on(line: &[u8]) -> u32
    ensures { result ≡ (if is_sign_on line.now then 1 else 0) }
{
    u32::from(is_sign_on(line))
}
