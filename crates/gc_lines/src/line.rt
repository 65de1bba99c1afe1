//! A line holds at most 512 bytes, without its CR LF.

ghost use Rattle.std.specs.Prelude.{◌≡◌, ◌+◌, ◌≤◌, ◌++◌, ◌↔◌, length, drop, IsTrue};
ghost use Rattle.arrayvec.specs.ArrayVec.{array_vec_len};
ghost use Rattle.gc_lines.specs.Lines.{IsPlain, with_end};

use arrayvec::ArrayVec;

/// A line without its CR LF, of at most 512 bytes. The limit is this project's own.
pub type Line = ArrayVec<u8, 512>;

/// Whether these bytes hold neither CR nor LF, so that they can be inside a line.
pub fn is_plain(bytes: &[u8]) -> bool
    ensures { IsTrue result ↔ IsPlain bytes.now }
{
    bytes.iter().all(|b| *b != b'\n' && *b != b'\r')
}

/// Appends these bytes. The caller proves that there is room for them.
#[inline]
pub fn append<const N: usize>(to: &mut ArrayVec<u8, N>, bytes: &[u8])
    requires { array_vec_len to.old + length bytes.now ≤ N }
    ensures { to.new.items ≡ to.old.items ++ bytes.now }
{
    // The caller has shown that there is room, so this never fails.
    let _ = to.try_extend_from_slice(bytes);
}

/// A line of these bytes, which are at most 512.
#[inline]
pub fn line_from(bytes: &[u8]) -> Line
    requires { length bytes.now ≤ 512 }
    ensures { result.items ≡ bytes.now }
{
    let mut line = Line::new();
    append(&mut line, bytes);
    line
}

/// The bytes from place `at` on, counted from 0. `at` is at most their number.
#[inline]
pub fn bytes_from(bytes: &[u8], at: usize) -> &[u8]
    requires { at ≤ length bytes.now }
    ensures { result.now ≡ drop at bytes.now }
{
    &bytes[at..]
}

/// A line and then CR LF.
#[inline]
pub fn with_end(line: &Line) -> ArrayVec<u8, 514>
    ensures { result.items ≡ with_end line.now.items }
{
    let mut text = ArrayVec::new();
    append(&mut text, line);
    append(&mut text, b"\r\n");
    text
}
