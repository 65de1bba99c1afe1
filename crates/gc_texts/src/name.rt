//! Names: what a target is called in the rows.

ghost use Rattle.std.specs.Prelude.{◌≡◌, ◌≤◌, length};
ghost use Rattle.std.specs.List.{list_any};
ghost use Rattle.gc_texts.specs.Names.{is_foreign, is_formula, is_name, is_named, name_text};

use arrayvec::ArrayVec;
use gc_lines::append;

/// The most bytes of a name.
pub const NAME_ROOM: usize = 64;

/// The name of a target.
#[derive(Drop)]
pub struct Name {
    /// The target that has this name.
    pub target: u32,
    /// The name: 1 to 64 bytes, each printable ASCII other than a comma and a double quote, and the first none of `=`, `+`, `-` and `@`.
    pub text: ArrayVec<u8, NAME_ROOM>,
}

impl Name {
    /// The name of this target, with a copy of these bytes as its text.
    pub(crate) fn new(target: u32, bytes: &[u8]) -> Name
        requires { length bytes.now ≤ 64 }
        ensures target { result.target ≡ target }
        ensures text { result.text.items ≡ bytes.now }
    {
        let mut text = ArrayVec::new();
        append(&mut text, bytes);
        Name { target, text }
    }
}

// Whether a text has a byte that no name may have: one that isn't printable ASCII, or a comma or double quote, which rows use.
fn has_foreign_byte(text: &[u8]) -> bool
    ensures { result ≡ list_any is_foreign text.now }
{
    text.iter()
        .any(|b| *b < 32 || *b > 126 || *b == b',' || *b == b'"')
}

// Whether a spreadsheet takes a text for a formula, by its first byte.
fn is_formula(text: &[u8]) -> bool
    ensures { result ≡ is_formula text.now }
{
    match text.first() {
        Some(b) => matches!(*b, b'=' | b'+' | b'-' | b'@'),
        None => false,
    }
}

/// Whether a text is a name: 1 to 64 bytes, all of them allowed in a name, and not what a spreadsheet takes for a formula.
pub(crate) fn is_name(text: &[u8]) -> bool
    ensures { result ≡ is_name text.now }
{
    !text.is_empty() && text.len() <= NAME_ROOM && !is_formula(text) && !has_foreign_byte(text)
}

/// Whether one of `names` is of this target.
pub(crate) fn is_named(target: u32, names: &[Name]) -> bool
    ensures { result ≡ is_named target names.now }
{
    names.iter().any(|name| name.target == target)
}

/// The name of a target: that of the first of `names` that is of this target; empty if none is.
pub fn name_text(target: u32, names: &[Name]) -> &[u8]
    ensures is { result.now ≡ name_text target names.now }
    ensures short { length result.now ≤ 64 }
{
    for name in names {
        if name.target == target {
            return name.text.as_slice();
        }
    }
    b""
}
