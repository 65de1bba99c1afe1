//! The fields of a described procedure: names and kinds of its parameters, and of the columns that have its values.

ghost use Rattle.std.specs.Prelude.{◌≡◌, ◌<◌, ◌≤◌, [], length, map, true, IfSome, IfNone};
ghost use Rattle.std.specs.List.{list_all};
ghost use Rattle.gc_texts.specs.LineForms.{IsReadAs};
ghost use Rattle.gc_texts.specs.Fields.{EndsFields, IsNoField, IsNoFieldList, ReadsField, field_seen, is_field_name, is_name_byte, is_small_letter, kind_word};

use crate::cuts::is_word;
use crate::words::Words;
use arrayvec::ArrayVec;
use gc_lines::append;
use gc_values::{Kind, MOST_ITEMS};

/// The most bytes of a field's name.
pub const FIELD_ROOM: usize = 32;

/// A parameter of a described procedure, or a value of its answer.
#[derive(Drop)]
pub struct Field {
    /// The name: a small letter, and then small letters, digits and `_`; at most 32 bytes.
    pub name: ArrayVec<u8, FIELD_ROOM>,
    /// The kind.
    pub kind: Kind,
}

/// The field in the unused places of a list: a Boolean without a name.
impl Default for Field {
    ghost use Rattle.std.specs.Prelude.{◌≡◌, []};
    ghost use Rattle.gc_values.specs.declared.value.Kind.TheVariants as kind;

    ghost is_default = { λ f. (f.name.items ≡ []) × (f.kind ≡ kind.Bool) };

    fn default() -> Field {
        Field {
            name: ArrayVec::new(),
            kind: Kind::Bool,
        }
    }
}

impl Field {
    // The field of this kind, with a copy of these bytes as its name.
    fn new(name: &[u8], kind: Kind) -> Field
        requires { length name.now ≤ 32 }
        ensures name { result.name.items ≡ name.now }
        ensures kind { result.kind ≡ kind }
    {
        let mut copied = ArrayVec::new();
        append(&mut copied, name);
        Field { name: copied, kind }
    }
}

/// The fields of a described procedure's request, or of its answer.
pub type Fields = ArrayVec<Field, MOST_ITEMS>;

// What a list of fields ends with.
#[derive(Clone, Copy)]
pub(crate) enum Stop {
    // Nothing follows.
    End,
    // The word `->`.
    Arrow,
    // The word `..`.
    More,
}

// Whether a byte is a small letter of ASCII.
fn is_small_letter(b: u8) -> bool
    ensures { result ≡ is_small_letter b }
{
    96 < b && b < 123
}

// Whether a name may have a byte after its first.
fn is_name_byte(b: u8) -> bool
    ensures { result ≡ is_name_byte b }
{
    is_small_letter(b) || (47 < b && b < 58) || b == 95
}

// Whether a name may have these bytes after its first.
fn are_name_bytes(bytes: &[u8]) -> bool
    ensures { result ≡ list_all is_name_byte bytes.now }
{
    bytes.iter().all(|b| is_name_byte(*b))
}

// Whether a word may be a field's name.
fn is_field_name(word: &[u8]) -> bool
    ensures { result ≡ is_field_name word.now }
{
    let Some((first, rest)) = word.split_first() else {
        return false;
    };
    let is_short = rest.len() < FIELD_ROOM;
    is_small_letter(*first) && is_short && are_name_bytes(rest)
}

// The kind that a word names. `None`: it names none.
fn kind_of_word(word: &[u8]) -> Option<Kind>
    ensures { IsReadAs (λ kind. word.now ≡ kind_word kind) result }
{
    if is_word(b"Double", word) {
        return Some(Kind::Double);
    }
    if is_word(b"Long", word) {
        return Some(Kind::Long);
    }
    if is_word(b"Short", word) {
        return Some(Kind::Short);
    }
    if is_word(b"Byte", word) {
        return Some(Kind::Byte);
    }
    if is_word(b"Boolean", word) {
        return Some(Kind::Bool);
    }
    if is_word(b"String", word) {
        return Some(Kind::Text);
    }
    None
}

// Reads a field whose name is `name`, and takes the word of its kind. `None`: `name` is no name, or no kind follows.
fn read_field(name: &[u8], words: &mut Words<'_>) -> Option<Field>
    ensures found { IfSome result (λ f. ReadsField name.now words.old (field_seen f) words.new) }
    ensures none { IfNone result (IsNoField name.now words.old) }
{
    if !is_field_name(name) {
        return None;
    }
    let kind = kind_of_word(words.next()?)?;
    Some(Field::new(name, kind))
}

/// Reads fields up to the word that ends them, which is taken, too, and appends them to `fields`. `None`: the words have no such form, or there are
/// more than 16 fields.
pub(crate) fn read_fields(words: &mut Words<'_>, fields: &mut Fields) -> Option<Stop>
    requires { fields.old.items ≡ [] }
    ensures found { IfSome result (λ stop. EndsFields words.old (map field_seen fields.new.items) stop words.new) }
    ensures none { IfNone result (IsNoFieldList words.old) }
{
    while let Some(name) = words.next() {
        if is_word(b"->", name) {
            return Some(Stop::Arrow);
        }
        if is_word(b"..", name) {
            return Some(Stop::More);
        }
        let field = read_field(name, words)?;
        if fields.is_full() {
            return None;
        }
        fields.push(field);
    }
    Some(Stop::End)
}
