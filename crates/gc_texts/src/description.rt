//! Descriptions of procedures that aren't in the table: their parameters, and the columns that have their answers' values.

ghost use Rattle.std.specs.Prelude.{◌≡◌, List, [], map, false, IsTrue, IsFalse, IfSome, IfNone};
ghost use Rattle.std.specs.Option.{option_map};
ghost use Rattle.gc_values.specs.declared.value.Value.{Value};
ghost use Rattle.gc_texts.specs.Descriptions.{EndsColumns, EndsParameters, IsDescription, IsEnd, IsNoColumns, IsNoEnd, IsNoParameters, described_as, description_seen, is_arrow, is_described, kinds_asked};
ghost use Rattle.gc_texts.specs.Fields.{field_seen};
ghost use Rattle.gc_texts.specs.KindLists.{AreOfKinds, kinds_of, kinds_of_fields, kinds_seen};
ghost use Rattle.gc_texts.specs.LineForms.{IsReadAs};

use crate::column_name::are_columns;
use crate::field::{Fields, Stop, read_fields};
use crate::kinds::Kinds;
use crate::procedure::u16_of;
use crate::words::Words;
use arrayvec::ArrayVec;
use gc_catalogue::procedure_name;

/// What a station's text says of a procedure that isn't in the table.
#[derive(Drop)]
pub struct Description {
    /// The procedure's number.
    pub rpc: u16,
    /// Its parameters, at most 16.
    pub params: Fields,
    /// The columns of its answer's values, at most 16.
    pub values: Fields,
    /// Whether an answer may have further values, which have no column.
    pub more: bool,
}

// Whether a list of fields ends with `->`.
fn is_arrow(stop: Stop) -> bool
    ensures { result ≡ is_arrow stop }
{
    match stop {
        Stop::Arrow => true,
        Stop::End | Stop::More => false,
    }
}

// Reads parameters up to the word `->`, which is taken, too, and returns whether the words have this form.
fn read_parameters(words: &mut Words<'_>, params: &mut Fields) -> bool
    requires { params.old.items ≡ [] }
    ensures found { IsTrue result → EndsParameters words.old (map field_seen params.new.items) words.new }
    ensures none { IsFalse result → IsNoParameters words.old }
{
    match read_fields(words, params) {
        Some(stop) => is_arrow(stop),
        None => false,
    }
}

// Whether further values may follow those that a description lists, which ends so: `..` is its last word, or no word follows. `None`:
// it has further words.
fn read_end(stop: Stop, words: &mut Words<'_>) -> Option<bool>
    ensures found { IfSome result (λ more. IsEnd stop words.old more) }
    ensures none { IfNone result (IsNoEnd stop words.old) }
{
    match stop {
        Stop::End => Some(false),
        Stop::Arrow => None,
        Stop::More => match words.next() {
            Some(_) => None,
            None => Some(true),
        },
    }
}

// Reads the columns of an answer, up to the end of the text, and returns whether further values may follow. `None`: the words have no
// such form, or the fields may not be columns.
fn read_columns(words: &mut Words<'_>, values: &mut Fields) -> Option<bool>
    requires { values.old.items ≡ [] }
    ensures found { IfSome result (λ more. EndsColumns words.old (map field_seen values.new.items) more) }
    ensures none { IfNone result (IsNoColumns words.old) }
{
    let stop = read_fields(words, values)?;
    let more = read_end(stop, words)?;
    if !are_columns(values.as_slice()) {
        return None;
    }
    Some(more)
}

/// Reads `RPC NAME KIND .. -> COLUMN KIND ..`, what follows `procedure ` in a line: the number of a procedure that isn't in the table,
/// its parameters and the columns of its answer, at most 16 each, with one space between two words; a last word `..` says that an
/// answer may have further values. `None`: the text has no such form, or the table has the procedure.
pub fn read_description(text: &[u8]) -> Option<Description>
    ensures { IsReadAs (λ d. IsDescription text.now (description_seen d)) result }
{
    let mut words = Words::new(text);
    let number = words.next()?;
    let rpc = u16_of(number)?;
    let is_in_table = procedure_name(rpc).is_some();
    if is_in_table {
        return None;
    }
    let mut params = ArrayVec::new();
    if !read_parameters(&mut words, &mut params) {
        return None;
    }
    let mut values = ArrayVec::new();
    let more = read_columns(&mut words, &mut values)?;
    Some(Description {
        rpc,
        params,
        values,
        more,
    })
}

impl Description {
    /// The kinds of the parameters. A request has just as many.
    pub fn asks(&self) -> Kinds
        ensures kinds { (kinds_seen result).kinds ≡ kinds_of_fields (map field_seen self.now.params.items) }
        ensures also { (kinds_seen result).more ≡ false }
    {
        Kinds::of(self.params.as_slice(), false)
    }

    /// Whether these are parameters of the procedure: as many as it has, each of its kind.
    pub fn takes(&self, params: &[u8]) -> bool
        ensures found { IsTrue result → (values : List Value) × AreOfKinds (kinds_asked self.now) params.now values }
        ensures none { IsFalse result → (values : List Value) → AreOfKinds (kinds_asked self.now) params.now values → ⊥ }
    {
        match self.asks().read(params) {
            Ok(_) => true,
            Err(_) => false,
        }
    }

    /// The kinds of an answer's values.
    pub fn answers(&self) -> Kinds
        ensures kinds { (kinds_seen result).kinds ≡ kinds_of_fields (map field_seen self.now.values.items) }
        ensures also { (kinds_seen result).more ≡ self.now.more }
        ensures is { result ≡ kinds_of (map field_seen self.now.values.items) self.now.more }
    {
        Kinds::of(self.values.as_slice(), self.more)
    }
}

/// The description of the procedure with this number among these: the first one. `None`: none is of it.
pub fn described_as(rpc: u16, described: &[Description]) -> Option<&Description>
    ensures { option_map (λ d. d.now) result ≡ described_as rpc described.now }
{
    described.iter().find(|d| d.rpc == rpc)
}

/// Whether one of these describes the procedure with this number.
pub(crate) fn is_described(rpc: u16, described: &[Description]) -> bool
    ensures { result ≡ is_described rpc described.now }
{
    described.iter().any(|d| d.rpc == rpc)
}
