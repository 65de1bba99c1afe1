//! Values of files in a command's parameters: an item `{FILE SECONDS}` stands for a number that is taken from a file each time that the
//! command is sent. Which items are such, and the request that they make with values, is decided here alone.

ghost use Rattle.std.specs.Prelude.{◌≡◌, ◌<◌, ◌≤◌, ◌++◌, nat_lt, length, drop, IfSome, IfNone, IsTrue, IsFalse};
ghost use Rattle.gc_texts.specs.LineForms.{IsReadAs};
ghost use Rattle.gc_texts.specs.ValueFiles.{AddsFiles};
ghost use Rattle.gc_texts.specs.ValueItems.{AreValueFiles, IsValueFile, filled, filled_call, first_of, has_quote, is_missing, is_value_item, lack, no_needs, sampled, samples, text_for, value_items, values_after, values_in, with_item, IsSoundItem};

use crate::cuts::{after_prefix, cut_at};
use crate::procedure::number_of;
use crate::words::Words;
use arrayvec::ArrayVec;
use gc_catalogue::{RAW_BYTES, RawCall};
use gc_lines::append;
use gc_values::{FILE_VALUES, FileValues, VALUE_BYTES, ValueFile, filled_up, value_text};

// The most seconds that may lie between the last change of a file and the moment at which its value is taken: a day.
const SECONDS_MAX: u64 = 86400;

// A number with the longest written form. A request has to have room for it in the place of each value.
const SAMPLE: &[u8] = b"-1000000000000.000000000000000000000001";

/// Which values of files the request of a command takes: so many of the text's, from this one on, counted from 0.
#[derive(Clone, Copy)]
pub struct Needs {
    /// The number of the first.
    pub first: usize,
    /// How many there are.
    pub count: usize,
}

impl Needs {
    /// No value.
    pub fn none() -> Needs
        ensures { result ≡ no_needs }
    {
        Needs { first: 0, count: 0 }
    }

    /// Whether one of these is missing among the values: its file gave none.
    pub fn lack(&self, values: &FileValues) -> bool
        ensures { result ≡ lack self.now values.now }
    {
        values
            .iter()
            .skip(self.first)
            .take(self.count)
            .any(is_missing)
    }
}

// Whether a file gave no value.
fn is_missing(value: &[u8; VALUE_BYTES]) -> bool
    ensures { result ≡ is_missing value.now }
{
    value_text(value).is_empty()
}

// Whether an item of parameters stands for a value of a file: it begins with a brace.
fn is_value_item(item: &[u8]) -> bool
    ensures { result ≡ is_value_item item.now }
{
    match item.first() {
        Some(byte) => *byte == b'{',
        None => false,
    }
}

// Reads `{FILE SECONDS}`: the path of a file, and how old its value may be. `None`: the item has no such form, the path has more than 128
// bytes or one that it may not have, or the number lies outside 1 to 86400.
pub(crate) fn read_value_file(item: &[u8]) -> Option<ValueFile>
    ensures { IsReadAs (IsValueFile item.now) result }
{
    let rest = after_prefix(b"{", item)?;
    let (last, inside) = rest.split_last()?;
    if *last != b'}' {
        return None;
    }
    let (path, digits) = cut_at(b' ', inside);
    let seconds = number_of(digits?, SECONDS_MAX)?;
    if seconds == 0 {
        return None;
    }
    ValueFile::new(path, seconds)
}

// Whether there is a double quote among parameters. Then a comma may be part of a string, and no item stands for a value.
fn has_quote(params: &[u8]) -> bool
    ensures { result ≡ has_quote params.now }
{
    params.iter().any(|byte| *byte == b'"')
}

/// Whether an item of parameters stands for a value of a file.
pub(crate) fn has_values(params: &[u8]) -> bool
    ensures { result ≡ nat_lt 0 (values_in params.now) }
{
    if has_quote(params) {
        return false;
    }
    let mut items = Words::at(b',', params);
    while let Some(item) = items.next() {
        if is_value_item(item) {
            return true;
        }
    }
    false
}

/// How many items of parameters stand for values of files.
pub(crate) fn count_values(params: &[u8]) -> usize
    requires { length params.now ≤ 503 }
    ensures is { result ≡ values_in params.now }
    ensures few { result ≤ 504 }
{
    if has_quote(params) {
        return 0;
    }
    let mut items = Words::at(b',', params);
    let mut count = 0;
    while let Some(item) = items.next() {
        if is_value_item(item) {
            count += 1;
        }
    }
    count
}

// Whether an item may be where items stand for values: it is `{FILE SECONDS}`, or doesn't begin with a brace.
fn is_sound(item: &[u8]) -> bool
    ensures found { IsTrue result → IsSoundItem item.now }
    ensures none { IsFalse result → IsSoundItem item.now → ⊥ }
{
    if !is_value_item(item) {
        return true;
    }
    match read_value_file(item) {
        Some(_) => true,
        None => false,
    }
}

/// Whether each item of parameters that begins with a brace is `{FILE SECONDS}`.
pub(crate) fn are_sound(params: &[u8]) -> bool
    ensures found { IsTrue result → AreValueFiles (value_items params.now) }
    ensures none { IsFalse result → AreValueFiles (value_items params.now) → ⊥ }
{
    let mut items = Words::at(b',', params);
    while let Some(item) = items.next() {
        if !is_sound(item) {
            return false;
        }
    }
    true
}

/// Appends the files that the items of parameters name, as far as there is room, up to the first item that has no such form.
pub(crate) fn append_files(params: &[u8], files: &mut ArrayVec<ValueFile, FILE_VALUES>)
    ensures { AddsFiles params.now files.old.items files.new.items }
{
    let mut items = Words::at(b',', params);
    while let Some(item) = items.next() {
        if !is_value_item(item) {
            continue;
        }
        let Some(file) = read_value_file(item) else {
            return
        };
        if files.len() == FILE_VALUES {
            return;
        }
        files.push(file);
    }
}

// Appends bytes to parameters. `None`: there is no room for all of them, and none is appended.
fn put(params: &mut ArrayVec<u8, RAW_BYTES>, bytes: &[u8]) -> Option<()>
    ensures found { IfSome result (λ done. params.new.items ≡ params.old.items ++ bytes.now) }
    ensures none { IfNone result (503 < length (params.old.items ++ bytes.now)) }
{
    if bytes.len() > RAW_BYTES - params.len() {
        return None;
    }
    append(params, bytes);
    Some(())
}

// The text of the first of these values; empty if there is none.
fn first_of(values: &[[u8; VALUE_BYTES]]) -> &[u8]
    ensures { result.now ≡ first_of values.now }
{
    match values.first() {
        Some(value) => value_text(value),
        None => b"",
    }
}

// What stands in the place of an item: the text of the first of these values, if the item stands for one.
fn text_for<'a>(values: &'a [[u8; VALUE_BYTES]], item: &'a [u8]) -> &'a [u8]
    ensures { result.now ≡ text_for values.now item.now }
{
    if is_value_item(item) {
        first_of(values)
    } else {
        item
    }
}

// The values for the items after this one.
fn values_after<'a>(values: &'a [[u8; VALUE_BYTES]], item: &[u8]) -> &'a [[u8; VALUE_BYTES]]
    ensures { result.now ≡ values_after values.now item.now }
{
    if !is_value_item(item) {
        return values;
    }
    match values.split_first() {
        Some((_, rest)) => rest,
        None => values,
    }
}

// Appends an item to parameters, behind a comma if it isn't the first. `None`: there is no room for all of it.
fn put_item(params: &mut ArrayVec<u8, RAW_BYTES>, begun: bool, item: &[u8]) -> Option<()>
    ensures found { IfSome result (λ done. params.new.items ≡ with_item begun params.old.items item.now) }
    ensures none { IfNone result (503 < length (with_item begun params.old.items item.now)) }
{
    if begun {
        put(params, b",")?;
    }
    put(params, item)
}

// The parameters with the texts of these values in the places of the items that stand for values, in order. `None`: they would have more
// than 503 bytes, too many for a request.
fn filled(params: &[u8], values: &[[u8; VALUE_BYTES]]) -> Option<ArrayVec<u8, RAW_BYTES>>
    ensures found { IfSome result (λ full. full.items ≡ filled values.now params.now) }
    ensures none { IfNone result (503 < length (filled values.now params.now)) }
{
    let mut full = ArrayVec::new();
    let mut values = values;
    let mut items = Words::at(b',', params);
    let mut begun = false;
    while let Some(item) = items.next() {
        put_item(&mut full, begun, text_for(values, item))?;
        values = values_after(values, item);
        begun = true;
    }
    Some(full)
}

/// The values from this one on, counted from 0; none if there are not so many.
pub(crate) fn values_from(values: &FileValues, first: usize) -> &[[u8; VALUE_BYTES]]
    ensures { result.now ≡ drop first values.now }
{
    if first > FILE_VALUES {
        return &[];
    }
    &values[first..]
}

/// A request with the texts of these values in the places of the items of its parameters that stand for values, in order. If it may not be
/// asked for so, the request as it is: never so of a text's, whose values all have room.
pub(crate) fn filled_call(raw: &RawCall, values: &[[u8; VALUE_BYTES]]) -> RawCall
    ensures { result ≡ filled_call raw.now values.now }
{
    match filled(raw.params(), values) {
        Some(params) => raw.with_params(&params).unwrap_or(*raw),
        None => *raw,
    }
}

// Numbers of the longest form.
fn samples() -> FileValues
    ensures { result ≡ samples }
{
    [filled_up(SAMPLE); FILE_VALUES]
}

/// The parameters of a request with a number of the longest form in the places of the items that stand for values. `None`: it may not be
/// asked for so.
pub(crate) fn sampled(raw: &RawCall) -> Option<RawCall>
    ensures { result ≡ sampled raw.now }
{
    let params = filled(raw.params(), &samples())?;
    raw.with_params(&params)
}
