//! Items: what a line `expect` of a station's text expects of one value, and which texts are such items.

ghost use Rattle.std.specs.Prelude.{◌≡◌, ◌+◌, ◌≤◌, length, IfSome};
ghost use Rattle.std.specs.List.{list_any};
ghost use Rattle.std.specs.Option.{option_copied};
ghost use Rattle.gc_texts.specs.Expectations.{are_same, counters_in, dots_in, ends_in_space, has_outer_space, is_as, is_counter, is_from_to, is_greater, is_item, is_sound, is_space, is_unprintable, item_is_met, item_of, items_in, items_trouble, no_item_in, range_of};
ghost use Rattle.gc_texts.specs.Numerals.{decimal_in};

use crate::near::read_double;
use crate::trouble::Trouble;
use crate::words::Words;
use gc_values::{Decimal, MOST_ITEMS};

// The most bytes of a line's items.
const ITEMS_ROOM: usize = 128;

// What an item of a line `expect` expects of the value in its place.
#[derive(Clone, Copy)]
enum Item {
    // Any value.
    Any,
    // A number greater than the one before.
    Greater,
    // A number from the first to the second.
    Range(Decimal, Decimal),
    // A range of which an end is no number: no line has such an item.
    NoRange,
    // The value that the item is.
    Value,
}

// The number that a text is. `None`: it is none, or out of range (`read_double`).
pub(crate) fn number_in(text: &[u8]) -> Option<Decimal>
    ensures { result ≡ decimal_in text.now }
{
    read_double(text)
}

// Whether there is a number, and it is greater than the one before; any is if there was none before.
fn is_greater(before: &Option<Decimal>, number: Option<Decimal>) -> bool
    ensures { result ≡ is_greater before.now number }
{
    match (before, number) {
        (Some(before), Some(number)) => !(number.units() <= before.units()),
        (None, Some(_)) => true,
        (_, None) => false,
    }
}

// Whether there is a number, and it is from `low` to `high`.
fn is_from_to(low: Decimal, high: Decimal, number: Option<Decimal>) -> bool
    ensures { result ≡ is_from_to low high number }
{
    match number {
        Some(number) => low.units() <= number.units() && number.units() <= high.units(),
        None => false,
    }
}

// Whether there are two numbers, and they are the same.
fn are_same(one: Option<Decimal>, other: Option<Decimal>) -> bool
    ensures { result ≡ are_same one other }
{
    match (one, other) {
        (Some(one), Some(other)) => one == other,
        _ => false,
    }
}

// The place of the first `..` in an item. `None`: it has none.
fn dots_in(item: &[u8]) -> Option<usize>
    ensures is { result ≡ dots_in item.now }
    ensures within { IfSome result (λ place. place + 2 ≤ length item.now) }
{
    let mut place = 0;
    let mut left = item;
    while let Some((_, rest)) = left.split_first() {
        if left.starts_with(b"..") {
            return Some(place);
        }
        place += 1;
        left = rest;
    }
    None
}

// The range of two numbers. `NoRange`: one of them isn't there.
fn range_of(low: Option<Decimal>, high: Option<Decimal>) -> Item
    ensures { result ≡ range_of low high }
{
    match (low, high) {
        (Some(low), Some(high)) => Item::Range(low, high),
        _ => Item::NoRange,
    }
}

// Whether an item is `>`.
pub(crate) fn is_counter(item: &[u8]) -> bool
    ensures { result ≡ is_counter item.now }
{
    item == b">".as_slice()
}

// What an item is.
fn item_of(item: &[u8]) -> Item
    ensures { result ≡ item_of item.now }
{
    if item == b"*".as_slice() {
        return Item::Any;
    }
    if is_counter(item) {
        return Item::Greater;
    }
    match dots_in(item) {
        Some(place) => range_of(number_in(&item[..place]), number_in(&item[place + 2..])),
        None => Item::Value,
    }
}

// Whether a value is as an item expects it; `before` is the number in the answer before.
pub(crate) fn item_is_met(before: &Option<Decimal>, item: &[u8], value: &[u8]) -> bool
    ensures { result ≡ item_is_met before.now item.now value.now }
{
    match item_of(item) {
        Item::Any => true,
        Item::Greater => is_greater(before, number_in(value)),
        Item::Range(low, high) => is_from_to(low, high, number_in(value)),
        Item::NoRange => false,
        Item::Value => value == item || are_same(number_in(item), number_in(value)),
    }
}

// Whether a byte is there, and is a space.
fn is_space(byte: Option<&u8>) -> bool
    ensures { result ≡ is_space (option_copied byte.entry) }
{
    match byte {
        Some(byte) => *byte == b' ',
        None => false,
    }
}

// Whether a text ends in a space.
pub(crate) fn ends_in_space(text: &[u8]) -> bool
    ensures { result ≡ ends_in_space text.now }
{
    is_space(text.last())
}

// Whether an item has a space at one of its ends.
fn has_outer_space(item: &[u8]) -> bool
    ensures { result ≡ has_outer_space item.now }
{
    is_space(item.first()) || ends_in_space(item)
}

// Whether a text has a byte that isn't printable ASCII.
fn has_unprintable(text: &[u8]) -> bool
    ensures { result ≡ list_any is_unprintable text.now }
{
    text.iter().any(|b| *b < 32 || *b > 126)
}

// Whether an item may be what it is: a range has two numbers, the lesser first.
fn is_sound(item: Item) -> bool
    ensures { result ≡ is_sound item }
{
    match item {
        Item::Range(low, high) => low.units() <= high.units(),
        Item::NoRange => false,
        _ => true,
    }
}

// Whether a text may be an item.
fn is_item(text: &[u8]) -> bool
    ensures { result ≡ is_item text.now }
{
    !text.is_empty() && !has_unprintable(text) && !has_outer_space(text) && is_sound(item_of(text))
}

// How many items a text has.
fn count_items(text: &[u8]) -> usize
    requires { length text.now ≤ 128 }
    ensures { result ≡ length (items_in text.now) }
{
    let mut items = Words::at(b',', text);
    let mut count = 0;
    while items.next().is_some() {
        count += 1;
    }
    count
}

// How many items of a text are `>`.
pub(crate) fn counters_in(text: &[u8]) -> usize
    requires { length text.now ≤ 128 }
    ensures { result ≡ counters_in text.now }
{
    let mut items = Words::at(b',', text);
    let mut count = 0;
    while let Some(item) = items.next() {
        if is_counter(item) {
            count += 1;
        }
    }
    count
}

// The place of the first item of a text that is none, counted from 1. `None`: each is one.
fn no_item_in(text: &[u8]) -> Option<usize>
    requires { length text.now ≤ 128 }
    ensures { result ≡ no_item_in (items_in text.now) }
{
    let mut items = Words::at(b',', text);
    let mut passed = 0;
    while let Some(item) = items.next() {
        if !is_item(item) {
            return Some(passed + 1);
        }
        passed += 1;
    }
    None
}

/// What is at fault in a text that is to be a line's items. `None`: nothing is.
pub(crate) fn items_trouble(text: &[u8]) -> Option<Trouble>
    ensures { result ≡ items_trouble text.now }
{
    if text.len() > ITEMS_ROOM {
        return Some(Trouble::ExpectLong);
    }
    if count_items(text) > MOST_ITEMS {
        return Some(Trouble::ExpectMany);
    }
    if counters_in(text) > 1 {
        return Some(Trouble::ExpectTwo);
    }
    match no_item_in(text) {
        Some(place) => Some(Trouble::ExpectItem(place)),
        None => None,
    }
}
