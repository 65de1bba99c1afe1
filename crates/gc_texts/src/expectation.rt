//! Expectations: what a line `expect` of a station's text expects of the values of its answer, one item for each.

ghost use Rattle.std.specs.Prelude.{◌≡◌, ◌≤◌, length};
ghost use Rattle.gc_texts.specs.Expectations.{count_among, count_in, counts, expectation_of, expectation_text, has_counter, items_are_met, items_in, meets, values_of};

use crate::cuts::before;
use crate::item::{counters_in, is_counter, item_is_met, number_in};
use crate::words::Words;
use gc_lines::read_reply;
use gc_values::{Decimal, filled_up};

/// The most bytes of an expectation's items.
pub const EXPECTATION_ROOM: usize = 128;

/// The most lines of a station's text that have an item `>`.
pub const COUNTERS: usize = 16;

/// What is expected of the values of an answer.
#[derive(Clone, Copy)]
pub struct Expectation {
    // The items, with a comma between two, and zeros in the places after them.
    bytes: [u8; EXPECTATION_ROOM],
}

impl Expectation {
    // The expectation with these items.
    pub(crate) fn new(items: &[u8]) -> Expectation
        requires { length items.now ≤ 128 }
        ensures { result ≡ expectation_of items.now }
    {
        Expectation {
            bytes: filled_up(items),
        }
    }

    /// The items, as the text has them: with a comma between two.
    pub fn text(&self) -> &[u8]
        ensures is { result.now ≡ expectation_text self.now }
        ensures short { length result.now ≤ 128 }
    {
        before(0, &self.bytes)
    }

    // The items, none of them taken.
    fn items(&self) -> Words<'_>
        ensures { result ≡ items_in (expectation_text self.now) }
    {
        Words::at(b',', self.text())
    }

    // Whether an item is `>`.
    fn has_counter(&self) -> bool
        ensures { result ≡ has_counter self.now }
    {
        counters_in(self.text()) > 0
    }
}

/// Whether something is expected, and an item of it is `>`.
pub(crate) fn counts(expects: &Option<Expectation>) -> bool
    ensures { result ≡ counts expects.now }
{
    match expects {
        Some(expectation) => expectation.has_counter(),
        None => false,
    }
}

// The values of an answer's line; none if the line is no reply.
fn values_of(line: &[u8]) -> Words<'_>
    ensures { result ≡ values_of line.now }
{
    match read_reply(line) {
        Ok(reply) => {
            if reply.params.is_empty() {
                Words::none()
            } else {
                Words::at(b',', reply.params)
            }
        }
        Err(_) => Words::none(),
    }
}

// Whether the values are as the items expect them, one for one.
fn items_are_met(before: &Option<Decimal>, mut items: Words<'_>, mut values: Words<'_>) -> bool
    ensures { result ≡ items_are_met before.now items.entry values.entry }
{
    while let Some(item) = items.next() {
        let Some(value) = values.next() else {
            return false;
        };
        if !item_is_met(before, item, value) {
            return false;
        }
    }
    values.next().is_none()
}

// The number in the place of the first item `>`. `None`: there is no such item, or no number in its place.
fn count_among(mut items: Words<'_>, mut values: Words<'_>) -> Option<Decimal>
    ensures { result ≡ count_among items.entry values.entry }
{
    while let Some(item) = items.next() {
        let value = values.next()?;
        if is_counter(item) {
            return number_in(value);
        }
    }
    None
}

/// Whether an answer's line is as expected: it has a value for each item, as the item expects it; `before` is the number in the place of
/// the item `>` in the answer before, if there was one. `true` if nothing is expected.
pub fn meets(expects: &Option<Expectation>, before: &Option<Decimal>, line: &[u8]) -> bool
    ensures { result ≡ meets expects.now before.now line.now }
{
    match expects {
        Some(expectation) => items_are_met(before, expectation.items(), values_of(line)),
        None => true,
    }
}

/// The number in the place of the item `>` in this line. `None`: nothing is expected, no item is `>`, or in its place is no value, or none
/// that is a number.
pub fn count_in(expects: &Option<Expectation>, line: &[u8]) -> Option<Decimal>
    ensures { result ≡ count_in expects.now line.now }
{
    match expects {
        Some(expectation) => count_among(expectation.items(), values_of(line)),
        None => None,
    }
}
