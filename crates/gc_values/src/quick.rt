//! Parameters in the common spelling, read in one pass and without a list of items. An item in the common spelling isn't empty and has
//! no byte below `-` but single quotes: no spaces, no double quotes, no plus. Anything else is left to `Listed`. A list is called good
//! while each parameter that was asked for was there in the common spelling, and was read.

ghost use Rattle.std.specs.Prelude.{◌≡◌, ◌∷◌, [], List, IfSome, IfNone, IsTrue, false, true};
ghost use Rattle.std.specs.Option.{option_copied};
ghost use Rattle.gc_values.specs.Lists.{AreParams};
ghost use Rattle.gc_values.specs.Plainly.{CutsPlain};
ghost use Rattle.gc_values.specs.Taken.{GivesRead, QuickReads, TakesItem, TakesNumber, TakesPlainly};
ghost use Rattle.gc_values.specs.declared.value.Value.{Value};

use crate::byte::read_byte;
use crate::decimal::Decimal;
use crate::front::{front_decimal, front_number};
use crate::parameters::Parameters;
use crate::text::Text;
use crate::whole::{read_bool, read_long, read_short};

/// The parameters of a list in the common spelling. Where they aren't just what was asked for, or one has another
/// spelling, [`Quick::is_done`] returns false at the end. Then nothing is known of the list, and
/// [`Listed`](crate::Listed) reads it again.
#[derive(Drop)]
pub struct Quick<'a> {
    // The text that is left to read: the whole list at first, later what follows a comma. `None`: the end of the list was
    // reached, or the list is empty.
    rest: Option<&'a [u8]>,
    // Whether all that was asked for so far was there and was read.
    good: bool,
}

impl<'a> Quick<'a> {
    /// The parameters of a list, none of them asked for yet.
    #[inline]
    pub fn new(params: &'a [u8]) -> Quick<'a>
        ensures { (vs : List Value) → ⟦<Quick<'a> as Parameters>⟧.reads result vs → AreParams params.now vs }
    {
        if params.is_empty() {
            return Quick {
                rest: None,
                good: true,
            };
        }
        Quick {
            rest: Some(params),
            good: true,
        }
    }

    /// Whether just the parameters that were asked for are there, each in the common spelling, and each was read. Where it
    /// returns false, nothing is known of the list.
    #[inline]
    pub fn is_done(&self) -> bool
        ensures { IsTrue result → ⟦<Quick<'a> as Parameters>⟧.reads self.now [] }
    {
        self.good && self.rest.is_none()
    }

    // Notes that what was asked for couldn't be read: the list isn't good any more, and the call gives this value in its place.
    #[inline]
    fn fail_with<T>(&mut self, value: T) -> T
        ensures value { result ≡ value }
        ensures good { self.new.good ≡ false }
    {
        self.good = false;
        value
    }

    // The value that was read. If there is none, the list isn't good any more, and the call gives this zero in its place.
    #[inline]
    fn read_or<T: Drop, E: Drop>(&mut self, read: Result<T, E>, zero: T) -> T
        ensures { GivesRead read result self.old self.new }
    {
        match read {
            Ok(value) => value,
            Err(_) => self.fail_with(zero),
        }
    }

    // Takes the next item. Where none in the common spelling follows, the result is empty, and the list isn't good any more.
    #[inline]
    fn item(&mut self) -> &'a [u8]
        ensures { TakesItem result.now self.old self.new }
    {
        if let Some(text) = self.rest {
            if let Some(cut) = cut_plain(text) {
                self.rest = cut.1;
                return cut.0;
            }
        }
        self.fail_with(&[])
    }

    // Takes the next parameter, if it is a whole number of 1 to 18 digits without a sign. `None`: something else follows, or the
    // end of the list was reached; then nothing was taken.
    #[inline]
    fn number(&mut self) -> Option<u64>
        ensures reads { IfSome result (λ n. TakesNumber n self.old self.new) }
        ensures none { IfNone result (self.new ≡ self.old) }
    {
        let text = self.rest?;
        let (number, rest) = front_number(text)?;
        self.rest = rest;
        Some(number)
    }

    // Takes the next item as a decimal, also one with a minus, an exponent or many digits. Where no item in the common spelling
    // follows, or it can't be read as a decimal: zero, and the list isn't good any more.
    #[inline(never)]
    fn take_as_double(&mut self) -> Decimal
        ensures { TakesPlainly (Value.Double result) self.old self.new }
    {
        let read = Decimal::read(self.item());
        self.read_or(read, Decimal::zero())
    }

    // As `take_as_double`, for a whole number of 32 bits.
    #[inline(never)]
    fn take_as_long(&mut self) -> i32
        ensures { TakesPlainly (Value.Long result) self.old self.new }
    {
        let read = read_long(self.item());
        self.read_or(read, 0)
    }

    // As `take_as_double`, for a whole number of 16 bits.
    #[inline(never)]
    fn take_as_short(&mut self) -> i16
        ensures { TakesPlainly (Value.Short result) self.old self.new }
    {
        let read = read_short(self.item());
        self.read_or(read, 0)
    }

    // As `take_as_double`, for a Boolean: false in place of zero.
    #[inline(never)]
    fn take_as_boolean(&mut self) -> bool
        ensures { TakesPlainly (Value.Bool result) self.old self.new }
    {
        let read = read_bool(self.item());
        self.read_or(read, false)
    }
}

// A call for a decimal, a whole number or a Boolean first tries the shortest form: few digits without a sign. Where no parameter
// in the common spelling follows, or it isn't what was asked for, the call gives a zero (false, or an empty string), and the list
// isn't good any more.
impl<'a> Parameters for Quick<'a> {
    ghost reads = { QuickReads };

    ghost fails = { λ c ks e. ⊥ };

    #[inline]
    fn double(&mut self) -> Decimal {
        if let Some(text) = self.rest {
            if let Some((decimal, rest)) = front_decimal(text) {
                self.rest = rest;
                return decimal;
            }
        }
        self.take_as_double()
    }

    #[inline]
    fn long(&mut self) -> i32 {
        match self.number() {
            Some(number) => self.read_or(i32::try_from(number), 0),
            None => self.take_as_long(),
        }
    }

    #[inline]
    fn short(&mut self) -> i16 {
        match self.number() {
            Some(number) => self.read_or(i16::try_from(number), 0),
            None => self.take_as_short(),
        }
    }

    #[inline]
    fn byte(&mut self) -> u8 {
        let read = read_byte(self.item());
        self.read_or(read, 0)
    }

    #[inline]
    fn boolean(&mut self) -> bool {
        let Some(number) = self.number() else {
            return self.take_as_boolean();
        };
        match number {
            0 => false,
            1 => true,
            _ => self.fail_with(false),
        }
    }

    // A string has double quotes, and so is never in the common spelling.
    #[inline]
    fn text(&mut self) -> Text {
        self.fail_with(Text::empty())
    }
}

// The item at the front, where it has the common spelling, and what follows its comma, if there is one. `None`: it has another
// spelling, or is empty.
#[inline]
fn cut_plain(text: &[u8]) -> Option<(&[u8], Option<&[u8]>)>
    ensures { IfSome result (λ cut. CutsPlain text.now cut.0.now (option_copied cut.1)) }
{
    for (i, byte) in text.iter().enumerate() {
        if *byte == b',' {
            if i == 0 {
                return None;
            }
            let (item, rest) = text.split_at(i);
            return Some((item, Some(&rest[1..])));
        }
        // Spaces, double quotes and pluses are below `-`. So are the single quotes of a byte parameter, but these are allowed
        // here.
        if *byte < b'-' && *byte != b'\'' {
            return None;
        }
    }
    if text.is_empty() {
        return None;
    }
    Some((text, None))
}
