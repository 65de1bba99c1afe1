//! Takers, to which the number of a call and the values of a call or an answer are handed one by one: `ArrayVec` appends them as
//! bytes, and `NumberAlone` stores the number.

ghost use Rattle.std.specs.Prelude.{◌≡◌, ◌+◌, ◌-◌, ◌/◌, ◌≤◌, ◌++◌, ◌∷◌, [], ℕ, List, Option, length, suc};
ghost use Rattle.arrayvec.specs.ArrayVec.{array_vec_len};
ghost use Rattle.gc_lines.specs.Headers.{MayBeId};
ghost use Rattle.gc_lines.specs.Requests.{request_text};
ghost use Rattle.gc_values.specs.Decimals.{rounded};
ghost use Rattle.gc_values.specs.Lists.{AreValues};
ghost use Rattle.gc_values.specs.declared.value.Value.{Value};
ghost use Rattle.gc_catalogue.specs.Lists.{TakesValue, before_commas};

use arrayvec::ArrayVec;
use gc_lines::push_request;
use gc_values::{
    Decimal, Text, push_bool, push_byte, push_decimal, push_long, push_rounded, push_short,
    push_text,
};

/// A taker of a call's number, with the request's id, and of values, from the left. Each method's clause `takes` says what was taken
/// from the state before the method up to some later state `t`: the method's own value, and then what was taken after it.
pub(crate) trait Taker {
    /// How many values can still be taken; a procedure's number counts as one. Taking one lowers this by one at most.
    ghost room: { Self → ℕ };

    /// From the first state to the last, these values were taken.
    ghost takes: { Self → List Value → Self → Type 0 };

    /// From the first state to the last, this number was taken with the id, and then these values.
    ghost begins: { Self → Option ℕ → ℕ → List Value → Self → Type 0 };

    /// Takes a procedure's number, and the request's id, if it has one.
    fn number(&mut self, rpc: u16, id: Option<u8>)
        requires room { 1 ≤ room self.old }
        requires id { MayBeId id }
        ensures room { room self.old ≤ suc (room self.new) }
        ensures takes { (vs : List Value) (t : Self) → takes self.new vs t → begins self.old id rpc vs t };

    /// Takes a decimal with all its places.
    fn double(&mut self, v: &Decimal)
        requires { 1 ≤ room self.old }
        ensures room { room self.old ≤ suc (room self.new) }
        ensures takes { TakesValue takes self.old self.new (Value.Double v.now) };

    /// Takes a decimal rounded to the places.
    fn rounded(&mut self, v: &Decimal, places: u8)
        requires places { places ≤ 15 }
        requires room { 1 ≤ room self.old }
        ensures room { room self.old ≤ suc (room self.new) }
        ensures takes { TakesValue takes self.old self.new (Value.Double (rounded v.now places)) };

    /// Takes a whole number of 32 bits.
    fn long(&mut self, v: i32)
        requires { 1 ≤ room self.old }
        ensures room { room self.old ≤ suc (room self.new) }
        ensures takes { TakesValue takes self.old self.new (Value.Long v) };

    /// Takes a whole number of 16 bits.
    fn short(&mut self, v: i16)
        requires { 1 ≤ room self.old }
        ensures room { room self.old ≤ suc (room self.new) }
        ensures takes { TakesValue takes self.old self.new (Value.Short v) };

    /// Takes a byte.
    fn byte(&mut self, v: u8)
        requires { 1 ≤ room self.old }
        ensures room { room self.old ≤ suc (room self.new) }
        ensures takes { TakesValue takes self.old self.new (Value.Byte v) };

    /// Takes a Boolean.
    fn boolean(&mut self, v: bool)
        requires { 1 ≤ room self.old }
        ensures room { room self.old ≤ suc (room self.new) }
        ensures takes { TakesValue takes self.old self.new (Value.Bool v) };

    /// Takes a string.
    fn text(&mut self, v: &Text)
        requires { 1 ≤ room self.old }
        ensures room { room self.old ≤ suc (room self.new) }
        ensures takes { TakesValue takes self.old self.new (Value.Text v.now) };
}

/// A taker that stores a call's number, and ignores the id and the values.
#[derive(Drop)]
pub(crate) struct NumberAlone {
    pub(crate) rpc: u16,
}

impl Taker for NumberAlone {
    // There is always room for all that a call hands over: its number and at most six values.
    ghost room = { λ s. 7 };

    ghost takes = { λ s vs t. t ≡ s };

    ghost begins = { λ s id rpc vs t. t.rpc ≡ rpc };

    fn number(&mut self, rpc: u16, _id: Option<u8>) {
        self.rpc = rpc;
    }

    fn double(&mut self, _v: &Decimal) {}

    fn long(&mut self, _v: i32) {}

    fn short(&mut self, _v: i16) {}

    fn byte(&mut self, _v: u8) {}

    fn boolean(&mut self, _v: bool) {}

    fn rounded(&mut self, _v: &Decimal, _places: u8) {}

    fn text(&mut self, _v: &Text) {}
}

/// `number` appends the front of a request line, up to and with its colon; each other method appends its value's text and a comma.
impl<const N: usize> Taker for ArrayVec<u8, N> {
    // A value's text has at most 66 bytes, and a comma follows it.
    ghost room = { λ s. (N - length s.items) / 67 };

    ghost takes = { λ s vs t. (t.items ≡ s.items ++ before_commas vs) × AreValues vs };

    ghost begins = { λ s id rpc vs t. (t.items ≡ s.items ++ (request_text (record { rpc = rpc; id = id; params = [] }) ++ before_commas vs)) × AreValues vs };

    fn number(&mut self, rpc: u16, id: Option<u8>) {
        push_request(self, rpc, id);
    }

    fn double(&mut self, v: &Decimal) {
        push_decimal(self, v);
        self.push(b',');
    }

    fn long(&mut self, v: i32) {
        push_long(self, v);
        self.push(b',');
    }

    fn short(&mut self, v: i16) {
        push_short(self, v);
        self.push(b',');
    }

    fn byte(&mut self, v: u8) {
        push_byte(self, v);
        self.push(b',');
    }

    fn boolean(&mut self, v: bool) {
        push_bool(self, v);
        self.push(b',');
    }

    fn rounded(&mut self, v: &Decimal, places: u8) {
        push_rounded(self, v, places);
        self.push(b',');
    }

    fn text(&mut self, v: &Text) {
        push_text(self, v);
        self.push(b',');
    }
}
