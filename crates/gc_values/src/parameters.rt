//! Parameters that are asked for one after the other, from the left. The code of a procedure asks for those that it
//! takes, and learns at the end whether the list had just these kinds. That a list is refused for its quotes, its
//! length, its count and its first faulty item, in this order, is this project's own.

ghost use Rattle.std.specs.Prelude.{◌≡◌, ◌∷◌, [], ℕ, List, Some, IfErr, MatchOption, OnOk};
ghost use Rattle.gc_values.specs.Asked.{FailsFrom, ReadsFrom};
ghost use Rattle.gc_values.specs.declared.decimal.Decimal.{Decimal};
ghost use Rattle.gc_values.specs.Item.{kind_of};
ghost use Rattle.gc_values.specs.Lists.{AreParams, FailsOne, IsListFault, ReadsOne};
ghost use Rattle.gc_values.specs.declared.fault.ValueFault.{ValueFault};
ghost use Rattle.gc_values.specs.declared.value.Kind.{Kind};
ghost use Rattle.gc_values.specs.declared.value.Value.{Value};

use crate::decimal::Decimal;
use crate::fault::ValueFault;
use crate::items::{Items, split};
use crate::text::Text;
use crate::value::{Kind, Value};

/// Parameters that are asked for one after the other, from the left. Where one is missing or can't be read, a zero of
/// its kind is given (false, or an empty string), and the next one can be asked for all the same.
///
/// The clauses of each call go from the state after it to the state before it (`ReadsOne`, `FailsOne`).
pub trait Parameters {
    /// The parameters that are left are read as these values, and each one asked for so far was read.
    ghost reads: { Self → List Value → Type 0 };

    /// Where parameters of these kinds are asked for next, and then none, this is the fault of the whole list.
    ghost fails: { Self → List Kind → ValueFault → Type 0 };

    /// The next parameter, as a decimal.
    fn double(&mut self) -> Decimal
        ensures reads { ReadsOne reads self.old self.new (Value.Double result) }
        ensures fails { FailsOne fails self.old self.new Kind.Double };

    /// The next parameter, as a whole number of 32 bits.
    fn long(&mut self) -> i32
        ensures reads { ReadsOne reads self.old self.new (Value.Long result) }
        ensures fails { FailsOne fails self.old self.new Kind.Long };

    /// The next parameter, as a whole number of 16 bits.
    fn short(&mut self) -> i16
        ensures reads { ReadsOne reads self.old self.new (Value.Short result) }
        ensures fails { FailsOne fails self.old self.new Kind.Short };

    /// The next parameter, as a byte.
    fn byte(&mut self) -> u8
        ensures reads { ReadsOne reads self.old self.new (Value.Byte result) }
        ensures fails { FailsOne fails self.old self.new Kind.Byte };

    /// The next parameter, as a Boolean.
    fn boolean(&mut self) -> bool
        ensures reads { ReadsOne reads self.old self.new (Value.Bool result) }
        ensures fails { FailsOne fails self.old self.new Kind.Bool };

    /// The next parameter, as a string.
    fn text(&mut self) -> Text
        ensures reads { ReadsOne reads self.old self.new (Value.Text result) }
        ensures fails { FailsOne fails self.old self.new Kind.Text };
}

/// The parameters of any list. Where they aren't what was asked for, [`Listed::finish`] names the list's fault.
#[derive(Drop)]
pub struct Listed<'a> {
    // The items, or why the list was refused as a whole.
    items: Result<Items<'a>, ValueFault>,
    // How many items were asked for; one more than there are where more were asked for, and 0 where the list was refused.
    place: usize,
    // The fault of the first item that couldn't be read. `None`: each item that was taken so far was read.
    fault: Option<ValueFault>,
}

impl<'a> Listed<'a> {
    /// The parameters of a list, none of them asked for yet.
    pub fn new(params: &'a [u8]) -> Listed<'a>
        ensures reads { (vs : List Value) → ⟦<Listed<'a> as Parameters>⟧.reads result vs → AreParams params.now vs }
        ensures fails { (ks : List Kind) (e : ValueFault) → ⟦<Listed<'a> as Parameters>⟧.fails result ks e → IsListFault ks params.now e }
    {
        Listed {
            items: split(params),
            place: 0,
            fault: None,
        }
    }

    /// Whether the list had just the parameters that were asked for: `Ok` where it had, and each was read, else the list's
    /// fault.
    ///
    /// The faults come in this order: an odd number of double quotes, more than 16 items, another number of items
    /// than were asked for, and the fault of the first item from the left that isn't a value of its kind.
    pub fn finish(&self) -> Result<(), ValueFault>
        ensures reads { OnOk result (⟦<Listed<'a> as Parameters>⟧.reads self.now []) }
        ensures fails { IfErr result (λ e. ⟦<Listed<'a> as Parameters>⟧.fails self.now [] e) }
    {
        let items = match &self.items {
            Ok(items) => items,
            Err(fault) => return Err(*fault),
        };
        if items.len() != self.place {
            return Err(ValueFault::Count);
        }
        match self.fault {
            Some(fault) => Err(fault),
            None => Ok(()),
        }
    }

    /// Takes the next item as a value of the kind. `None`: the list was refused, or there is no next item, or it can't be read.
    /// An item that can't be read is taken all the same, and its fault is kept if it is the list's first. Where there is no next
    /// item, `place` keeps that more were asked for than there are.
    fn take(&mut self, kind: Kind) -> Option<Value>
        ensures reads { (vs : List Value) → ⟦<Listed<'a> as Parameters>⟧.reads self.new vs
            → MatchOption result ⊥ (λ v. (kind_of v ≡ kind) × ⟦<Listed<'a> as Parameters>⟧.reads self.old (v ∷ vs)) }
        ensures fails { FailsOne ⟦<Listed<'a> as Parameters>⟧.fails self.old self.new kind }
    {
        let Ok(items) = &self.items else {
            return None;
        };
        if self.place >= items.len() {
            self.place = items.len() + 1;
            return None;
        }
        let read = Value::read(kind, items.get(self.place));
        self.place += 1;
        match read {
            Ok(value) => Some(value),
            Err(fault) => {
                if self.fault.is_none() {
                    self.fault = Some(fault);
                }
                None
            }
        }
    }
}

// Each call takes the next item as a value of its kind (`take`), and gives a zero of that kind (false, or an empty string) where
// `take` returns `None`.
impl<'a> Parameters for Listed<'a> {
    ghost reads = { λ c vs. ReadsFrom c.items c.place c.fault vs };

    ghost fails = { λ c ks e. FailsFrom c.items c.place c.fault ks e };

    fn double(&mut self) -> Decimal {
        decimal_of(&self.take(Kind::Double))
    }

    fn long(&mut self) -> i32 {
        match self.take(Kind::Long) {
            Some(Value::Long(n)) => n,
            _ => 0,
        }
    }

    fn short(&mut self) -> i16 {
        match self.take(Kind::Short) {
            Some(Value::Short(n)) => n,
            _ => 0,
        }
    }

    fn byte(&mut self) -> u8 {
        match self.take(Kind::Byte) {
            Some(Value::Byte(n)) => n,
            _ => 0,
        }
    }

    fn boolean(&mut self) -> bool {
        match self.take(Kind::Bool) {
            Some(Value::Bool(b)) => b,
            _ => false,
        }
    }

    fn text(&mut self) -> Text {
        text_of(&self.take(Kind::Text))
    }
}

// The decimal that a value is. It is zero where there is no value, or one of another kind.
fn decimal_of(value: &Option<Value>) -> Decimal
    ensures { (d : Decimal) → value.now ≡ Some (Value.Double d) → result ≡ d }
{
    match value {
        Some(Value::Double(d)) => *d,
        _ => Decimal::zero(),
    }
}

// The text that a value is. It is empty where there is no value, or one of another kind.
fn text_of(value: &Option<Value>) -> Text
    ensures { (t : List ℕ) → value.now ≡ Some (Value.Text t) → result ≡ t }
{
    match value {
        Some(Value::Text(t)) => *t,
        _ => Text::empty(),
    }
}
