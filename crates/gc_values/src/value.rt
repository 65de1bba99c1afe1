//! The table of kinds: which values a parameter of each kind has, and how each is read and written.
//! The kinds, their forms and the ranges of whole numbers are those of the GeoCOM manual's ASCII protocol; what is read leniently, the
//! ranges of decimals and strings, and the one written form are this project's own.

ghost use Rattle.std.specs.Prelude.{◌≡◌, IfOk, IfErr};

use crate::appending::push_decimal;
use crate::byte::{push_byte, read_byte};
use crate::decimal::Decimal;
use crate::fault::ValueFault;
use crate::text::{Text, push_text, read_text};
use crate::whole::{push_bool, push_long, push_short, read_bool, read_long, read_short};
use arrayvec::ArrayVec;

/// The kind of a parameter.
#[derive(Clone, Copy, Debug, PartialEq, Eq)]
pub enum Kind {
    /// A decimal: an angle in radians, a length in metres, a temperature in degrees Celsius.
    Double,
    /// A whole number of 32 bits.
    Long,
    /// A whole number of 16 bits.
    Short,
    /// A byte, as two hexadecimal digits between single quotes.
    Byte,
    /// 0 or 1.
    Bool,
    /// Bytes between double quotes.
    Text,
}

/// The value of a parameter.
#[derive(Clone, Copy, PartialEq, Eq)]
pub enum Value {
    Double(Decimal),
    Long(i32),
    Short(i16),
    Byte(u8),
    Bool(bool),
    Text(Text),
}

/// The value in the unused places of an array: false.
impl Default for Value {
    ghost use Rattle.std.specs.Prelude.{false, ◌≡◌};
    ghost use Rattle.gc_values.specs.declared.value.Value.TheVariants as value;

    ghost is_default = { λ v. v ≡ value.Bool false };

    fn default() -> Value {
        Value::Bool(false)
    }
}

impl Value {
    ghost use Rattle.gc_values.specs.declared.value.Value.{Value};
    ghost use Rattle.gc_values.specs.Decimals.{GivesSpelled, SpellsDecimal};
    ghost use Rattle.gc_values.specs.Item.{kind_of, IsItem, IsItemFault, IsValue, text};

    /// The value's kind.
    pub fn kind(&self) -> Kind
        ensures { result ≡ kind_of self.now }
    {
        match self {
            Value::Double(_) => Kind::Double,
            Value::Long(_) => Kind::Long,
            Value::Short(_) => Kind::Short,
            Value::Byte(_) => Kind::Byte,
            Value::Bool(_) => Kind::Bool,
            Value::Text(_) => Kind::Text,
        }
    }

    /// As [`Decimal::read`], but one clause says which fault comes, in the words of the table of kinds (`IsItemFault`).
    fn read_double(item: &[u8]) -> Result<Decimal, ValueFault>
        ensures value { IfOk result (λ d. SpellsDecimal item.now d) }
        ensures only { GivesSpelled item.now result }
        ensures fault { IfErr result (λ e. IsItemFault Kind.Double item.now e) }
    {
        Decimal::read(item)
    }

    /// Reads an item, without spaces round it, as a value of the kind. It is refused as `Spelling` where it hasn't the form of the kind,
    /// and else as `Range` where its value is out of the kind's range (a decimal's is rounded to 24 places first), or it is a
    /// string of more than 64 bytes.
    pub fn read(kind: Kind, item: &[u8]) -> Result<Value, ValueFault>
        ensures value { IfOk result (λ v. (kind_of v ≡ kind) × IsItem item.now v) }
        ensures only { (v : Value) → kind_of v ≡ kind → IsItem item.now v → result ≡ Ok v }
        ensures fault { IfErr result (λ e. IsItemFault kind item.now e) }
    {
        match kind {
            Kind::Double => Ok(Value::Double(Value::read_double(item)?)),
            Kind::Long => Ok(Value::Long(read_long(item)?)),
            Kind::Short => Ok(Value::Short(read_short(item)?)),
            Kind::Byte => Ok(Value::Byte(read_byte(item)?)),
            Kind::Bool => Ok(Value::Bool(read_bool(item)?)),
            Kind::Text => Ok(Value::Text(read_text(item)?)),
        }
    }

    /// Writes the value in its kind's one written form, which reads back. A double is written with all
    /// its places.
    pub fn write(&self) -> ArrayVec<u8, 66>
        ensures text { result.items ≡ text self.now }
        ensures value { IsValue self.now }
        ensures reads_back { IsItem result.items self.now }
    {
        let mut out = ArrayVec::new();
        match self {
            Value::Double(d) => push_decimal(&mut out, d),
            Value::Long(v) => push_long(&mut out, *v),
            Value::Short(v) => push_short(&mut out, *v),
            Value::Byte(v) => push_byte(&mut out, *v),
            Value::Bool(v) => push_bool(&mut out, *v),
            Value::Text(v) => push_text(&mut out, v),
        }
        out
    }
}
