// The values, each of which carries its type and lies in that type's range.
ghost use Rattle.std.specs.Prelude.{◌≡◌, ◌-◌, ◌^◌, ◌<◌, Some};
ghost use Rattle.java.specs.Values.{value_type, number, least, greatest, InRange, residue, width, value_of, value_with, new_value, Constructed, value_text};

use crate::types::{Numeric, Primitive};
use std::fmt;

#[derive(Clone, Copy, PartialEq, Eq, Debug)]
pub enum Value {
    Boolean(bool),
    Byte(i8),
    Short(i16),
    Char(u16),
    Int(i32),
    Long(i64),
}

impl Primitive {
    // The least and the greatest number of this type.
    pub fn least(self) -> i64
        ensures { result ≡ least self }
    {
        match self {
            Primitive::Boolean => 0,
            Primitive::Byte => i64::from(i8::MIN),
            Primitive::Short => i64::from(i16::MIN),
            Primitive::Char => i64::from(u16::MIN),
            Primitive::Int => i64::from(i32::MIN),
            Primitive::Long => i64::MIN,
        }
    }

    pub fn greatest(self) -> i64
        ensures { result ≡ greatest self }
    {
        match self {
            Primitive::Boolean => 1,
            Primitive::Byte => i64::from(i8::MAX),
            Primitive::Short => i64::from(i16::MAX),
            Primitive::Char => i64::from(u16::MAX),
            Primitive::Int => i64::from(i32::MAX),
            Primitive::Long => i64::MAX,
        }
    }
}

impl Value {
    // The value of a type that has this number; none where the type has no such number.
    pub fn new(of: Primitive, number: i64) -> Option<Value>
        ensures value { result ≡ new_value of number }
        ensures exact { Constructed of number result }
    {
        let numbers = of.least()..=of.greatest();
        if !numbers.contains(&number) {
            return None;
        }
        Some(Value::with_number(of, number))
    }

    // The value with a number of the type.
    fn with_number(of: Primitive, number: i64) -> Value
        ensures { result ≡ value_with of number }
    {
        match of.numeric() {
            Some(kind) => Value::from_low_bits(kind, number),
            None => Value::Boolean(number >= 1),
        }
    }

    pub fn primitive(self) -> Primitive
        ensures value { result ≡ value_type self }
        ensures range { InRange self }
    {
        match self {
            Value::Boolean(_) => Primitive::Boolean,
            Value::Byte(_) => Primitive::Byte,
            Value::Short(_) => Primitive::Short,
            Value::Char(_) => Primitive::Char,
            Value::Int(_) => Primitive::Int,
            Value::Long(_) => Primitive::Long,
        }
    }

    // The number that it holds; of a boolean 0 for false and 1 for true.
    pub fn number(self) -> i64
        ensures { result ≡ number self }
    {
        match self {
            Value::Boolean(b) => i64::from(b),
            Value::Byte(n) => i64::from(n),
            Value::Short(n) => i64::from(n),
            Value::Char(n) => i64::from(n),
            Value::Int(n) => i64::from(n),
            Value::Long(n) => n,
        }
    }

    // The value of a numeric type that the low bits of a number give.
    #[tactic(auto, using(std::proofs::lemmas::Int::wraps, crate::proofs::Wrapping::low_read))]
    pub(crate) fn from_low_bits(kind: Numeric, number: i64) -> Value
        ensures { result ≡ value_of kind number }
    {
        let bits = kind.low_bits(number);
        match kind {
            Numeric::Byte => Value::Byte((bits as u8).cast_signed()),
            Numeric::Short => Value::Short((bits as u16).cast_signed()),
            Numeric::Char => Value::Char(bits as u16),
            Numeric::Int => Value::Int((bits as u32).cast_signed()),
            Numeric::Long => Value::Long(bits.cast_signed()),
        }
    }
}

impl Numeric {
    // As many of the low bits of a number as this type keeps.
    #[tactic(auto, using(std::proofs::lemmas::Int::wraps, crate::proofs::Wrapping::masked, crate::proofs::Residues::residue_below))]
    pub(crate) fn low_bits(self, number: i64) -> u64
        ensures value { result ≡ residue (width self) number }
        ensures below { result < 2 ^ width self }
    {
        number.cast_unsigned() & self.mask()
    }

    // Ones in as many low bits as this type has.
    fn mask(self) -> u64
        ensures { result ≡ 2 ^ width self - 1 }
    {
        match self {
            Numeric::Byte => u64::from(u8::MAX),
            Numeric::Short | Numeric::Char => u64::from(u16::MAX),
            Numeric::Int => u64::from(u32::MAX),
            Numeric::Long => u64::MAX,
        }
    }
}

impl fmt::Display for Value {
    ghost output = { λ v. Some (value_text v) };

    fn fmt<W: fmt::Write>(&self, f: &mut fmt::Formatter<W>) -> fmt::Result {
        match *self {
            Value::Boolean(b) => write!(f, "{b}"),
            _ => write!(f, "{}", self.number()),
        }
    }
}
