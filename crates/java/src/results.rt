// What the operators give on values. A number is computed in 64 bits, of which the result's type keeps the low ones.
ghost use Rattle.std.specs.Prelude.{◌≡◌, ◌-◌, ◌/◌, ◌^◌, ◌<◌, pos, if◌then◌else◌, Some, None};
ghost use Rattle.std.specs.Int.{int_wrap, w64};
ghost use Rattle.std.specs.Option.{option_map};
ghost use Rattle.java.specs.Typing.{promoted, promoted_pair};
ghost use Rattle.java.specs.Values.{residue, width, value_of, value_type};
ghost use Rattle.java.specs.Results.{unary_value, arithmetic, zero_divisor, arithmetic_value, distance_bits, distance, shifted, shift_value, compared, equal, bitwise, logical, bitwise_value, binary_value, no_value_text};
ghost use Rattle.java.specs.Laws.{UnaryLawful, BinaryLawful};

use crate::operators::{Arithmetic, Binary, Bitwise, Comparison, Equality, Shift, Unary};
use crate::types::Numeric;
use crate::typing::{comparison_type, equality_type};
use crate::values::Value;
use std::error::Error;
use std::fmt;

// Why an operator gives no value: no typing rule fits its operands, or it divides by zero.
#[derive(Clone, Copy, PartialEq, Eq, Debug)]
pub enum NoValue {
    Untyped,
    ZeroDivisor,
}

impl fmt::Display for NoValue {
    ghost output = { λ why. Some (no_value_text why) };

    fn fmt<W: fmt::Write>(&self, f: &mut fmt::Formatter<W>) -> fmt::Result {
        f.write_str(match self {
            NoValue::Untyped => "no type",
            NoValue::ZeroDivisor => "zero divisor",
        })
    }
}

impl Error for NoValue {}

impl Unary {
    // The value on this operand; none where no typing rule fits.
    pub fn apply(self, operand: Value) -> Option<Value>
        ensures value { result ≡ unary_value self operand }
        ensures lawful { UnaryLawful self operand result }
    {
        match self {
            Unary::Plus => at_promoted(operand, operand.number()),
            Unary::Minus => at_promoted(operand, operand.number().wrapping_neg()),
            Unary::Complement => at_promoted(operand, !operand.number()),
            Unary::Not => not(operand),
            Unary::Cast(kind) => cast(kind, operand),
        }
    }
}

// The value that a number gives at the type to which an operand is promoted.
fn at_promoted(operand: Value, number: i64) -> Option<Value>
    ensures { result ≡ option_map (λ n. value_of n number) (promoted (value_type operand)) }
{
    let kind = operand.primitive().promoted()?;
    Some(Value::from_low_bits(kind, number))
}

fn not(operand: Value) -> Option<Value>
    ensures { result ≡ unary_value Unary.Not operand }
{
    let Value::Boolean(b) = operand else {
        return None;
    };
    Some(Value::Boolean(!b))
}

fn cast(kind: Numeric, operand: Value) -> Option<Value>
    ensures { result ≡ unary_value (Unary.Cast kind) operand }
{
    operand.primitive().numeric()?;
    Some(Value::from_low_bits(kind, operand.number()))
}

impl Binary {
    // The value on these operands.
    pub fn apply(self, left: Value, right: Value) -> Result<Value, NoValue>
        ensures value { result ≡ binary_value self left right }
        ensures lawful { BinaryLawful self left right result }
    {
        match self {
            Binary::Arithmetic(operator) => operator.apply(left, right),
            Binary::Shift(operator) => operator.apply(left, right),
            Binary::Comparison(operator) => comparison_type(left.primitive(), right.primitive())
                .map(|_| Value::Boolean(operator.holds(left.number(), right.number())))
                .ok_or(NoValue::Untyped),
            Binary::Equality(operator) => equality_type(left.primitive(), right.primitive())
                .map(|_| Value::Boolean(operator.holds(left.number(), right.number())))
                .ok_or(NoValue::Untyped),
            Binary::Bitwise(operator) => operator.apply(left, right),
        }
    }
}

// The type to which both operands are promoted.
fn both_promoted(left: Value, right: Value) -> Option<Numeric>
    ensures { result ≡ promoted_pair (value_type left) (value_type right) }
{
    left.primitive().promoted_with(right.primitive())
}

impl Arithmetic {
    fn apply(self, left: Value, right: Value) -> Result<Value, NoValue>
        ensures { result ≡ arithmetic_value self left right }
    {
        let kind = both_promoted(left, right).ok_or(NoValue::Untyped)?;
        self.apply_at(kind, left.number(), right.number())
            .ok_or(NoValue::ZeroDivisor)
    }

    // On operands promoted to this type; none where it divides by zero.
    #[tactic(auto, using(std::proofs::lemmas::Int::wraps, crate::proofs::Wrapping::value_of_wrapped))]
    fn apply_at(self, kind: Numeric, a: i64, b: i64) -> Option<Value>
        ensures { result ≡ (if zero_divisor self b then None else Some (value_of kind (arithmetic self a b))) }
    {
        let number = self.number(a, b)?;
        Some(Value::from_low_bits(kind, number))
    }

    // The low 64 bits of the result; none where it divides by zero.
    #[tactic(auto, using(std::proofs::lemmas::Int::wraps, crate::proofs::Division::quotient_wraps))]
    fn number(self, a: i64, b: i64) -> Option<i64>
        ensures { result ≡ (if zero_divisor self b then None else Some (int_wrap w64 (arithmetic self a b))) }
    {
        match self {
            Arithmetic::Times => Some(a.wrapping_mul(b)),
            Arithmetic::Divide if b != 0 => Some(a.wrapping_div(b)),
            Arithmetic::Remainder if b != 0 => Some(a.wrapping_rem(b)),
            Arithmetic::Divide | Arithmetic::Remainder => None,
            Arithmetic::Plus => Some(a.wrapping_add(b)),
            Arithmetic::Minus => Some(a.wrapping_sub(b)),
        }
    }
}

// How far a shift moves a number: less than the 64 bits in which it is computed.
#[derive(Clone, Copy)]
struct Distance {
    bits: u32,
    ghost short: { bits < 64 },
}

impl Shift {
    fn apply(self, left: Value, right: Value) -> Result<Value, NoValue>
        ensures { result ≡ shift_value self left right }
    {
        let kind = left
            .primitive()
            .promoted_for_shift(right.primitive())
            .ok_or(NoValue::Untyped)?;
        Ok(self.apply_at(kind, left.number(), right.number()))
    }

    // On a left operand promoted to this type.
    #[tactic(auto, using(std::proofs::lemmas::Int::wraps, crate::proofs::Wrapping::value_of_wrapped))]
    fn apply_at(self, kind: Numeric, a: i64, count: i64) -> Value
        ensures { result ≡ value_of kind (shifted self kind a (distance kind count)) }
    {
        let number = self.number(kind, a, kind.distance(count));
        Value::from_low_bits(kind, number)
    }

    // The low 64 bits of the result.
    #[tactic(auto, using(crate::proofs::Shifts::shift_steps))]
    fn number(self, kind: Numeric, a: i64, distance: Distance) -> i64
        ensures { result ≡ int_wrap w64 (shifted self kind a distance.bits) }
    {
        match self {
            Shift::Left => a.wrapping_shl(distance.bits),
            Shift::Right => a.wrapping_shr(distance.bits),
            Shift::UnsignedRight => kind.unsigned_shift_right(a, distance).cast_signed(),
        }
    }
}

impl Numeric {
    // By how far a shift moves a number of this type.
    #[tactic(auto, using(std::proofs::lemmas::Int::wraps, crate::proofs::Wrapping::masked))]
    fn distance(self, count: i64) -> Distance
        ensures { result.bits ≡ distance self count }
    {
        Distance {
            bits: (count.cast_unsigned() & self.distance_mask()) as u32,
        }
    }

    // Ones in the low bits of a count that a shift goes by.
    fn distance_mask(self) -> u64
        ensures { result ≡ 2 ^ distance_bits self - 1 }
    {
        match self {
            Numeric::Long => 0x3f,
            _ => 0x1f,
        }
    }

    // The bits of a number of this type, moved to the right, with zeros to their left.
    fn unsigned_shift_right(self, number: i64, distance: Distance) -> u64
        ensures { result ≡ residue (width self) number / 2 ^ distance.bits }
    {
        self.low_bits(number) >> distance.bits
    }
}

impl Comparison {
    fn holds(self, a: i64, b: i64) -> bool
        ensures { result ≡ compared self a b }
    {
        match self {
            Comparison::Less => a < b,
            Comparison::LessOrEqual => a <= b,
            Comparison::Greater => a > b,
            Comparison::GreaterOrEqual => a >= b,
        }
    }
}

impl Equality {
    fn holds(self, a: i64, b: i64) -> bool
        ensures { result ≡ equal self a b }
    {
        match self {
            Equality::Equal => a == b,
            Equality::NotEqual => a != b,
        }
    }
}

impl Bitwise {
    fn apply(self, left: Value, right: Value) -> Result<Value, NoValue>
        ensures { result ≡ bitwise_value self left right }
    {
        if let (Value::Boolean(a), Value::Boolean(b)) = (left, right) {
            return Ok(Value::Boolean(self.logical(a, b)));
        }
        let kind = both_promoted(left, right).ok_or(NoValue::Untyped)?;
        Ok(self.apply_at(kind, left.number(), right.number()))
    }

    // On booleans, each as a number of one bit.
    fn logical(self, a: bool, b: bool) -> bool
        ensures { result ≡ logical self a b }
    {
        self.bits(u64::from(a), u64::from(b)) == 1
    }

    // On operands promoted to this type.
    #[tactic(auto, using(std::proofs::lemmas::Int::wraps, crate::proofs::Wrapping::value_of_read))]
    fn apply_at(self, kind: Numeric, a: i64, b: i64) -> Value
        ensures { result ≡ value_of kind (pos (bitwise self (residue (width kind) a) (residue (width kind) b))) }
    {
        let bits = self.bits(kind.low_bits(a), kind.low_bits(b));
        Value::from_low_bits(kind, bits.cast_signed())
    }

    fn bits(self, a: u64, b: u64) -> u64
        ensures { result ≡ bitwise self a b }
    {
        match self {
            Bitwise::And => a & b,
            Bitwise::Xor => a ^ b,
            Bitwise::Or => a | b,
        }
    }
}
