// The typing rules of the operators: the type of a result, or none where no rule fits.
ghost use Rattle.std.specs.Prelude.{◌≡◌, ◌↔◌, Some};
ghost use Rattle.std.specs.Option.{option_map};
ghost use Rattle.java.specs.declared.types.Primitive.{Primitive};
ghost use Rattle.java.specs.Types.{primitive};
ghost use Rattle.java.specs.Typing.{promoted, promoted_pair, promoted_shift, not_type, cast_type, comparison_type, equality_type, bitwise_type, unary_type, binary_type, UnaryRule, BinaryRule};

use crate::operators::{Binary, Unary};
use crate::types::{Numeric, Primitive};

impl Primitive {
    // The type to which an operator promotes its only operand of this type; none for boolean.
    pub(crate) fn promoted(self) -> Option<Numeric>
        ensures { result ≡ promoted self }
    {
        self.numeric().map(Numeric::promoted)
    }

    // The type to which an operator promotes operands of these two types; none if one is boolean.
    pub(crate) fn promoted_with(self, other: Primitive) -> Option<Numeric>
        ensures { result ≡ promoted_pair self other }
    {
        Some(self.numeric()?.widest(other.numeric()?))
    }

    // The type to which a shift by a count of the other type promotes an operand of this one; none if one is boolean.
    pub(crate) fn promoted_for_shift(self, count: Primitive) -> Option<Numeric>
        ensures { result ≡ promoted_shift self count }
    {
        count.numeric()?;
        self.promoted()
    }
}

impl Unary {
    // The type of the result on an operand of this type.
    #[tactic(auto, using(crate::proofs::Rules::unary_exactly))]
    pub fn result_type(self, operand: Primitive) -> Option<Primitive>
        ensures value { result ≡ unary_type self operand }
        ensures exact { (t : Primitive) → (result ≡ Some t) ↔ UnaryRule self operand t }
    {
        match self {
            Unary::Plus | Unary::Minus | Unary::Complement => {
                operand.promoted().map(Primitive::from)
            }
            Unary::Not => not_type(operand),
            Unary::Cast(to) => cast_type(to, operand),
        }
    }
}

fn not_type(operand: Primitive) -> Option<Primitive>
    ensures { result ≡ not_type operand }
{
    (operand == Primitive::Boolean).then_some(Primitive::Boolean)
}

fn cast_type(to: Numeric, operand: Primitive) -> Option<Primitive>
    ensures { result ≡ cast_type to operand }
{
    operand.numeric()?;
    Some(Primitive::from(to))
}

impl Binary {
    // The type of the result on operands of these types.
    #[tactic(auto, using(crate::proofs::Rules::binary_exactly))]
    pub fn result_type(self, left: Primitive, right: Primitive) -> Option<Primitive>
        ensures value { result ≡ binary_type self left right }
        ensures exact { (t : Primitive) → (result ≡ Some t) ↔ BinaryRule self left right t }
    {
        match self {
            Binary::Arithmetic(_) => arithmetic_type(left, right),
            Binary::Shift(_) => left.promoted_for_shift(right).map(Primitive::from),
            Binary::Comparison(_) => comparison_type(left, right),
            Binary::Equality(_) => equality_type(left, right),
            Binary::Bitwise(_) => bitwise_type(left, right),
        }
    }
}

fn arithmetic_type(left: Primitive, right: Primitive) -> Option<Primitive>
    ensures { result ≡ option_map primitive (promoted_pair left right) }
{
    left.promoted_with(right).map(Primitive::from)
}

pub(crate) fn comparison_type(left: Primitive, right: Primitive) -> Option<Primitive>
    ensures { result ≡ comparison_type left right }
{
    left.promoted_with(right)?;
    Some(Primitive::Boolean)
}

pub(crate) fn equality_type(left: Primitive, right: Primitive) -> Option<Primitive>
    ensures { result ≡ equality_type left right }
{
    let comparable = left.is_subtype_of(right) || right.is_subtype_of(left);
    comparable.then_some(Primitive::Boolean)
}

fn bitwise_type(left: Primitive, right: Primitive) -> Option<Primitive>
    ensures { result ≡ bitwise_type left right }
{
    match (left, right) {
        (Primitive::Boolean, Primitive::Boolean) => Some(Primitive::Boolean),
        _ => arithmetic_type(left, right),
    }
}
