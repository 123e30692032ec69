// The primitive types, each with its keyword and with the code that stands for it in stored data.
ghost use Rattle.std.specs.Prelude.{◌≡◌, ◌↔◌, [], ◌∷◌, Some, IsTrue};
ghost use Rattle.java.specs.declared.types.Primitive.{Primitive};
ghost use Rattle.java.specs.declared.types.Numeric.{Numeric};
ghost use Rattle.java.specs.Codes.{Decodes};
ghost use Rattle.java.specs.Types.{type_code, type_name, type_of, primitive, numeric, widest};
ghost use Rattle.java.specs.Subtypes.{◌≼◌, subtype};

use crate::codes::UnknownCode;
use std::fmt;

#[derive(Clone, Copy, PartialEq, Eq, Debug)]
pub enum Primitive {
    Boolean = 0,
    Byte = 1,
    Short = 2,
    Char = 3,
    Int = 4,
    Long = 5,
}

impl Primitive {
    // The keyword of the type in Java, for those who have no formatter.
    pub fn name(self) -> &'static str
        ensures { result.now ≡ type_name self }
    {
        match self {
            Primitive::Boolean => "boolean",
            Primitive::Byte => "byte",
            Primitive::Short => "short",
            Primitive::Char => "char",
            Primitive::Int => "int",
            Primitive::Long => "long",
        }
    }

    // This type as a numeric one; none for boolean, of which an error would say no more.
    pub fn numeric(self) -> Option<Numeric>
        ensures value { result ≡ numeric self }
        ensures among { (n : Numeric) → (result ≡ Some n) ↔ (self ≡ primitive n) }
    {
        match self {
            Primitive::Boolean => None,
            Primitive::Byte => Some(Numeric::Byte),
            Primitive::Short => Some(Numeric::Short),
            Primitive::Char => Some(Numeric::Char),
            Primitive::Int => Some(Numeric::Int),
            Primitive::Long => Some(Numeric::Long),
        }
    }

    // Whether every number of this type is one of the other; boolean is a subtype of itself alone. By name and not by `<`,
    // which would not say which order.
    #[tactic(auto, using(crate::proofs::Subtypes::exactly))]
    pub fn is_subtype_of(self, other: Primitive) -> bool
        ensures value { result ≡ subtype self other }
        ensures exact { IsTrue result ↔ (self ≼ other) }
    {
        match self {
            Primitive::Boolean => matches!(other, Primitive::Boolean),
            Primitive::Byte => matches!(
                other,
                Primitive::Byte | Primitive::Short | Primitive::Int | Primitive::Long
            ),
            Primitive::Short => matches!(
                other,
                Primitive::Short | Primitive::Int | Primitive::Long
            ),
            Primitive::Char => matches!(other, Primitive::Char | Primitive::Int | Primitive::Long),
            Primitive::Int => matches!(other, Primitive::Int | Primitive::Long),
            Primitive::Long => matches!(other, Primitive::Long),
        }
    }
}

// The types of numbers: every type but boolean. A type of its own, so that a cast to boolean can't be written.
#[derive(Clone, Copy, PartialEq, Eq, Debug)]
pub enum Numeric {
    Byte,
    Short,
    Char,
    Int,
    Long,
}

impl Numeric {
    // The type to which an operator promotes operands of these two types.
    pub fn widest(self, other: Numeric) -> Numeric
        ensures value { result ≡ widest (self ∷ other ∷ []) }
    {
        match (self, other) {
            (Numeric::Long, _) | (_, Numeric::Long) => Numeric::Long,
            _ => Numeric::Int,
        }
    }

    // The type to which an operator promotes its only operand.
    pub fn promoted(self) -> Numeric
        ensures value { result ≡ widest (self ∷ []) }
    {
        self.widest(Numeric::Int)
    }
}

impl From<Primitive> for u8 {
    ghost from_gives = { λ t r. r ≡ type_code t };

    fn from(t: Primitive) -> u8 {
        t as u8
    }
}

// No code is above 5.
impl TryFrom<u8> for Primitive {
    type Error = UnknownCode;

    ghost try_from_gives = { Decodes type_of type_code };

    fn try_from(code: u8) -> Result<Primitive, UnknownCode> {
        match code {
            0 => Ok(Primitive::Boolean),
            1 => Ok(Primitive::Byte),
            2 => Ok(Primitive::Short),
            3 => Ok(Primitive::Char),
            4 => Ok(Primitive::Int),
            5 => Ok(Primitive::Long),
            _ => Err(UnknownCode(code)),
        }
    }
}

impl From<Numeric> for Primitive {
    ghost from_gives = { λ n r. r ≡ primitive n };

    fn from(n: Numeric) -> Primitive {
        match n {
            Numeric::Byte => Primitive::Byte,
            Numeric::Short => Primitive::Short,
            Numeric::Char => Primitive::Char,
            Numeric::Int => Primitive::Int,
            Numeric::Long => Primitive::Long,
        }
    }
}

impl fmt::Display for Primitive {
    ghost output = { λ t. Some (type_name t) };

    fn fmt<W: fmt::Write>(&self, f: &mut fmt::Formatter<W>) -> fmt::Result {
        f.write_str(self.name())
    }
}
