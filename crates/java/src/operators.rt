// The operators, those of two operands grouped by the rule that types them, each with its symbol and with the code that
// stands for it in stored data.
ghost use Rattle.std.specs.Prelude.{Some};
ghost use Rattle.java.specs.Codes.{Decodes};
ghost use Rattle.java.specs.Operators.{unary_code, unary_of, unary_symbol, binary_code, binary_of, binary_symbol};

use crate::codes::UnknownCode;
use crate::types::Numeric;
use std::fmt;

#[derive(Clone, Copy, PartialEq, Eq, Debug)]
pub enum Unary {
    Plus,
    Minus,
    Complement,
    Not,
    Cast(Numeric),
}

#[derive(Clone, Copy, PartialEq, Eq, Debug)]
pub enum Binary {
    Arithmetic(Arithmetic),
    Shift(Shift),
    Comparison(Comparison),
    Equality(Equality),
    Bitwise(Bitwise),
}

#[derive(Clone, Copy, PartialEq, Eq, Debug)]
pub enum Arithmetic {
    Times,
    Divide,
    Remainder,
    Plus,
    Minus,
}

#[derive(Clone, Copy, PartialEq, Eq, Debug)]
pub enum Shift {
    Left,
    Right,
    UnsignedRight,
}

#[derive(Clone, Copy, PartialEq, Eq, Debug)]
pub enum Comparison {
    Less,
    LessOrEqual,
    Greater,
    GreaterOrEqual,
}

#[derive(Clone, Copy, PartialEq, Eq, Debug)]
pub enum Equality {
    Equal,
    NotEqual,
}

// Bit by bit on numbers, logical on booleans.
#[derive(Clone, Copy, PartialEq, Eq, Debug)]
pub enum Bitwise {
    And,
    Xor,
    Or,
}

// 0 to 3, or 16 more than the code of the numeric type to which a cast goes.
impl TryFrom<u8> for Unary {
    type Error = UnknownCode;

    ghost try_from_gives = { Decodes unary_of unary_code };

    fn try_from(code: u8) -> Result<Unary, UnknownCode> {
        match code {
            0 => Ok(Unary::Plus),
            1 => Ok(Unary::Minus),
            2 => Ok(Unary::Complement),
            3 => Ok(Unary::Not),
            17 => Ok(Unary::Cast(Numeric::Byte)),
            18 => Ok(Unary::Cast(Numeric::Short)),
            19 => Ok(Unary::Cast(Numeric::Char)),
            20 => Ok(Unary::Cast(Numeric::Int)),
            21 => Ok(Unary::Cast(Numeric::Long)),
            _ => Err(UnknownCode(code)),
        }
    }
}

// No code is above 16.
impl TryFrom<u8> for Binary {
    type Error = UnknownCode;

    ghost try_from_gives = { Decodes binary_of binary_code };

    fn try_from(code: u8) -> Result<Binary, UnknownCode> {
        match code {
            0 => Ok(Binary::Arithmetic(Arithmetic::Times)),
            1 => Ok(Binary::Arithmetic(Arithmetic::Divide)),
            2 => Ok(Binary::Arithmetic(Arithmetic::Remainder)),
            3 => Ok(Binary::Arithmetic(Arithmetic::Plus)),
            4 => Ok(Binary::Arithmetic(Arithmetic::Minus)),
            5 => Ok(Binary::Shift(Shift::Left)),
            6 => Ok(Binary::Shift(Shift::Right)),
            7 => Ok(Binary::Shift(Shift::UnsignedRight)),
            8 => Ok(Binary::Comparison(Comparison::Less)),
            9 => Ok(Binary::Comparison(Comparison::LessOrEqual)),
            10 => Ok(Binary::Comparison(Comparison::Greater)),
            11 => Ok(Binary::Comparison(Comparison::GreaterOrEqual)),
            12 => Ok(Binary::Equality(Equality::Equal)),
            13 => Ok(Binary::Equality(Equality::NotEqual)),
            14 => Ok(Binary::Bitwise(Bitwise::And)),
            15 => Ok(Binary::Bitwise(Bitwise::Xor)),
            16 => Ok(Binary::Bitwise(Bitwise::Or)),
            _ => Err(UnknownCode(code)),
        }
    }
}

impl fmt::Display for Unary {
    ghost output = { λ o. Some (unary_symbol o) };

    fn fmt<W: fmt::Write>(&self, f: &mut fmt::Formatter<W>) -> fmt::Result {
        f.write_str(match self {
            Unary::Plus => "+",
            Unary::Minus => "-",
            Unary::Complement => "~",
            Unary::Not => "!",
            Unary::Cast(Numeric::Byte) => "(byte)",
            Unary::Cast(Numeric::Short) => "(short)",
            Unary::Cast(Numeric::Char) => "(char)",
            Unary::Cast(Numeric::Int) => "(int)",
            Unary::Cast(Numeric::Long) => "(long)",
        })
    }
}

impl fmt::Display for Binary {
    ghost output = { λ o. Some (binary_symbol o) };

    fn fmt<W: fmt::Write>(&self, f: &mut fmt::Formatter<W>) -> fmt::Result {
        f.write_str(match self {
            Binary::Arithmetic(Arithmetic::Times) => "*",
            Binary::Arithmetic(Arithmetic::Divide) => "/",
            Binary::Arithmetic(Arithmetic::Remainder) => "%",
            Binary::Arithmetic(Arithmetic::Plus) => "+",
            Binary::Arithmetic(Arithmetic::Minus) => "-",
            Binary::Shift(Shift::Left) => "<<",
            Binary::Shift(Shift::Right) => ">>",
            Binary::Shift(Shift::UnsignedRight) => ">>>",
            Binary::Comparison(Comparison::Less) => "<",
            Binary::Comparison(Comparison::LessOrEqual) => "<=",
            Binary::Comparison(Comparison::Greater) => ">",
            Binary::Comparison(Comparison::GreaterOrEqual) => ">=",
            Binary::Equality(Equality::Equal) => "==",
            Binary::Equality(Equality::NotEqual) => "!=",
            Binary::Bitwise(Bitwise::And) => "&",
            Binary::Bitwise(Bitwise::Xor) => "^",
            Binary::Bitwise(Bitwise::Or) => "|",
        })
    }
}
