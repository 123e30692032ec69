// The kinds of node, with the code that stands for each in stored data, and its name.
ghost use Rattle.std.specs.Prelude.{◌≡◌, Some};
ghost use Rattle.java.specs.Codes.{Decodes};
ghost use Rattle.script.specs.Kinds.{kind_code, kind_name, kind_of};

use java::UnknownCode;
use std::fmt;

#[derive(Clone, Copy, PartialEq, Eq, Debug)]
pub enum Kind {
    Literal = 0,
    Local = 1,
    Unary = 2,
    Binary = 3,
    Conditional = 4,
    Assignment = 5,
    Reading = 6,
    Empty = 8,
    Expression = 9,
    Labelled = 10,
    Break = 11,
    Continue = 12,
    If = 13,
    While = 14,
    Block = 15,
    Declaration = 16,
}

impl Kind {
    pub fn name(self) -> &'static str
        ensures { result.now ≡ kind_name self }
    {
        match self {
            Kind::Literal => "literal",
            Kind::Local => "local",
            Kind::Unary => "unary",
            Kind::Binary => "binary",
            Kind::Conditional => "conditional",
            Kind::Assignment => "assignment",
            Kind::Reading => "reading",
            Kind::Empty => "empty",
            Kind::Expression => "expression statement",
            Kind::Labelled => "labelled",
            Kind::Break => "break",
            Kind::Continue => "continue",
            Kind::If => "if",
            Kind::While => "while",
            Kind::Block => "block",
            Kind::Declaration => "declaration",
        }
    }
}

impl From<Kind> for u8 {
    ghost from_gives = { λ k r. r ≡ kind_code k };

    fn from(kind: Kind) -> u8 {
        kind as u8
    }
}

// No kind has the code 7, and none a code above 16.
impl TryFrom<u8> for Kind {
    type Error = UnknownCode;

    ghost try_from_gives = { Decodes kind_of kind_code };

    fn try_from(code: u8) -> Result<Kind, UnknownCode> {
        match code {
            0 => Ok(Kind::Literal),
            1 => Ok(Kind::Local),
            2 => Ok(Kind::Unary),
            3 => Ok(Kind::Binary),
            4 => Ok(Kind::Conditional),
            5 => Ok(Kind::Assignment),
            6 => Ok(Kind::Reading),
            8 => Ok(Kind::Empty),
            9 => Ok(Kind::Expression),
            10 => Ok(Kind::Labelled),
            11 => Ok(Kind::Break),
            12 => Ok(Kind::Continue),
            13 => Ok(Kind::If),
            14 => Ok(Kind::While),
            15 => Ok(Kind::Block),
            16 => Ok(Kind::Declaration),
            _ => Err(UnknownCode(code)),
        }
    }
}

impl fmt::Display for Kind {
    ghost output = { λ k. Some (kind_name k) };

    fn fmt<W: fmt::Write>(&self, f: &mut fmt::Formatter<W>) -> fmt::Result {
        f.write_str(self.name())
    }
}
