// Codes: the bytes by which stored data names a type, an operator or a kind.
ghost use Rattle.std.specs.Prelude.{Some};
ghost use Rattle.java.specs.Codes.{unknown_text};

use std::error::Error;
use std::fmt;

// A byte that is the code of nothing of the sort that was due.
#[derive(Clone, Copy, PartialEq, Eq, Debug)]
pub struct UnknownCode(pub u8);

impl fmt::Display for UnknownCode {
    ghost output = { λ e. Some (unknown_text e) };

    fn fmt<W: fmt::Write>(&self, f: &mut fmt::Formatter<W>) -> fmt::Result {
        write!(f, "code {} stands for nothing", self.0)
    }
}

impl Error for UnknownCode {}
