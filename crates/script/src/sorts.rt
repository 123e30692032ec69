// Four sorts of number, each a type of its own, so that none passes where another is due. One generic type over markers
// would be longer, and `Loc(3)` could not be written.
ghost use Rattle.std.specs.Prelude.{◌++◌, Some, codes, decimal};

use std::fmt;

// A place: the number of a node in the table.
#[derive(Clone, Copy, PartialEq, Eq, PartialOrd, Ord, Debug)]
pub struct Pos(pub u16);

// A local variable, by its number in the section of the locals.
#[derive(Clone, Copy, PartialEq, Eq, Debug)]
pub struct Loc(pub u8);

// A label, by its number.
#[derive(Clone, Copy, PartialEq, Eq, Debug)]
pub struct Lab(pub u8);

// A channel of readings.
#[derive(Clone, Copy, PartialEq, Eq, Debug)]
pub struct Chan(pub u8);

impl fmt::Display for Loc {
    ghost output = { λ x. Some (codes "local " ++ decimal x.0) };

    fn fmt<W: fmt::Write>(&self, f: &mut fmt::Formatter<W>) -> fmt::Result {
        write!(f, "local {}", self.0)
    }
}

impl fmt::Display for Lab {
    ghost output = { λ x. Some (codes "label " ++ decimal x.0) };

    fn fmt<W: fmt::Write>(&self, f: &mut fmt::Formatter<W>) -> fmt::Result {
        write!(f, "label {}", self.0)
    }
}

impl fmt::Display for Chan {
    ghost output = { λ x. Some (codes "channel " ++ decimal x.0) };

    fn fmt<W: fmt::Write>(&self, f: &mut fmt::Formatter<W>) -> fmt::Result {
        write!(f, "channel {}", self.0)
    }
}
