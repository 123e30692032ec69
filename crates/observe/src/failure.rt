// What went wrong, as the operator is told.
ghost use Rattle.std.specs.Prelude.{◌≡◌};
ghost use Rattle.observe.specs.declared.failure.Failure.TheVariants.{Misused};

use crate::command::{Misuse, USAGE};
use crate::show::ShowFault;
use std::error::Error;
use std::{fmt, io};

// Why what the words ask for was not done.
#[derive(Debug, Drop)]
pub enum Failure<'a> {
    // The words of the command line cannot be read.
    Unreadable(&'a io::Error),
    Misused(Misuse<'a>),
    // The file of this path was not shown.
    NotShown(&'a str, ShowFault),
}

impl fmt::Display for Failure<'_> {
    fn fmt<W: fmt::Write>(&self, f: &mut fmt::Formatter<W>) -> fmt::Result {
        match self {
            Failure::Unreadable(error) => write!(f, "the words cannot be read: {error}\n{USAGE}"),
            Failure::Misused(misuse) => write!(f, "{misuse}\n{USAGE}"),
            Failure::NotShown(path, fault) => write!(f, "{path}: {fault}"),
        }
    }
}

impl Error for Failure<'_> {}

impl<'a> From<Misuse<'a>> for Failure<'a> {
    ghost from_gives = { λ misuse r. r ≡ Misused misuse };

    fn from(misuse: Misuse<'a>) -> Failure<'a> {
        Failure::Misused(misuse)
    }
}
