// What the operator asks for, in words.
ghost use Rattle.std.specs.Prelude.{Some};
ghost use Rattle.observe.specs.Words.{Meant, misuse_text};

use std::error::Error;
use std::fmt;

pub const USAGE: &str = "usage: observe show FILE";

#[derive(Clone, Copy, Debug, PartialEq, Eq)]
pub enum Command<'a> {
    // List the script of a file.
    Show(&'a str),
}

// Words that ask for nothing.
#[derive(Clone, Copy, Debug, PartialEq, Eq)]
pub enum Misuse<'a> {
    NoWord,
    Unknown(&'a str),
    NoFile,
    TooMany,
}

pub fn understand(words: &[String]) -> Result<Command<'_>, Misuse<'_>>
    ensures { Meant words.now result }
{
    match words {
        [] => Err(Misuse::NoWord),
        [word, ..] if word.as_str() != "show" => Err(Misuse::Unknown(word.as_str())),
        [_] => Err(Misuse::NoFile),
        [_, file] => Ok(Command::Show(file.as_str())),
        _ => Err(Misuse::TooMany),
    }
}

impl fmt::Display for Misuse<'_> {
    ghost output = { λ m. Some (misuse_text m) };

    fn fmt<W: fmt::Write>(&self, f: &mut fmt::Formatter<W>) -> fmt::Result {
        match self {
            Misuse::NoWord => f.write_str("a word is missing"),
            Misuse::Unknown(word) => write!(f, "unknown word '{word}'"),
            Misuse::NoFile => f.write_str("a file is missing"),
            Misuse::TooMany => f.write_str("too many words"),
        }
    }
}

impl Error for Misuse<'_> {}
