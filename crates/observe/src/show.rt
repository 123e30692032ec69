// `observe show`: reads a script file, and says what it is.
ghost use Rattle.std.specs.Prelude.{◌≡◌};
ghost use Rattle.observe.specs.declared.show.ShowFault.TheVariants.{Unlisted};

use crate::command::USAGE;
use listing::{ListFault, text_of};
use script_file::deciding_bytes;
use std::error::Error;
use std::fs::File;
use std::io::Read;
use std::{fmt, io};

// Why nothing was shown.
#[derive(Debug, Drop)]
pub enum ShowFault {
    // The file is missing or cannot be read.
    Unreadable(io::Error),
    // There is no listing of what was read.
    Unlisted(ListFault),
    // The output cannot be written.
    Unwritten(io::Error),
}

impl fmt::Display for ShowFault {
    fn fmt<W: fmt::Write>(&self, f: &mut fmt::Formatter<W>) -> fmt::Result {
        match self {
            ShowFault::Unreadable(error) => write!(f, "the file cannot be read: {error}\n{USAGE}"),
            ShowFault::Unlisted(fault) => write!(f, "{fault}"),
            ShowFault::Unwritten(error) => write!(f, "the output cannot be written: {error}"),
        }
    }
}

impl Error for ShowFault {}

impl From<ListFault> for ShowFault {
    ghost from_gives = { λ fault r. r ≡ Unlisted fault };

    fn from(fault: ListFault) -> ShowFault {
        ShowFault::Unlisted(fault)
    }
}

// As many bytes of a file as decide what is answered to it.
fn first_bytes(rt: &HostRuntime, path: &str) -> io::Result<Vec<u8>> {
    let mut bytes = Vec::new(rt.alloc());
    let file = File::open(rt, path)?;
    let _ = file.take(deciding_bytes() as u64).read_to_end(&mut bytes)?;
    Ok(bytes)
}

pub fn show(rt: &HostRuntime, path: &str) -> Result<(), ShowFault> {
    let bytes = first_bytes(rt, path).map_err(ShowFault::Unreadable)?;
    let text = text_of(rt.alloc(), path, bytes.as_slice())?;
    print!(rt; "{text}").map_err(ShowFault::Unwritten)
}
