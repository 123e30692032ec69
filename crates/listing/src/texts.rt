// What is said of the bytes of a script file.
ghost use Rattle.std.specs.Prelude.{◌≡◌, Some};
ghost use Rattle.listing.specs.Said.{Said, fault_words};
ghost use Rattle.listing.specs.declared.texts.ListFault.TheVariants.{Memory, Refused};

use crate::lines::Listing;
use java::Primitive;
use script::{MOST_LOCALS, MOST_NODES, Node};
use script_file::{FileFault, read};
use std::alloc::{AllocError, Global};
use std::error::Error;
use std::fmt;

// Why there is no listing.
#[derive(Clone, Copy, Debug, PartialEq, Eq)]
pub enum ListFault {
    // The bytes are no script file.
    Refused(FileFault),
    // There is no memory for the text.
    Memory,
}

impl fmt::Display for ListFault {
    ghost output = { λ fault. Some (fault_words fault) };

    fn fmt<W: fmt::Write>(&self, f: &mut fmt::Formatter<W>) -> fmt::Result {
        match self {
            ListFault::Refused(fault) => write!(f, "{fault}"),
            ListFault::Memory => f.write_str("out of memory"),
        }
    }
}

impl Error for ListFault {}

// Each error that `?` meets has its own variant, and so its own impl.
impl From<FileFault> for ListFault {
    ghost from_gives = { λ fault r. r ≡ Refused fault };

    fn from(fault: FileFault) -> ListFault {
        ListFault::Refused(fault)
    }
}

impl From<AllocError> for ListFault {
    ghost from_gives = { λ _ r. r ≡ Memory };

    fn from(_error: AllocError) -> ListFault {
        ListFault::Memory
    }
}

// The listing of a file with these bytes, and a last line that says what was read.
pub fn text_of(heap: Global, path: &str, bytes: &[u8]) -> Result<String, ListFault>
    ensures { Said path.now bytes.now result }
{
    // tables of the largest size, which `read` fills
    let mut types = [Primitive::Boolean; MOST_LOCALS];
    let mut nodes = [Node::BLANK; MOST_NODES];
    let sizes = read(bytes, &mut types, &mut nodes)?;
    let listing = Listing {
        types: &types[..sizes.locals as usize],
        labels: sizes.labels,
        nodes: &nodes[..sizes.nodes as usize],
    };
    let mut text = format!(in heap; "{listing}")?;
    writeln!(text, "read {path} whole: {} bytes", bytes.len())?;
    Ok(text)
}
