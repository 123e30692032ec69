// Script files: the format and its reading. Whether a script makes sense is not known here.
#![tactic(auto)]

mod entry;
mod fault;
mod file;
mod reader;

pub use fault::FileFault;
pub use file::{MOST_BYTES, Sizes, deciding_bytes, read};
pub use script::{MOST_LABELS, MOST_LOCALS, MOST_NODES};
