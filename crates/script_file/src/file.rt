// Reading a script file: every part is tested from front to back, and only then are the caller's tables written.
ghost use Rattle.std.specs.Prelude.{◌≡◌, length, IfOk};
ghost use Rattle.script_file.specs.Laws.{Lawful, deciding};
ghost use Rattle.script_file.specs.Reading.{Leaves, answer, front, mapped, script_in, sizes_of};
ghost use Rattle.script_file.specs.Steps.{Readable};

use crate::fault::FileFault;
use crate::reader::{Limits, Reader};
use java::Primitive;
use script::{MOST_LABELS, MOST_LOCALS, MOST_NODES, Node};

// How much of each table a script takes, and how many labels it has. The tables stay the caller's, who may have no heap.
#[derive(Clone, Copy, PartialEq, Eq, Debug)]
pub struct Sizes {
    pub locals: u16,
    pub labels: u16,
    pub nodes: u16,
}

// The limits of the format, count by count.
const LOCALS: Limits = Limits {
    least: 0,
    most: MOST_LOCALS as u16,
};

const LABELS: Limits = Limits {
    least: 0,
    most: MOST_LABELS as u16,
};

const NODES: Limits = Limits {
    least: 1,
    most: MOST_NODES as u16,
};

// The longest file: three counts, the locals and the nodes.
pub const MOST_BYTES: usize = 6 + MOST_LOCALS + MOST_NODES * 14;

// How many bytes of a file are enough to read: what follows them does not change the answer.
pub fn deciding_bytes() -> usize
    ensures { result ≡ deciding }
{
    MOST_BYTES + 1
}

// Tests the whole file, and answers what its script takes.
fn sizes_in(bytes: &[u8]) -> Result<Sizes, FileFault>
    ensures { result ≡ mapped sizes_of (script_in bytes.now) }
{
    let mut reader = Reader::new(bytes);
    let locals = reader.section::<Primitive>(LOCALS)?;
    let labels = reader.count(LABELS)?;
    let nodes = reader.section::<Node>(NODES)?;
    reader.end()?;
    Ok(Sizes {
        locals,
        labels,
        nodes,
    })
}

// Tests the whole file, and last whether tables of so many types and nodes have room for its script.
fn tested_sizes(bytes: &[u8], types: usize, nodes: usize) -> Result<Sizes, FileFault>
    ensures value { result ≡ mapped sizes_of (answer types nodes bytes.now) }
    ensures readable { IfOk result (λ z. Readable types nodes bytes.now z) }
    ensures lawful { Lawful types nodes bytes.now (answer types nodes bytes.now) }
{
    let sizes = sizes_in(bytes)?;
    if types < sizes.locals as usize || nodes < sizes.nodes as usize {
        return Err(FileFault::Room);
    }
    Ok(sizes)
}

// Reads a script file into the front of two tables, and answers how much of each it took.
// A refusal leaves both tables as they were.
pub fn read(bytes: &[u8], types: &mut [Primitive], nodes: &mut [Node]) -> Result<Sizes, FileFault>
    ensures value { result ≡ mapped sizes_of (answer (length types.old) (length nodes.old) bytes.now) }
    ensures tables { Leaves types.old types.new nodes.old nodes.new (answer (length types.old) (length nodes.old) bytes.now) result }
    ensures lawful { Lawful (length types.old) (length nodes.old) bytes.now (mapped (λ z. front z types.new nodes.new) result) }
{
    let sizes = tested_sizes(bytes, types.len(), nodes.len())?;
    let mut reader = Reader::new(bytes);
    // past the count of the locals
    reader.skip(2);
    reader.fill(&mut types[..sizes.locals as usize]);
    // past the counts of labels and nodes
    reader.skip(4);
    reader.fill(&mut nodes[..sizes.nodes as usize]);
    Ok(sizes)
}
