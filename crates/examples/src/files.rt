// The files that the tests read.
use java::Primitive;
use script::{MOST_LOCALS, MOST_NODES, Node, Pos};
use script_file::{FileFault, Sizes};
use std::alloc::{AllocError, Global};
use std::iter;

// `{ int f; f = 1; }`: one local, an int; no label; five nodes, a line for each.
pub const ONE_FIELD: &[u8; 77] = b"\x01\0\x04\0\0\x05\0\
    \x0f\0\0\0\x05\0\0\0\0\0\0\0\0\0\
    \x10\0\0\0\x02\0\0\0\0\0\0\0\0\0\
    \x09\0\0\0\x05\0\0\0\0\0\0\0\0\0\
    \x05\0\x02\0\x05\0\0\0\0\0\0\0\0\0\
    \0\x04\x03\0\x05\0\x01\0\0\0\0\0\0\0";

pub const SPARE: Node = Node {
    kind: 77,
    detail: 77,
    up: Pos(77),
    end: Pos(77),
    number: -77,
};

// The caller's tables, as the reader finds them.
#[derive(Drop)]
pub struct Tables {
    pub types: [Primitive; MOST_LOCALS],
    pub nodes: [Node; MOST_NODES],
}

impl Tables {
    pub(crate) fn spare() -> Tables {
        Tables {
            types: [Primitive::Char; MOST_LOCALS],
            nodes: [SPARE; MOST_NODES],
        }
    }

    // Reads a file into the whole of them.
    pub(crate) fn read(&mut self, bytes: &[u8]) -> Result<Sizes, FileFault> {
        script_file::read(bytes, &mut self.types, &mut self.nodes)
    }
}

pub(crate) fn node(kind: u8, detail: u8, up: u16, end: u16, number: i64) -> Node {
    Node {
        kind,
        detail,
        up: Pos(up),
        end: Pos(end),
        number,
    }
}

// ONE_FIELD with another byte at an offset.
pub(crate) fn damaged(at: usize, byte: u8) -> [u8; 77] {
    let mut bytes = *ONE_FIELD;
    if let Some(there) = bytes.get_mut(at) {
        *there = byte;
    }
    bytes
}

// A file with these counts, and with so many type codes and nodes.
pub(crate) fn filled(heap: Global, sizes: Sizes) -> Result<Vec<u8>, AllocError> {
    let mut bytes = Vec::new(heap);
    bytes.extend_from_slice(&sizes.locals.to_le_bytes())?;
    bytes.extend(iter::repeat_n(5, sizes.locals as usize))?;
    bytes.extend_from_slice(&sizes.labels.to_le_bytes())?;
    bytes.extend_from_slice(&sizes.nodes.to_le_bytes())?;
    // each with its own place for its parent's
    for place in 0..sizes.nodes {
        let [low, high] = place.to_le_bytes();
        bytes.extend_from_slice(&[
            8, 0, low, high, 0, 1, 255, 255, 255, 255, 255, 255, 255, 255,
        ])?;
    }
    Ok(bytes)
}
