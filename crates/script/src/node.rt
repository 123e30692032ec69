// A node of the table as the file has it.
use crate::sorts::Pos;

// Kind and detail stay the bytes that were read, so that any node can be shown: whether they mean something is for admission
// to say.
#[derive(Clone, Copy, PartialEq, Eq, Debug)]
pub struct Node {
    pub kind: u8,
    pub detail: u8,
    // the parent's place, 0 for node 0
    pub up: Pos,
    // the place after the last descendant
    pub end: Pos,
    pub number: i64,
}

impl Node {
    // All fields 0: what a table has where nothing was put yet.
    pub const BLANK: Node = Node {
        kind: 0,
        detail: 0,
        up: Pos(0),
        end: Pos(0),
        number: 0,
    };
}
