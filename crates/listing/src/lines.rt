// A script as an operator reads it: its locals by type, its labels, and its nodes, each indented below its parent.
ghost use Rattle.std.specs.Prelude.{◌≡◌};
ghost use Rattle.listing.specs.Depth.{depth_of};

use crate::names::Named;
use java::Primitive;
use script::{Node, Pos};
use std::fmt;

// What was read of a file.
#[derive(Clone, Copy, Debug, PartialEq, Eq)]
pub struct Listing<'a> {
    pub types: &'a [Primitive],
    pub labels: u16,
    pub nodes: &'a [Node],
}

impl fmt::Display for Listing<'_> {
    fn fmt<W: fmt::Write>(&self, f: &mut fmt::Formatter<W>) -> fmt::Result {
        show_locals(self.types, f)?;
        writeln!(f, "labels: {}", self.labels)?;
        show_nodes(self.nodes, f)
    }
}

fn show_locals<W: fmt::Write>(types: &[Primitive], f: &mut fmt::Formatter<W>) -> fmt::Result {
    writeln!(f, "locals: {}", types.len())?;
    for (i, of_type) in types.iter().enumerate() {
        writeln!(f, "{i:>5}  {of_type}")?;
    }
    Ok(())
}

fn show_nodes<W: fmt::Write>(nodes: &[Node], f: &mut fmt::Formatter<W>) -> fmt::Result {
    writeln!(f, "nodes: {}", nodes.len())?;
    writeln!(f, "place    up   end  detail  number  kind")?;
    for (place, &node) in (0..u16::MAX).map(Pos).zip(nodes) {
        let depth = depth_at(nodes, place);
        writeln!(f, "{}", Line { place, depth, node })?;
    }
    Ok(())
}

// How many nodes stand above a place, going by what the file says: a node whose parent is not before it has none. A loop,
// since a file can nest as deep as it is long.
#[tactic(auto, using(crate::proofs::Climb::depth_step, std::proofs::lemmas::Bool::Decides::nat_tests))]
fn depth_at(nodes: &[Node], place: Pos) -> u16
    ensures { result ≡ depth_of nodes.now place.0 }
{
    let mut above = 0;
    let mut at = place;
    while let Some(node) = nodes.get(at.0 as usize) {
        if node.up >= at {
            break;
        }
        at = node.up;
        above += 1;
    }
    above
}

// One node of a listing.
#[derive(Clone, Copy, Debug, PartialEq, Eq)]
pub struct Line {
    pub place: Pos,
    pub depth: u16,
    pub node: Node,
}

impl fmt::Display for Line {
    fn fmt<W: fmt::Write>(&self, f: &mut fmt::Formatter<W>) -> fmt::Result {
        let Line { place, depth, node } = *self;
        let indent = 2 * usize::from(depth);
        write!(f, "{:>5} {:>5} {:>5}  ", place.0, node.up.0, node.end.0)?;
        write!(f, "{:>6}  {:>6}  ", node.detail, node.number)?;
        write!(f, "{:indent$}{}", "", Named(node))
    }
}
