// The children of a node of a tree, one after the other, as the constructs that they stand for.
ghost use Rattle.std.specs.Prelude.{◌≡◌, ◌+◌, ◌<◌, ◌≤◌};
ghost use Rattle.std.specs.Iterator.{YieldsFirst, item_count};
ghost use Rattle.script.specs.Tables.{end, script_of, size, up};

use crate::trees::Tree;
use script::{Construct, Pos};

// Each child begins where the one before it ends, and the last one ends with its parent.
#[derive(Drop)]
pub(crate) struct Children<'a> {
    tree: Tree<'a>,
    parent: Pos,
    // where the next child begins
    at: Pos,
    ghost inside: { parent.0 < size (script_of tree.table) },
    ghost behind: { parent.0 < at.0 },
    ghost within: { at.0 ≤ end (script_of tree.table) parent.0 },
    ghost next_child: { at.0 < end (script_of tree.table) parent.0 → up (script_of tree.table) at.0 ≡ parent.0 },
}

impl<'a> Children<'a> {
    ghost use Rattle.structure.specs.Children.{children_from, children_left};

    // All children of a node.
    pub fn new(tree: Tree<'a>, parent: Pos) -> Children<'a>
        requires { parent.0 < size (script_of tree.table) }
        ensures { children_left result ≡ children_from (script_of tree.entry.table) parent.0 (parent.0 + 1) }
    {
        Children {
            tree,
            parent,
            at: Pos(parent.0 + 1),
        }
    }
}

impl Iterator for Children<'_> {
    ghost use Rattle.structure.specs.Children.{children_left};

    type Item = Construct;

    ghost next_gives = { YieldsFirst children_left };

    ghost remaining = { item_count children_left };

    fn next(&mut self) -> Option<Construct> {
        let child = self.at;
        if child >= self.tree.table.end(self.parent) {
            return None;
        }
        self.at = self.tree.table.end(child);
        Some(self.tree.table.construct(child))
    }
}
