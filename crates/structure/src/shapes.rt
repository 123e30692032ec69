// The rule of children: each node has the children of its kind, and node 0 is a block.
ghost use Rattle.std.specs.Prelude.{◌≡◌, ◌<◌};
ghost use Rattle.script.specs.Children.{children_of};
ghost use Rattle.script.specs.Tables.{script_of, size};
ghost use Rattle.semantics.specs.declared.fault.Rule.TheVariants as R;
ghost use Rattle.semantics.specs.Rules.{first_broken};
ghost use Rattle.semantics.specs.Shapes.{shaped};
ghost use Rattle.structure.specs.Children.{are_due, are_of_sorts, children_left};

use crate::children::Children;
use crate::trees::Tree;
use script::{Construct, Pos, Sort};

// The lowest place at which the rule is broken.
pub(crate) fn first_misshapen(tree: Tree<'_>) -> Option<Pos>
    ensures { result ≡ first_broken R.Children (script_of tree.entry.table) }
{
    (0..tree.table.size())
        .find(|&p| !is_shaped(tree, Pos(p)))
        .map(Pos)
}

#[tactic(auto, using(crate::proofs::Siblings::same_children))]
fn is_shaped(tree: Tree<'_>, place: Pos) -> bool
    requires { place.0 < size (script_of tree.table) }
    ensures { result ≡ shaped (script_of tree.entry.table) place.0 }
{
    let construct = tree.table.construct(place);
    are_due(Children::new(tree, place), construct)
        && (place != Pos(0) || construct == Construct::Block)
}

// Whether the children are those of the kind. A block has any number of statements and declarations.
fn are_due(mut children: Children<'_>, construct: Construct) -> bool
    ensures { result ≡ are_due (children_left children.entry) (children_of construct) }
{
    match construct.children() {
        Some(sorts) => are_in_turn(children, sorts),
        None => !children.any(Construct::is_expression),
    }
}

// Whether the children are one of each sort after the other.
fn are_in_turn(mut children: Children<'_>, sorts: &[Sort]) -> bool
    ensures { result ≡ are_of_sorts (children_left children.entry) sorts.now }
{
    for sort in sorts {
        if !children.next().is_some_and(|child| sort.has(child)) {
            return false;
        }
    }
    children.next().is_none()
}
