// The rule of the tree: each node is in its place.
ghost use Rattle.std.specs.Prelude.{◌≡◌, ◌<◌, length, None, MatchResult};
ghost use Rattle.script.specs.Tables.{script_of, size};
ghost use Rattle.semantics.specs.declared.fault.Rule.TheVariants as R;
ghost use Rattle.semantics.specs.Faults.{refusal};
ghost use Rattle.semantics.specs.Rules.{broken_at, first_broken};
ghost use Rattle.structure.specs.Places.{in_place};

use script::{MOST_NODES, Pos, Table};
use semantics::{AdmissionFault, Rule};

// A table whose nodes are a tree. Only `new` makes one, so what looks at the children of its nodes need not ask for a
// tree.
#[derive(Clone, Copy)]
pub(crate) struct Tree<'a> {
    pub table: Table<'a>,
    ghost placed: { broken_at R.Tree (script_of table) ≡ None },
}

impl<'a> Tree<'a> {
    // The table as a tree; where it is none, the refusal by the rule of the tree.
    pub fn new(table: Table<'a>) -> Result<Tree<'a>, AdmissionFault>
        ensures { MatchResult result (λ tree. tree.table ≡ table.entry) (λ fault. refusal R.Tree (first_broken R.Tree (script_of table.entry)) ≡ Err fault) }
    {
        Rule::Tree.refuse(first_misplaced(&table))?;
        Ok(Tree { table })
    }
}

// The lowest place at which the rule is broken. For each node that was passed it is kept where its next child has to
// begin: at first right behind the node, then where the child before it ends. An array, since there is no heap, and a loop,
// since a turn reads what earlier turns wrote.
fn first_misplaced(table: &Table<'_>) -> Option<Pos>
    ensures { result ≡ first_broken R.Tree (script_of table.now) }
{
    let mut next = [Pos(0); MOST_NODES];
    for p in 0..table.size() {
        let place = Pos(p);
        if !is_in_place(table, &next, place) {
            return Some(place);
        }
        next[table.up(place).0 as usize] = table.end(place);
        next[p as usize] = Pos(p + 1);
    }
    None
}

// Whether a node is in its place, given where the next child of each node before it has to begin.
fn is_in_place(table: &Table<'_>, next: &[Pos; MOST_NODES], place: Pos) -> bool
    requires { place.0 < size (script_of table.now) }
    ensures { result ≡ in_place (script_of table.now) next.now place.0 }
{
    let up = table.up(place);
    let end = table.end(place);
    if place == Pos(0) {
        up == Pos(0) && end == Pos(table.size())
    } else {
        up < place && place < end && end <= table.end(up) && next[up.0 as usize] == place
    }
}
