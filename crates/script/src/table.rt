// A script as its tables: what stands in each section, within the limits of a script. A table says nothing yet of whether
// the script makes sense.
ghost use Rattle.std.specs.Prelude.{◌≡◌, ◌<◌, ◌≤◌, Some, codes, length, MatchResult};

use crate::construct::Construct;
use crate::kind::Kind;
use crate::node::Node;
use crate::sorts::Pos;
use java::Primitive;
use std::error::Error;
use std::fmt;

pub const MOST_LOCALS: usize = 64;

pub const MOST_LABELS: usize = 32;

pub const MOST_NODES: usize = 1024;

// `{ }`
const EMPTY_SCRIPT: [Node; 1] = [Node {
    kind: Kind::Block as u8,
    detail: 0,
    up: Pos(0),
    end: Pos(1),
    number: 0,
}];

// Sizes that no script has.
#[derive(Clone, Copy, PartialEq, Eq, Debug)]
pub struct OverLimits;

impl fmt::Display for OverLimits {
    ghost output = { λ _. Some (codes "the sections are not within the limits of a script") };

    fn fmt<W: fmt::Write>(&self, f: &mut fmt::Formatter<W>) -> fmt::Result {
        f.write_str("the sections are not within the limits of a script")
    }
}

impl Error for OverLimits {}

// Only `new` and `hold` make one, so no other layer has to ask for the limits. It has no model, since a struct with a
// lifetime that has one can't be `Copy`.
#[derive(Clone, Copy, PartialEq, Eq, Debug)]
pub struct Table<'a> {
    types: &'a [Primitive],
    labels: u8,
    nodes: &'a [Node],
    ghost few_locals: { length types.now ≤ 64 },
    ghost few_labels: { labels ≤ 32 },
    ghost some_node: { 0 < length nodes.now },
    ghost few_nodes: { length nodes.now ≤ 1024 },
}

impl<'a> Table<'a> {
    ghost use Rattle.script.specs.Tables.{construct, empty_script, end, held, meaning, node, script_of, size, up};

    // The table of `{ }`.
    pub fn new() -> Table<'a>
        ensures { script_of result ≡ empty_script }
    {
        Table {
            types: &[],
            labels: 0,
            nodes: &EMPTY_SCRIPT,
        }
    }

    // Holds these sections from now on; where they are not within the limits of a script, what it held before.
    pub fn hold(
        &mut self,
        types: &'a [Primitive],
        labels: u16,
        nodes: &'a [Node],
    ) -> Result<(), OverLimits>
        ensures value { result ≡ held (record { locals = types.now; labels = labels; nodes = nodes.now }) }
        ensures after { MatchResult result (λ _. script_of self.new ≡ record { locals = types.now; labels = labels; nodes = nodes.now }) (λ _. self.new ≡ self.old) }
    {
        if types.len() > MOST_LOCALS
            || labels as usize > MOST_LABELS
            || !(1..=MOST_NODES).contains(&nodes.len())
        {
            return Err(OverLimits);
        }
        *self = Table {
            types,
            labels: labels as u8,
            nodes,
        };
        Ok(())
    }

    pub fn types(&self) -> &'a [Primitive]
        ensures { result.now ≡ (script_of self.now).locals }
    {
        self.types
    }

    pub fn labels(&self) -> u8
        ensures { result ≡ (script_of self.now).labels }
    {
        self.labels
    }

    pub fn nodes(&self) -> &'a [Node]
        ensures { result.now ≡ (script_of self.now).nodes }
    {
        self.nodes
    }

    // How many nodes there are.
    pub fn size(&self) -> u16
        ensures { result ≡ size (script_of self.now) }
    {
        self.nodes.len() as u16
    }

    // The node at a place; past the end all its fields are 0.
    #[tactic(auto, unfolding(crate::specs::Tables::node))]
    pub fn node_at(&self, place: Pos) -> Node
        ensures { result ≡ node (script_of self.now) place.0 }
    {
        let node = self.nodes.get(place.0 as usize);
        node.copied().unwrap_or(Node::BLANK)
    }

    // The parent's place.
    #[tactic(auto, unfolding(crate::specs::Tables::up))]
    pub fn up(&self, place: Pos) -> Pos
        ensures { result.0 ≡ up (script_of self.now) place.0 }
    {
        self.node_at(place).up
    }

    // The place after the last node below a place.
    #[tactic(auto, unfolding(crate::specs::Tables::end))]
    pub fn end(&self, place: Pos) -> Pos
        ensures { result.0 ≡ end (script_of self.now) place.0 }
    {
        self.node_at(place).end
    }

    // What the node at a place stands for, if anything.
    #[tactic(auto, unfolding(crate::specs::Tables::meaning))]
    pub fn meaning(&self, place: Pos) -> Option<Construct>
        ensures { result ≡ meaning (script_of self.now) place.0 }
    {
        self.node_at(place)
            .construct(self.types.len() as u8, self.labels)
    }

    // The same where each node is known to stand for something.
    #[tactic(auto, unfolding(crate::specs::Tables::construct))]
    pub fn construct(&self, place: Pos) -> Construct
        ensures { result ≡ construct (script_of self.now) place.0 }
    {
        self.meaning(place).unwrap_or(Construct::Empty)
    }
}
