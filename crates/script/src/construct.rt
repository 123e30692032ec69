// What a node stands for: its kind, with its detail and number taken for what they mean.
ghost use Rattle.std.specs.Prelude.{◌≡◌};
ghost use Rattle.java.specs.Types.{type_of};
ghost use Rattle.script.specs.Constructs.{bare, construct_of, has_literals, index_of, literal_at, unnumbered};

use crate::kind::Kind;
use crate::node::Node;
use crate::sorts::{Chan, Lab, Loc};
use java::{Binary, Primitive, Unary, Value};

// In the order of the kinds, but for Empty: `Table::construct` answers it where a node stands for nothing.
#[derive(Clone, Copy, PartialEq, Eq, Debug)]
pub enum Construct {
    Empty,
    Literal(Value),
    Local(Loc),
    Unary(Unary),
    Binary(Binary),
    Conditional,
    Assignment(Loc),
    Reading(Chan),
    Expression,
    Labelled(Lab),
    Break(Lab),
    Continue(Lab),
    If,
    While,
    Block,
    Declaration(Loc),
}

// Channels are numbered from 0.
pub const CHANNELS: u8 = 8;

fn has_literals(of_type: Primitive) -> bool
    ensures { result ≡ has_literals of_type }
{
    !matches!(of_type, Primitive::Byte | Primitive::Short)
}

impl Node {
    // What the node stands for in a script with so many locals and labels; none where its kind, detail or number is not
    // in the table of kinds, or its local or label is not in its section.
    pub fn construct(self, locals: u8, labels: u8) -> Option<Construct>
        ensures { result ≡ construct_of locals labels self }
    {
        match Kind::try_from(self.kind).ok()? {
            Kind::Literal => self.literal(),
            Kind::Local => Some(Construct::Local(Loc(self.index(locals)?))),
            Kind::Unary => {
                let operator = Unary::try_from(self.detail).ok();
                Some(Construct::Unary(self.unnumbered(operator)?))
            }
            Kind::Binary => {
                let operator = Binary::try_from(self.detail).ok();
                Some(Construct::Binary(self.unnumbered(operator)?))
            }
            Kind::Conditional => self.bare(Construct::Conditional),
            Kind::Assignment => Some(Construct::Assignment(Loc(self.index(locals)?))),
            Kind::Reading => Some(Construct::Reading(Chan(self.index(CHANNELS)?))),
            Kind::Empty => self.bare(Construct::Empty),
            Kind::Expression => self.bare(Construct::Expression),
            Kind::Labelled => Some(Construct::Labelled(Lab(self.index(labels)?))),
            Kind::Break => Some(Construct::Break(Lab(self.index(labels)?))),
            Kind::Continue => Some(Construct::Continue(Lab(self.index(labels)?))),
            Kind::If => self.bare(Construct::If),
            Kind::While => self.bare(Construct::While),
            Kind::Block => self.bare(Construct::Block),
            Kind::Declaration => Some(Construct::Declaration(Loc(self.index(locals)?))),
        }
    }

    // A literal of the type that the detail names.
    fn literal(self) -> Option<Construct>
        ensures { result ≡ literal_at (type_of self.detail) self.number }
    {
        let of_type = Primitive::try_from(self.detail).ok()?;
        if !has_literals(of_type) {
            return None;
        }
        Some(Construct::Literal(Value::new(of_type, self.number)?))
    }

    // What the detail names, where the number has no meaning.
    fn unnumbered<T: Drop>(self, named: Option<T>) -> Option<T>
        ensures { result ≡ unnumbered named self.number }
    {
        named.filter(|_| self.number == 0)
    }

    // The local, label or channel that the number names; the detail has no meaning.
    fn index(self, limit: u8) -> Option<u8>
        ensures { result ≡ index_of limit self.detail self.number }
    {
        if self.detail != 0 {
            return None;
        }
        u8::try_from(self.number).ok().filter(|&n| n < limit)
    }

    // A construct for which neither detail nor number has a meaning.
    fn bare(self, construct: Construct) -> Option<Construct>
        ensures { result ≡ bare construct self.detail self.number }
    {
        (self.detail == 0 && self.number == 0).then_some(construct)
    }
}
