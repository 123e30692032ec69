// What a node is called: its kind by name, with the type, local, label or channel that it names.
ghost use Rattle.std.specs.Prelude.{Some};
ghost use Rattle.listing.specs.Names.{node_name};

use java::Primitive;
use script::{Chan, Kind, Lab, Loc, Node};
use std::fmt;

// The name of a node.
#[derive(Clone, Copy)]
pub(crate) struct Named(pub Node);

impl fmt::Display for Named {
    ghost output = { λ n. Some (node_name n.0) };

    fn fmt<W: fmt::Write>(&self, f: &mut fmt::Formatter<W>) -> fmt::Result {
        let node = self.0;
        let Ok(kind) = Kind::try_from(node.kind) else {
            return write!(f, "kind {}", node.kind);
        };
        if kind == Kind::Literal {
            return match Primitive::try_from(node.detail) {
                Ok(of_type) => write!(f, "{kind} of {of_type}"),
                Err(_) => write!(f, "{kind}"),
            };
        }
        let Ok(number) = u8::try_from(node.number) else {
            return write!(f, "{kind}");
        };
        match kind {
            Kind::Local => write!(f, "{}", Loc(number)),
            Kind::Declaration => write!(f, "{kind} of {}", Loc(number)),
            Kind::Assignment => write!(f, "{kind} to {}", Loc(number)),
            Kind::Reading => write!(f, "{kind} of {}", Chan(number)),
            Kind::Labelled => write!(f, "{kind} by {}", Lab(number)),
            Kind::Break | Kind::Continue => write!(f, "{kind} to {}", Lab(number)),
            _ => write!(f, "{kind}"),
        }
    }
}
