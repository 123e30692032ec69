// A script as data: the four sorts of number, the kinds of node, the nodes and what they stand for, and the tables that hold
// them. Files are not known here, nor whether a script makes sense.
#![tactic(auto)]

mod children;
mod construct;
mod kind;
mod node;
mod sorts;
mod table;

pub use children::Sort;
pub use construct::{CHANNELS, Construct};
pub use kind::Kind;
pub use node::Node;
pub use sorts::{Chan, Lab, Loc, Pos};
pub use table::{MOST_LABELS, MOST_LOCALS, MOST_NODES, OverLimits, Table};
