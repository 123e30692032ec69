// The form of a script: whether each node is a construct, and whether the nodes hang together as constructs do.
#![tactic(auto)]

mod children;
mod constructs;
mod formed;
mod shapes;
mod trees;

pub use formed::Formed;
