// A script as text for people: its listing, or the refusal of its file in words.
#![tactic(auto)]

mod lines;
mod names;
mod texts;

pub use lines::{Line, Listing};
pub use texts::{ListFault, text_of};
