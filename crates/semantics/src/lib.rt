// What a script has to be to be admitted: the rules, the facts that they speak of, and the refusals by which they are
// named. Checker and engine both go by the definitions here; no code of either is known.
#![tactic(auto)]

mod fault;
mod sets;
mod typing;

pub use fault::{AdmissionFault, Rule};
pub use sets::{Assigned, LocalSet};
pub use typing::TypingFault;
