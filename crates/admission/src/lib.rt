// Admission: the rules of names, types and assignment over a script of good form, and the script that keeps them all.
#![tactic(auto)]

mod labels;
mod latest;
mod names;
mod scopes;
mod spot;
