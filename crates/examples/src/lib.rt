// The libraries by example. The tests stand in a crate of their own, so that no library is proved a second time for them.
#![tactic(auto)]

#[cfg(test)]
mod files;
#[cfg(test)]
mod operators;
#[cfg(test)]
mod reading;
#[cfg(test)]
mod texts;
