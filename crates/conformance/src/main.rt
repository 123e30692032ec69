// Worked cases of Java's operators: prints each with what the operators of the crate `java` give, for comparison with
// Java.
#![tactic(auto)]

mod cases;
mod lines;

use crate::cases::print_cases;
use std::io;

fn main(rt: HostRuntime) -> io::Result<()> {
    print_cases(&rt)
}
