// The operator's companion: `observe show FILE` reads a script file and lists it, or says where its fault begins.
#![tactic(auto)]

mod command;
mod failure;
mod show;
#[cfg(test)]
mod tests;

use crate::command::{Command, understand};
use crate::failure::Failure;
use crate::show::show;
use std::process::ExitCode;
use std::{env, io};

fn words_of(rt: &HostRuntime) -> io::Result<Vec<String>> {
    Ok(env::args(rt)?.skip(1).collect(rt.alloc())?)
}

// Does what the words ask for.
fn run<'a>(rt: &HostRuntime, words: &'a io::Result<Vec<String>>) -> Result<(), Failure<'a>> {
    let words = words.as_ref().map_err(Failure::Unreadable)?;
    let Command::Show(path) = understand(words.as_slice())?;
    show(rt, path).map_err(|fault| Failure::NotShown(path, fault))
}

// What went wrong is said here and nowhere else, and the status tells it too: an `Err` from here would be printed in
// other words.
fn main(rt: HostRuntime) -> io::Result<ExitCode> {
    let words = words_of(&rt);
    match run(&rt, &words) {
        Ok(()) => Ok(ExitCode::SUCCESS),
        Err(failure) => {
            eprintln!(rt; "observe: {failure}")?;
            Ok(ExitCode::FAILURE)
        }
    }
}
