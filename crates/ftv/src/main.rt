//! The program `ftv`: does what the words after its name ask for, and exits with the status.
#![tactic(auto)]

use ft_base::NoMemory;
use ft_cli::{Ended, exit_of, file_words, run};
use ft_port::{FileShelf, OutSink};
use std::env;
use std::process::ExitCode;

/// The words after the program's name.
fn words(rt: &HostRuntime) -> Result<Vec<String>, NoMemory> {
    let mut words = Vec::new(rt.alloc());
    for word in env::args(rt).map_err(|_| NoMemory)?.skip(1) {
        words.push(word)?;
    }
    Ok(words)
}

/// What the words ask for, done with the files of the system and standard output.
fn called(rt: HostRuntime) -> Result<Ended, NoMemory> {
    let alloc = rt.alloc();
    let words = words(&rt)?;
    let mut shelf = FileShelf::new(rt.clone()?, alloc, file_words(words.as_slice()))?;
    let mut sink = OutSink::new(rt);
    Ok(run(alloc, words.as_slice(), &mut shelf, &mut sink))
}

fn main(rt: HostRuntime) -> ExitCode {
    ExitCode::from(exit_of(called(rt)))
}
