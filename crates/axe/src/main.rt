//! The program: gives the words, the files and standard output of the system to `decide::run`.
#![tactic(auto)]

#[cfg(test)]
mod program_tests;
#[cfg(test)]
mod tests;

use axe_io::{FileStore, OpenGate, OutputSink};
use decide::{NoWords, run, without_words};
use std::process::ExitCode;
use std::{env, io};

/// The words after the program's name.
fn words(rt: &HostRuntime) -> io::Result<Vec<String>> {
    let mut words = Vec::new(rt.alloc());
    for word in env::args(rt)?.skip(1) {
        words.push(word)?;
    }
    Ok(words)
}

/// Why there are no words.
fn cause_of(error: &io::Error) -> NoWords {
    if error.kind() == io::ErrorKind::InvalidData {
        NoWords::NotText
    } else {
        NoWords::OutOfMemory
    }
}

fn main(rt: HostRuntime) -> ExitCode {
    let mut out = OutputSink::new(&rt);
    let status = match words(&rt) {
        Ok(words) => {
            let mut store = FileStore::new(&rt);
            run(&rt, rt.alloc(), &words, &mut store, &mut out, &OpenGate)
        }
        Err(error) => without_words(rt.alloc(), cause_of(&error), &mut out),
    };
    ExitCode::from(status.code())
}
