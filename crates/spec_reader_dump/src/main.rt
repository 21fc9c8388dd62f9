//! Reads a specification, and tells how many functions and constants it defines, or its first fault:
//! `spec_reader_dump FILE`, or, to time the reader, `spec_reader_dump FILE N`, which reads the file N times.
#![tactic(auto)]

ghost use Rattle.std.specs.Prelude.{◌<◌, ◌↔◌, length, IsNone, IfSome};
ghost use Rattle.spec_reader.specs.Reading.{Gives};
ghost use Rattle.spec_reader.specs.Programs.{program_of};

use spec_form::{Program, SpecError};
use spec_reader::read_spec;
use std::alloc::Global;
use std::{env, fs, io};

#[cfg(test)]
mod tests;

fn main(rt: HostRuntime) -> io::Result<()> {
    let mut words = env::args(&rt)?.skip(1);
    let Some(file) = words.next() else {
        println!(rt; "spec_reader_dump FILE [N]")?;
        return Ok(());
    };
    let times = match words.next() {
        Some(number) => number.as_str().parse().unwrap_or(1u32),
        None => 1,
    };
    let text = fs::read(&rt, file.as_str())?;
    for _ in 1..times {
        let _read = read(rt.alloc(), text.as_slice());
    }
    match read(rt.alloc(), text.as_slice()) {
        None => println!(rt; "too long")?,
        Some(Err(fault)) => println!(rt; "{fault}")?,
        Some(Ok(program)) => {
            let functions = program.functions.len();
            let constants = program.constants.len();
            println!(rt; "functions {functions}, constants {constants}")?;
        }
    }
    Ok(())
}

/// The program of a text, none where the text is longer than a specification may be.
fn read(alloc: Global, text: &[u8]) -> Option<Result<Program, SpecError>>
    ensures long { IsNone result ↔ (1048576 < length text.now) }
    ensures read { IfSome result (λ read. Gives (λ program. program) read (program_of text.now)) }
{
    if text.len() <= 1_048_576 {
        Some(read_spec(alloc, text))
    } else {
        None
    }
}
