//! Prints the inputs that a seed draws: `test_vectors_rows SEED COUNT`, for a parameter of each kind and an array.
//!
//! A line of the output is an input: its leaves in order, a long, a byte, a char, a short, an int and three ints of an
//! array, in hexadecimal digits. Called otherwise, it says so. `scripts/check-test-vectors` calls it.
#![tactic(auto)]

ghost use Rattle.std.specs.Prelude.{◌≤◌};

use axe_io::{Input, Kind, OutPlace, Param, Shape};
use memory::Memory;
use std::alloc::Global;
use std::process::ExitCode;
use std::{env, io};
use test_vectors::draw;

/// The parameters.
const PARAMS: [Param; 6] = [
    Param {
        kind: Kind::Long,
        len: None,
    },
    Param {
        kind: Kind::Byte,
        len: None,
    },
    Param {
        kind: Kind::Char,
        len: None,
    },
    Param {
        kind: Kind::Short,
        len: None,
    },
    Param {
        kind: Kind::Int,
        len: None,
    },
    Param {
        kind: Kind::Int,
        len: Some(3),
    },
];

/// The first `count` inputs of a seed.
fn inputs(alloc: Global, seed: u64, count: u32) -> Result<Vec<Input>, Memory>
    requires { 1 ≤ count }
{
    let params = Vec::from_slice(alloc, &PARAMS)?;
    let shape = Shape::of(params, OutPlace::Returned, Kind::Int, false);
    draw(alloc, seed, count, &shape)
}

/// Prints an input.
fn print_input(rt: &HostRuntime, input: &Input) -> io::Result<()> {
    for leaf in input.leaves() {
        print!(rt; "{leaf:x} ")?;
    }
    println!(rt; "")
}

/// The seed and the count that two words spell.
fn numbers(seed: Option<String>, count: Option<String>) -> Option<(u64, u32)> {
    let seed = seed?.as_str().parse::<u64>().ok()?;
    let count = count?.as_str().parse::<u32>().ok()?;
    Some((seed, count))
}

fn main(rt: HostRuntime) -> io::Result<ExitCode> {
    let mut words = env::args(&rt)?;
    let _program = words.next();
    let Some((seed, count)) = numbers(words.next(), words.next()) else {
        println!(rt; "test_vectors_rows SEED COUNT")?;
        return Ok(ExitCode::FAILURE);
    };
    if count == 0 {
        return Ok(ExitCode::SUCCESS);
    }
    let Ok(inputs) = inputs(rt.alloc(), seed, count) else {
        println!(rt; "out of memory")?;
        return Ok(ExitCode::FAILURE);
    };
    for input in &inputs {
        print_input(&rt, input)?;
    }
    Ok(ExitCode::SUCCESS)
}
