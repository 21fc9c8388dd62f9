//! Worked examples of the libraries at the bottom, as tests, one file a library: they have no tests of their own, since a
//! crate with tests is proved twice. The program says so.
#![tactic(auto)]

#[cfg(test)]
mod command_line;
#[cfg(test)]
mod ends;
#[cfg(test)]
mod formulas;
#[cfg(test)]
mod logs;
#[cfg(test)]
mod partition;
#[cfg(test)]
mod tables;

use std::io;

fn main(rt: HostRuntime) -> io::Result<()> {
    println!(rt; "the examples are tests: rt test")
}
