//! Reads a formula in DIMACS form from standard input, searches it, and prints the answer in the form that
//! programs which solve such formulas print: a line `s SATISFIABLE` with the values of the variables in a line
//! that begins `v`, or `s UNSATISFIABLE`, or `s UNKNOWN`. To standard error it writes how many lines the log has, and
//! how many steps of resolution they have.
#![tactic(auto)]

mod dimacs;
#[cfg(test)]
mod tests;

use clause_log::Log;
use clause_search::{Found, search};
use cnf_clauses::Formula;
use dimacs::Reader;
use memory::Memory;
use std::io;

// How many lines a search may write.
const LINES: u64 = 1000000;

// The most clauses of a formula that is searched.
const MOST_CLAUSES: u32 = 1 << 30;

fn main(rt: HostRuntime) -> io::Result<()> {
    let mut reader = Reader::new(rt.alloc());
    for line in rt.lines(rt.alloc()) {
        if reader.read(line?.as_str()).is_err() {
            return println!(rt; "c out of memory");
        }
    }
    let formula = reader.into_formula();
    if formula.clauses() > MOST_CLAUSES {
        return println!(rt; "c too many clauses");
    }
    match search(rt.alloc(), formula, LINES) {
        Err(Memory) => println!(rt; "c out of memory"),
        Ok(Found::Refuted(log)) => {
            eprintln!(rt; "lines {}\nsteps {}", log.lines(), steps_of(&log))?;
            println!(rt; "s UNSATISFIABLE")
        }
        Ok(Found::Spent(log)) => {
            eprintln!(rt; "lines {}\nsteps {}", log.lines(), steps_of(&log))?;
            println!(rt; "s UNKNOWN")
        }
        Ok(Found::Model(values)) => {
            println!(rt; "s SATISFIABLE")?;
            print!(rt; "v")?;
            let mut number = 0u64;
            for value in &values {
                if number < 1 << 32 {
                    number += 1;
                }
                print!(rt; " {}{number}", if *value { "" } else { "-" })?;
            }
            println!(rt; " 0")
        }
    }
}

// How many steps of resolution all lines have.
fn steps_of(log: &Log) -> u64 {
    let mut count = 0u64;
    for line in 0..log.lines() {
        count = count.saturating_add(log.steps_of(line).len() as u64);
    }
    count
}
