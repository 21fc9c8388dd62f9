//! Compares what the rules make of nodes with a table: `bv_rules_rows FILE`.
//!
//! A line of the file is a rule's name, a node to which the rule applies and the result, and a near miss, to which it
//! doesn't apply, and what the rules make of that, with `|` between them. Nodes are written in prefix notation, as in
//! `(or (shl x8 3:8) (shr x8 5:8))`: a leaf is a name of x, y and z with its width, a constant its value and its
//! width, and a result is a node or `none`. Empty lines and lines that begin with `#` or `//` are read over.
//!
//! The nodes are added to a graph as they stand, and the outermost is looked at by `pick`. A line is printed for each
//! row, and the number of rows and of wrong ones at the end. The status is 1 where a row is wrong or can't be read.
#![tactic(auto)]

mod fault;
mod reading;
mod rows;
mod terms;
#[cfg(test)]
mod tests;
mod words;

use fault::Fault;
use rows::{Report, compared, is_row, row_of};
use std::alloc::Global;
use std::process::ExitCode;
use std::{env, fs, io};

fn main(rt: HostRuntime) -> io::Result<ExitCode> {
    let mut words = env::args(&rt)?.skip(1);
    let Some(file) = words.next() else {
        println!(rt; "bv_rules_rows FILE")?;
        return Ok(ExitCode::FAILURE);
    };
    let text = fs::read_to_string(&rt, file.as_str())?;
    let mut number = 0u64;
    let mut rows = 0u64;
    let mut wrong = 0u64;
    for line in text.as_str().lines() {
        number = number.saturating_add(1);
        if is_row(line) {
            match report_of(rt.alloc(), line) {
                Ok(report) => {
                    rows = rows.saturating_add(1);
                    if !report.right {
                        wrong = wrong.saturating_add(1);
                    }
                    println!(rt; "{}", report.text)?;
                }
                Err(fault) => {
                    println!(rt; "line {number}: {fault}")?;
                    return Ok(ExitCode::FAILURE);
                }
            }
        }
    }
    println!(rt; "{rows} rows, {wrong} wrong")?;
    Ok(if wrong == 0 {
        ExitCode::SUCCESS
    } else {
        ExitCode::FAILURE
    })
}

fn report_of(alloc: Global, line: &str) -> Result<Report, Fault> {
    compared(alloc, row_of(line)?)
}
