//! Compares what becomes of specifications with a table: `spec_meaning_rows FILE`.
//!
//! A line of the file is a text, what becomes of it, and, where these aren't 100 and 1000, how many forms may be open
//! and how many visited, with ` ;; ` between them: so each row is Lisp. What becomes of a text is the value of its first
//! function, why that has none, or the fault of the text. One formal is the list of 5, 6 and 7, two are 5 and 7, three
//! are 5, 7 and 9. Empty lines and lines that begin with `;` are read over.
//!
//! A line is printed for each row that is wrong or can't be read, and the number of rows and of wrong ones at the end.
//! The status is 1 where there is a wrong one.
#![tactic(auto)]

mod rows;
mod texts;
mod visits;

use rows::told;
use std::process::ExitCode;
use std::{env, fs, io};
use visits::a_recursion_is_visited;

fn main(rt: HostRuntime) -> io::Result<ExitCode> {
    a_recursion_is_visited();
    let mut words = env::args(&rt)?.skip(1);
    let Some(file) = words.next() else {
        println!(rt; "spec_meaning_rows FILE")?;
        return Ok(ExitCode::FAILURE);
    };
    let text = fs::read_to_string(&rt, file.as_str())?;
    let mut rows = 0u64;
    let mut wrong = 0u64;
    for line in text.as_str().lines() {
        if !line.is_empty() && !line.starts_with(';') {
            rows = rows.saturating_add(1);
            if let Some(told) = told(rt.alloc(), line)? {
                wrong = wrong.saturating_add(1);
                println!(rt; "{told}")?;
            }
        }
    }
    println!(rt; "{rows} rows, {wrong} wrong")?;
    Ok(if wrong == 0 {
        ExitCode::SUCCESS
    } else {
        ExitCode::FAILURE
    })
}
