//! Compares the functions on words with a table: `bv_words_rows FILE`.
//!
//! A line of the file is a function's name, its arguments in their order, and after `=` its value. Numbers are decimal,
//! or hexadecimal after `0x`; a truth value is 1 or 0. Empty lines and lines that begin with `#` are read over.
//!
//! A line is printed for each row that is wrong or can't be read, and the number of rows and of such ones at the end.
//! The status is 1 where there is one.
#![tactic(auto)]

mod rows;
mod table;

use rows::is_right;
use std::process::ExitCode;
use std::{env, fs, io};

fn main(rt: HostRuntime) -> io::Result<ExitCode> {
    let mut words = env::args(&rt)?.skip(1);
    let Some(file) = words.next() else {
        println!(rt; "bv_words_rows FILE")?;
        return Ok(ExitCode::FAILURE);
    };
    let text = fs::read_to_string(&rt, file.as_str())?;
    let mut rows = 0u64;
    let mut wrong = 0u64;
    for line in text.as_str().lines() {
        if !line.is_empty() && !line.starts_with('#') {
            rows = rows.saturating_add(1);
            if is_right(rt.alloc(), line)? != Some(true) {
                wrong = wrong.saturating_add(1);
                println!(rt; "wrong: {line}")?;
            }
        }
    }
    println!(rt; "{rows} rows, {wrong} wrong")?;
    Ok(if wrong == 0 {
        ExitCode::SUCCESS
    } else {
        ExitCode::FAILURE
    })
}
