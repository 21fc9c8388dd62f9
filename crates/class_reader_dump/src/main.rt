//! Lists what a class file holds, as the class reader sees it: `class_reader_dump FILE`, or, to time the reader,
//! `class_reader_dump FILE N`, which reads the file N times and lists nothing. A line of the listing is the
//! class's own number, an entry of its constant pool, a field, or a static method with Code, which is found
//! by its name and descriptor, and each row of the method's exception table.
//!
//! `class_reader_dump FILE 0 ROWS` lists the file, and then compares what the reader answers with the rows of a table,
//! which [`rows`] describes; the status is 1 where a row is answered otherwise.
#![tactic(auto)]

use class_reader::read_class;
use std::alloc::Global;
use std::io::Write;
use std::process::ExitCode;
use std::{env, fs, io};

mod listing;
mod rows;
#[cfg(test)]
mod tests;

fn main(rt: HostRuntime) -> io::Result<ExitCode> {
    let mut words = env::args(&rt)?.skip(1);
    let Some(file) = words.next() else {
        println!(rt; "class_reader_dump FILE [N [ROWS]]")?;
        return Ok(ExitCode::SUCCESS);
    };
    let times = match words.next() {
        Some(number) => number.as_str().parse().unwrap_or(0u32),
        None => 0,
    };
    let bytes = fs::read(&rt, file.as_str())?;
    if times > 0 {
        let read = read_times(rt.alloc(), bytes.as_slice(), times);
        println!(rt; "read {read} times")?;
        return Ok(ExitCode::SUCCESS);
    }
    match listing::of(rt.alloc(), bytes.as_slice()) {
        Ok(text) => rt.stdout().write_all(text.as_slice())?,
        Err(fault) => println!(rt; "{fault}")?,
    }
    let Some(table) = words.next() else {
        return Ok(ExitCode::SUCCESS);
    };
    let text = fs::read_to_string(&rt, table.as_str())?;
    compare(&rt, text.as_str())
}

/// Compares each row of a table, says which are answered otherwise, and how many there are.
fn compare(rt: &HostRuntime, table: &str) -> io::Result<ExitCode> {
    let (mut rows, mut wrong) = (0u64, 0u64);
    for line in table.lines() {
        if let Some(row) = rows::row_of(line) {
            rows = rows.saturating_add(1);
            let bytes = fs::read(rt, row.file)?;
            let answer = rows::answer(rt.alloc(), bytes.as_slice(), row)?;
            if answer.as_str() != row.wanted {
                wrong = wrong.saturating_add(1);
                println!(rt; "{line}: {answer}")?;
            }
        }
    }
    println!(rt; "{rows} rows, {wrong} wrong")?;
    Ok(if wrong == 0 {
        ExitCode::SUCCESS
    } else {
        ExitCode::FAILURE
    })
}

/// How often the bytes are read as a class, of so many times.
fn read_times(alloc: Global, bytes: &[u8], times: u32) -> u32 {
    let mut read = 0u32;
    for _ in 0..times {
        if bytes.len() <= 1048576 && read_class(alloc, bytes).is_ok() {
            read = read.wrapping_add(1);
        }
    }
    read
}
