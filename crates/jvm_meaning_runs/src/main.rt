//! Runs static methods on many inputs and lists how each run ends, to be compared with the Java virtual machine:
//! `jvm_meaning_runs JOBS`. A line of the file JOBS is a job: the class file, the method's name and descriptor, the sizes of
//! its first two array parameters, of which those that it lacks aren't read, the number of the observed parameter or
//! `-` for what is returned, and a file of leaves, 8 bytes each, the highest byte first, one input after another.
#![tactic(auto)]

use axe_io::OutPlace;
use std::io::Write;
use std::{env, fs, io};

#[cfg(test)]
mod code_tests;
mod lines;
#[cfg(test)]
mod tests;

fn main(rt: HostRuntime) -> io::Result<()> {
    let words = env::args(&rt)?;
    let mut words = words.skip(1);
    let Some(jobs) = words.next() else {
        println!(rt; "jvm_meaning_runs JOBS")?;
        return Ok(());
    };
    let text = fs::read_to_string(&rt, jobs.as_str())?;
    for line in text.lines() {
        println!(rt; "{line}")?;
        run_job(&rt, line)?;
    }
    Ok(())
}

/// Runs a job, if a line is one.
fn run_job(rt: &HostRuntime, line: &str) -> io::Result<()> {
    let mut words = line.split(' ');
    let (Some(file), Some(name), Some(desc)) = (words.next(), words.next(), words.next()) else {
        return Ok(());
    };
    let (Some(first), Some(second)) = (words.next(), words.next()) else {
        return Ok(());
    };
    let (Some(out), Some(inputs)) = (words.next(), words.next()) else {
        return Ok(());
    };
    let class = fs::read(rt, file)?;
    let leaves = fs::read(rt, inputs)?;
    let job = lines::Job {
        name: name.as_bytes(),
        desc: desc.as_bytes(),
        sizes: [size(first), size(second)],
        out: place(out),
    };
    match lines::of(rt.alloc(), class.as_slice(), &job, leaves.as_slice()) {
        Ok(text) => rt.stdout().write_all(text.as_slice()),
        Err(_) => {
            println!(rt; "no memory")?;
            Ok(())
        }
    }
}

/// A size, at most 4,096.
fn size(text: &str) -> u16 {
    text.parse().unwrap_or(0u16).min(4_096)
}

fn place(text: &str) -> OutPlace {
    match text.parse::<u16>() {
        Ok(number) => OutPlace::Param(number),
        Err(_) => OutPlace::Returned,
    }
}
