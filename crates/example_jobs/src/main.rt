//! Does jobs of a folder each as the program does them: `example_jobs LIST`, where the file LIST has the name of a folder
//! on each line. A folder holds a class, a specification, and the file `command` with the words of a job, one on each
//! line. The text and the status of each job are printed behind its name.
#![tactic(auto)]

mod job;

use job::Job;
use std::io::Write;
use std::process::ExitCode;
use std::{env, fs, io};

fn main(rt: HostRuntime) -> io::Result<ExitCode> {
    let mut words = env::args(&rt)?.skip(1);
    let Some(list) = words.next() else {
        println!(rt; "example_jobs LIST")?;
        return Ok(ExitCode::FAILURE);
    };
    let names = fs::read_to_string(&rt, list.as_str())?;
    for name in names.as_str().lines() {
        let job = Job::of_folder(&rt, name)?;
        println!(rt; "== {name}")?;
        let (out, status) = job.run(&rt, rt.alloc());
        rt.stdout().write_all(out.bytes())?;
        println!(rt; "status {}", status.code())?;
    }
    Ok(ExitCode::SUCCESS)
}
