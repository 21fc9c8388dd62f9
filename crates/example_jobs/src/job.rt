use axe_io::{MemorySink, MemoryStore, OpenGate, Stored};
use decide::{Status, run};
use std::alloc::Global;
use std::marker::Sync;
use std::sync::Wait;
use std::thread::Threads;
use std::{fs, io};

/// The words of a job, and a store of the files beside them.
#[derive(Drop)]
pub struct Job {
    words: Vec<String>,
    store: MemoryStore,
}

/// The most bytes that a sink of a job takes at once.
const PIECE: usize = 4096;

impl Job {
    /// The job of a folder: its class and its specification are the files that the words name in it.
    pub fn of_folder(rt: &HostRuntime, folder: &str) -> io::Result<Job> {
        let alloc = rt.alloc();
        let command = fs::read_to_string(rt, format!(in alloc; "{folder}/command")?.as_str())?;
        let mut words = Vec::new(alloc);
        let mut contents = Vec::new(alloc);
        for word in command.as_str().lines() {
            if word.ends_with(".class") || word.ends_with(".lisp") {
                let path = format!(in alloc; "{folder}/{word}")?;
                contents.push(Stored {
                    name: String::from_str(alloc, word)?,
                    bytes: fs::read(rt, path.as_str())?,
                })?;
            }
            words.push(String::from_str(alloc, word)?)?;
        }
        let store = MemoryStore::new(contents, Vec::new(alloc));
        Ok(Job { words, store })
    }

    /// Does the job, and gives a sink with its text, and its status.
    pub fn run<R: Threads + Wait + Sync>(mut self, rt: &R, alloc: Global) -> (MemorySink, Status) {
        let mut out = MemorySink::new(alloc, PIECE, Vec::new(alloc));
        let status = run(rt, alloc, &self.words, &mut self.store, &mut out, &OpenGate);
        (out, status)
    }
}
