//! The words of a job.
//!
//! `axe prove CLASS METHOD SPEC FUNCTION [options]` is read by `read_words`. The first word names the
//! command. The words after it are read by `clap` as one simple command with four words that have to
//! be there and sixteen options with a value each, without flags for help or the version. What the job
//! is made of is a function of the values that `clap` promises to give, and so is each refusal.
//!
//! - `job`: jobs, and why words mean none.
//! - `numbers`: numbers in decimal and lists of sizes.
//! - `command`: the command, and the values that `clap` gives.
//! - `options`: the options with their defaults and ranges.
//! - `read`: the words of a job.
#![tactic(auto)]

mod command;
mod job;
mod numbers;
mod options;
mod read;

pub use job::{Command, Job, NumberWord, WordsError};
pub use read::read_words;
