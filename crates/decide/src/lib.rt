//! Decides a job: reads its words, finds what it is made of, and writes the text of the verdict.
//!
//! `answer` is the answer to the words of a job, `status` what a run ends with, `running` has the whole, and `laws` what
//! follows.
//! `specs/Answers.antt` says when a verdict is right, and `specs/Runs.antt` what is written and what a run ends with.
#![tactic(auto)]

mod answer;
mod laws;
mod running;
mod status;

pub use answer::{Answer, NoAnswer};
pub use laws::run_is_complete;
pub use running::{NoWords, run, without_words};
pub use status::Status;
