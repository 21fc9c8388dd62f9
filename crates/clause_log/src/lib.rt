//! Logs of resolution: a formula, and lines that follow from it.
//!
//! `Log::line` takes a clause and steps of resolution and computes each resolvent itself, so whatever a
//! log holds is true wherever its formula is. A log with the empty line refutes the formula.
#![tactic(auto)]

pub mod error;
mod lines;
pub mod log;
pub mod resolvent;

pub use error::LogError;
pub use log::Log;
pub use resolvent::Resolvent;
