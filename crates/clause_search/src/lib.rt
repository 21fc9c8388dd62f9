//! Search for a model or a refutation of a formula, by learning from conflicts.
//!
//! The search decides variables, propagates with two watched literals for each clause, and learns from each
//! conflict one line of a log: the clause at the first unique implication point, with redundant literals taken
//! out. It takes back levels until one literal of that line follows. Each line that it writes is new: no clause
//! of the formula and no earlier line has all its literals within it. That holds because nothing follows from
//! any clause where a level begins, so a clause within the line would have been found before.
#![tactic(auto)]

mod analyze;
mod bucket;
mod learn;
mod order;
pub mod outcome;
mod pass;
mod restarts;
pub mod run;
mod start;
mod trail;
mod watch;

pub use outcome::Found;
pub use run::search;
