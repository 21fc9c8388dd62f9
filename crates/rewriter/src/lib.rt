//! Building nodes by rules.
//!
//! `build` takes a node that fits a graph, lets the rules of `bv_rules` find a plan for it, and adds the plan's nodes:
//! at most 16, whose charges together are at most four times the asked node's. The node that it answers has the asked
//! node's width and, on every input, its value. What was added is counted in a `Charge`.
#![tactic(auto)]

mod building;

pub use building::{Charge, build};
