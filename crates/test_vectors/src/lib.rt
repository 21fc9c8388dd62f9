//! The inputs on which a sweep first evaluates its graph: the least and the greatest, and others that a seed draws.
//!
//! `specs/TestInputs` says for each seed and each list of leaves what they are.
#![tactic(auto)]

mod drawing;

pub use drawing::draw;
