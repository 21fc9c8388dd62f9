//! Finds what a job is made of: its class and method, its specification and function, and the shape of their inputs.
//!
//! `parts` has what a job names and what is found; `given`, `method` and `function` are the stages that find it, and
//! `finding` has them in their order, in which the first that fails decides.
#![tactic(auto)]

mod finding;
mod function;
mod given;
mod method;
mod parts;

pub use finding::find;
pub use parts::{Asked, Parts, Stop, asked_of};
