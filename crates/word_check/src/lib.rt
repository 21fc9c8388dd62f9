//! Checks of words that two nodes of a circuit never differ, with no search.
//!
//! Two nodes of one width never differ where their difference comes to nothing as a sum, where their exclusive or does,
//! where both are And, or Or, of the same operands, or where they agree on all values of the leaves and these have few
//! bits. Each check speaks of values that the nodes have together on some input, place by place; one lemma joins these
//! to the values of a circuit.
//!
//! - `never`: the public check
//! - `sums`: the difference as a sum of nodes, each with a factor, modulo a power of 2
//! - `parts` and `overlaps`: what a node is a sum of
//! - `exclusive_ors`: the exclusive or of nodes
//! - `operands`: the operands of And or Or
//! - `trying`: all values of few bits
//! - `members`: sets of a circuit's nodes
#![tactic(auto)]

mod exclusive_ors;
mod members;
mod never;
mod operands;
mod overlaps;
mod parts;
mod sums;
mod trying;

pub use never::never_differ;
