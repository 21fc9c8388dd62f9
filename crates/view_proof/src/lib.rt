//! Proofs of pairs and paths by search.
//!
//! A view's question is a formula that is met exactly where its two nodes differ. [`prove_pair`] searches it: a
//! refutation makes a [`Checked`] pair, whose type keeps that the two nodes are equal for all values of the view's
//! leaves, and a model is an input on which they differ. [`settle`] asks likewise whether a node of width 1 is ever 1.
//!
//! - `ask`: the questions of a view and of a path
//! - `read`: the input that a model spells
//! - `answer`: what a search of a question comes to
//! - `pair` and `path`: the two public calls
#![tactic(auto)]

mod answer;
mod ask;
mod pair;
mod path;
mod read;

pub use ask::{Question, question_of};
pub use pair::{Checked, PairEnd, SpentProof, prove_pair};
pub use path::{Settled, settle};
