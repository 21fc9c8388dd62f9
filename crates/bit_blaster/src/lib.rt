//! Circuits of word operations as formulas in conjunctive normal form.
//!
//! A circuit is a list of nodes of which each fits the ones before it. [`blast`] gives each node a row of literals, the
//! lowest bit first: in each model of the formula these are the bits of the nodes' values at the input that the leaves'
//! bits spell, and each input has a model. What a circuit's nodes are charged together bounds the variables, and the
//! charges are summed before anything is made.
//!
//! From the bottom up:
//! - `plain`: a fresh variable with the clauses that tie it to its operands; `constants`: the two constant literals
//! - `gates`: the same where no constant and no literal that stands there already will do
//! - `cells`: one bit of each word operation, and the ripple that joins cells to words
//! - `wires`: what costs nothing; `words`, `products`, `shifts`, `division`: operations on words
//! - `kinds`: the bits of a node by its kind; `charges`: the sum of charges; `circuits`: the loop over a circuit
//!
//! `specs/Circuit.antt` says what a circuit and its values are, `specs/NodeBits.antt` what a formula stands for.
#![tactic(auto)]

mod cells;
mod charges;
mod circuits;
mod constants;
mod division;
mod gates;
mod kinds;
mod plain;
mod products;
mod shifts;
mod wires;
mod words;

pub use charges::{MOST_UNITS, is_affordable};
pub use circuits::{BlastError, Blasted, blast, blast_affordable};
