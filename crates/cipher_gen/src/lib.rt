//! Trial ciphers: from a number, a class file and a specification that say the same in two ways, so that a prover can
//! be tried on pairs of one round to eight.
//!
//! `choices` has what the number chooses, `pushing` adds numbers and entries of a constant pool to a list of bytes,
//! `class` makes the class file with the code of `instructions`, and `specification` the text.
#![tactic(auto)]

mod choices;
mod class;
mod instructions;
mod made;
mod opcodes;
mod pushing;
mod specification;

pub use made::{Made, make};
