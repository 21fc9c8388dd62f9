//! The reader of specifications: from bytes to the functions and the constants that they define.
//!
//! A specification is a text of a small part of ACL2. Reading it takes five steps, each a function on whole lists
//! or trees: `token` splits bytes into tokens, `nesting` groups tokens into data by their parentheses, `syntax` and
//! `definition` read data as expressions and definitions whose names are words, and `resolve` looks these up, with
//! the variables of `scope`.
//! `program` puts the steps together, so that the first fault is that of the earliest step.
#![tactic(auto)]

mod calls;
mod datum;
mod definition;
mod expression;
mod keyword;
mod meaning;
mod names;
mod nesting;
mod number;
mod parts;
mod program;
mod resolve;
mod scope;
mod syntax;
mod token;

pub use nesting::nested_is_spelled;
pub use program::read_spec;
pub use token::tokens_are_spelled;
