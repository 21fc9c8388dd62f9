//! Literals, clauses and formulas in conjunctive normal form.
//!
//! A formula is a number of variables and a list of clauses. Formulas of tens of millions of clauses
//! lie flat in memory: a literal takes four bytes, and a clause four more than its literals.
#![tactic(auto)]

pub mod formula;
pub mod lit;
pub mod rows;

pub use formula::Formula;
pub use lit::{ClauseId, Lit};
pub use rows::Rows;
