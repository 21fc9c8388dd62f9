//! For each node of a graph the node that stands for it, which is said to retain it.
//!
//! The table is flat: a retained node is retained by itself, so that a look-up is one read. Beside it stand the number
//! of nodes that each one retains and a bound on their places, so that replacing a node that retains itself alone
//! changes one entry. After `begin` no call takes memory.
//!
//! `specs/KeepsValues.antt` says what a table means for a graph: on each input a node has the value of its retained
//! node.
#![tactic(auto)]

mod table;

pub use table::MergeTable;
