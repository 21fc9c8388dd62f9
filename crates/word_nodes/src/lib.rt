//! Words made of nodes, for what lifts methods and specifications into a graph.
//!
//! Each function builds one word over words of a graph, by the rules, and says what the new node tells: its width, and
//! its value on every input from the values of the nodes that it was made of (`Tells`). It says how much the graph
//! grows too, in nodes and in units of charge, and that this was counted (`Gains`). Full comes only where the graph
//! holds its limit of nodes, Memory only where it holds fewer; what was built until then stays in the graph.
//!
//! - `single`: words of one node, as the rules make it
//! - `several`: words of more than one
//! - `rotations`: rotations of ints and longs
#![tactic(auto)]

mod rotations;
mod several;
mod single;

pub use rotations::{masked, turned_left, turned_right};
pub use several::{below_zeros, difference, down_signed, low_bits, sign};
pub use single::{
    below, both, choose, constant, differ, down, either, equal, extended, inverted, joined, less,
    negative, part, product, quotient, remainder, sum, up,
};
