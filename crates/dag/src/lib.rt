//! The graph of word operations that both sides of a job are lifted into.
//!
//! A node is a leaf of an input, a constant or an operation on words of 1 to 64 bits over nodes before it. A graph
//! holds each node once, and a node's place is its id. On each input of the graph's shape every node has one value.
//!
//! - `node`: the 20 kinds of node, their children, and the forms by which widths go together
//! - `width`: which widths fit a form, and the width that follows
//! - `value`: the value of a kind from its children's words
//! - `graph`: the graph itself
//!
//! `specs/Node.antt` says what each kind means, in one table for each of width, value and charge; `specs/Graph.antt`
//! says what a graph is, what its values are, and how it grows. A fact on nodes is stated for all values of the graph
//! under an input (`AreValues`), so that it stays true when nodes are added (`Extends`).
#![tactic(auto)]

mod charge;
mod graph;
mod node;
mod value;
mod width;

pub use charge::kind_charge;
pub use graph::{Dag, DagError};
pub use node::{Children, Form, Node, NodeId, Outline};
pub use value::{Word, kind_value};
pub use width::width_by;
