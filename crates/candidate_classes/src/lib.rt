//! The partition of a graph's nodes into classes of nodes that had equal values so far.
//!
//! A class is known by its least node, its leader. Classes begin as the partition by width, and each list of values
//! refines them. After `begin` no call takes memory, and a split looks only at nodes that may still be parted.
#![tactic(auto)]

mod classes;
mod filing;
mod parting;

pub use classes::Classes;
