//! What a run of a method works on (JVM Specification SE 8, chapter 2): values, operand stacks, local variables,
//! frames, arrays, the heap and whole states, and the moves of operands and local variables, which look at no number.
//! All of it is generic in what stands for ints (`I`), longs (`L`) and elements (`E`): in a run numbers do, and they
//! are the defaults; a symbolic state has nodes of a graph in their place and runs the same code.
//!
//! `value` has values and the ends of a run, `sorts` and `types` what values are told apart by, `stop` why an instruction doesn't
//! go on, `stack`, `cells`, `variables`, `frame`, `callers`, `arrays`, `heap` and `state` what a state holds, and
//! `block` and `stack_moves` the instructions from pop to swap.
//!
//! `specs/` says the same as definitions, which read in the order of `specs/Lib.antt`.
#![tactic(auto)]

mod arrays;
mod block;
mod callers;
mod cells;
mod frame;
mod heap;
mod sorts;
mod stack;
mod stack_moves;
mod state;
mod stop;
mod types;
mod value;
mod variables;

pub use arrays::{Array, Arrays};
pub use block::{Block, Span};
pub use callers::Callers;
pub use cells::Cells;
pub use frame::Frame;
pub use heap::Heap;
pub use sorts::{Sort, Width};
pub use stack::Stack;
pub use stack_moves::{discard, duplicate, swap};
pub use state::{Limits, Site, State, Waiting};
pub use stop::{Halt, Stop, check, refuse};
pub use types::{ArrayType, FieldType, is_same_kind};
pub use value::{End, Reason, Seen, Throw, Value};
pub use variables::{Locals, inside, int_held, load, store};
