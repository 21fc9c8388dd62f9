//! Instructions of the Java virtual machine (JVM Specification SE 8, chapter 6), as far as this project's
//! profile goes. `specs/Opcodes` is the opcode table, a line an opcode; `specs/Instructions` says which
//! instruction stands at a place of a code, and [`decode`] is that. No call takes memory.
#![tactic(auto)]

mod decoding;
mod operands;
mod table;

pub use decoding::{CodeError, Inst, decode};
pub use table::{OpRow, Operands, row_of, wide_row_of};
