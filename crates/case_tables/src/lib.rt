//! Tables of rows by key, and two macros for code that is a table: [`each_case!`], a match over listed
//! cases, and [`first_of!`], the first answer of a list of calls. A table whose keys rise is searched by
//! halves. No call takes memory.
#![tactic(auto)]

mod cases;
mod table;

pub use table::{Row, Table};
