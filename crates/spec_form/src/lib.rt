//! The form of specifications: what a text that was read is, and what its faults are.
//!
//! `form` has expressions, `builtin` the functions of the language that they call, `program` the functions and the
//! constants that a text defines, and `error` why a text defines none. How a text is read stands in `spec_reader`,
//! and what a program means in `spec_meaning`; both stand on this crate alone.
#![tactic(auto)]

mod builtin;
mod error;
mod form;
mod program;

pub use builtin::Builtin;
pub use error::SpecError;
pub use form::{Form, FormKind};
pub use program::{ConstId, FunId, Function, NamedConstant, Program};
