//! What a class file holds (JVM Specification SE 8, chapter 4): its constant pool, fields and methods, as
//! [`ClassFile`], with look-ups by number, name and descriptor, and [`ClassError`], the first fault of bytes
//! that are no class. Crates that read no bytes stand on this crate alone; class_reader makes a class of the
//! bytes that spell it. `specs/` has the contents as contracts see them.
#![tactic(auto)]

mod class;
mod error;
mod name;
mod pool;

pub use class::{ClassFile, Code, Constant, ExceptionRow, Field, Found, Method, MethodId};
pub use error::ClassError;
pub use name::Name;
pub use pool::{constant_of, text_of};
