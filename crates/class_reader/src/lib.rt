//! Reading class files (JVM Specification SE 8, chapter 4), of majors 45 to 52. [`read_class`] answers the class
//! that some bytes spell, or their first fault with its place. What is read: the constant pool, fields with
//! their ConstantValue, methods with their Code and its exception table. Every other attribute is skipped by
//! its length. Utf8 contents, flags, descriptors and exception rows aren't checked here.
//!
//! `specs/ClassTexts` says how a class file is spelled, production by production, and `specs/ClassReaders`
//! reads it in the same words, with the fault of each step at its place; that the one is the reader of the
//! other is proved in `proofs/`. [`class_or_fault`] has what follows for all texts.
#![tactic(auto)]

mod attributes;
mod code;
mod constants;
mod fields;
mod methods;
mod numbers;
mod read;
mod references;

pub use read::{class_or_fault, read_class};
