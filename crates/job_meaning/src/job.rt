use axe_io::{Budgets, Shape};
use class_file::{ClassFile, MethodId};
use spec_form::{FunId, Program};

/// A method of a class and a function of a program, with the shape of their inputs and the limits of a run and of an
/// evaluation.
#[derive(Drop)]
pub struct Job<'a> {
    pub class: &'a ClassFile,
    pub method: MethodId,
    pub program: &'a Program,
    pub function: FunId,
    pub shape: &'a Shape,
    pub budgets: &'a Budgets,
}
