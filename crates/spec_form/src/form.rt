use crate::builtin::Builtin;
use crate::program::{ConstId, FunId};
use sqlite_items::Items;

/// An expression; `at` is the offset of its first byte.
#[derive(Drop)]
#[cycle(form)]
pub struct Form {
    pub at: u32,
    pub kind: FormKind,
}

/// What an expression is; the parts of the last eight kinds stand in their order in the text.
#[derive(Drop)]
#[cycle(form)]
pub enum FormKind {
    /// A number from -2^127 to 2^127 - 1.
    Number(i128),
    /// The symbol `t`.
    T,
    /// A quoted list of numbers; `nil` is the empty one.
    Quoted(Items<i128>),
    /// A variable by its place among those in scope, counted from 0: formals first, and then bound names from the
    /// outermost on.
    Variable(u32),
    /// A named constant.
    Constant(ConstId),
    /// `(if test then else)`.
    If(Items<Form>),
    /// `let`: the values of its bindings, and then its body.
    Let(Items<Form>),
    /// `let*`: the values of its bindings, each in the scope of those before it, and then its body.
    LetStar(Items<Form>),
    /// `cond`: of each clause the test and then the expression.
    Cond(Items<Form>),
    /// `and`.
    And(Items<Form>),
    /// `or`.
    Or(Items<Form>),
    /// A call of a function of the language with its arguments.
    Builtin(Builtin, Items<Form>),
    /// A call of a function of the program with its arguments.
    Call(FunId, Items<Form>),
}
