use spec_form::Builtin;
use sqlite_items::{Boxed, Items};

/// A value that stands in a text.
#[derive(Drop)]
pub enum Literal {
    /// A number.
    Number(i128),
    /// The symbol `t`.
    T,
    /// A list of numbers; `nil` is the empty one.
    List(Items<i128>),
}

/// A form whose parts are expressions and nothing else.
#[derive(Clone, Copy)]
pub enum Special {
    If,
    Cond,
    And,
    Or,
}

/// An expression as it is written, its names unread; first its offset.
#[derive(Drop)]
pub enum Expression {
    /// A value.
    Literal(u32, Literal),
    /// A variable or a named constant.
    Name(u32, Items<u8>),
    /// A special form with its parts.
    Special(u32, Special, Items<Expression>),
    /// `let`: the bound names, their values, and the body.
    Let(u32, Boxed<Items<Items<u8>>>, Items<Expression>, Boxed<Expression>),
    /// `let*`, likewise.
    LetStar(u32, Boxed<Items<Items<u8>>>, Items<Expression>, Boxed<Expression>),
    /// A call of a function of the language.
    Builtin(u32, Builtin, Items<Expression>),
    /// A call of another function by its name.
    Call(u32, Boxed<Items<u8>>, Items<Expression>),
}

/// A definition as it is written.
#[derive(Drop)]
pub struct Definition {
    /// The offset of its first byte.
    pub at: u32,
    /// The name that it defines, in lower case.
    pub name: Items<u8>,
    /// The formals of a function, none for a constant.
    pub formals: Option<Items<Items<u8>>>,
    /// The body of a function, or the value of a constant.
    pub body: Expression,
}
