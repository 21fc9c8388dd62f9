use axe_io::Kind;
use jvm_state::{Sort, Span, Value, Width};

/// What an instruction does (JVM Specification SE 8, section 6.5). Numbers are of local variables and of constants.
#[derive(Clone, Copy)]
pub enum Operation {
    /// Moves values and looks at no number.
    Move(Move),
    /// Changes the operands alone.
    Stack(StackOperation),
    /// iinc: adds a number to a local variable.
    Increment(u16, i32),
    /// Goes on elsewhere where a condition holds, by an offset from the branch's opcode.
    Branch(Condition, i32),
    /// Makes, reads or writes an array.
    Array(ArrayOperation),
    /// ldc, ldc_w, ldc2_w: pushes a constant of a width; the opcode is named where it is refused.
    LoadConstant(u8, Width, u16),
    /// anewarray: the constant names the type of the elements.
    NewReferences(u16),
    /// multianewarray: the constant names the type, and so many counts are given.
    NewRows(u16, u8),
    /// putstatic.
    PutStatic(u16),
    /// invokestatic.
    Invoke(u16),
    /// ireturn, lreturn, areturn, and return, which gives nothing.
    Return(Option<Sort>),
}

/// An instruction that moves values and looks at no number.
#[derive(Clone, Copy)]
pub enum Move {
    /// nop.
    Nothing,
    /// aconst_null.
    PushNull,
    /// pop, pop2.
    Discard(Span),
    /// dup, dup2 and their forms.
    Duplicate(Span, Span),
    /// swap.
    Swap,
    /// iload, lload, aload.
    Load(Sort, u16),
    /// istore, lstore, astore.
    Store(Sort, u16),
    /// getstatic.
    GetStatic(u16),
    /// goto, goto_w: goes on elsewhere, by an offset from the opcode.
    Jump(i32),
    /// The same where a test of references holds.
    JumpIf(ReferenceTest, i32),
}

/// What is done to the operands alone.
#[derive(Clone, Copy)]
pub enum StackOperation {
    /// iconst_<i>, lconst_<l>, bipush, sipush.
    Push(Value),
    /// add, sub, mul, and, or, xor.
    Binary(Binary, Width),
    /// div, rem.
    Divide(Division, Width),
    /// neg.
    Negate(Width),
    /// shl, shr, ushr.
    Shift(Shift, Width),
    /// The rotations of java.lang.Integer and java.lang.Long.
    Rotate(Turn, Width),
    /// i2l.
    ToLong,
    /// l2i.
    ToInt,
    /// i2b, i2c, i2s.
    Narrow(Kind),
    /// lcmp.
    Compare,
}

/// An operation on two words of one width.
#[derive(Clone, Copy)]
pub enum Binary {
    Add,
    Subtract,
    Multiply,
    And,
    Or,
    Xor,
}

/// What is taken of a division.
#[derive(Clone, Copy)]
pub enum Division {
    Quotient,
    Remainder,
}

/// The way of a shift; to the right the sign is kept, or zeros come in.
#[derive(Clone, Copy)]
pub enum Shift {
    Left,
    Right,
    UnsignedRight,
}

/// The way of a rotation.
#[derive(Clone, Copy)]
pub enum Turn {
    Left,
    Right,
}

/// What is done with an array.
#[derive(Clone, Copy)]
pub enum ArrayOperation {
    /// baload, caload, saload, iaload, laload.
    LoadElement(Kind),
    /// bastore, castore, sastore, iastore, lastore.
    StoreElement(Kind),
    /// aaload.
    LoadReference,
    /// aastore.
    StoreReference,
    /// newarray.
    NewArray(Kind),
    /// arraylength.
    ArrayLength,
}

/// When a branch is taken.
#[derive(Clone, Copy)]
pub enum Condition {
    /// ifeq, ifne, iflt, ifge, ifgt, ifle: an int against 0.
    IfZero(Test),
    /// if_icmpeq, if_icmpne, if_icmplt, if_icmpge, if_icmpgt, if_icmple.
    IfInts(Test),
}

/// A test of references.
#[derive(Clone, Copy)]
pub enum ReferenceTest {
    /// if_acmpeq.
    Same,
    /// if_acmpne.
    NotSame,
    /// ifnull.
    Null,
    /// ifnonnull.
    NotNull,
}

/// A test of two signed ints.
#[derive(Clone, Copy)]
pub enum Test {
    Equal,
    NotEqual,
    Less,
    NotLess,
    Greater,
    NotGreater,
}

/// An operation, and the bytes that the instruction takes.
#[derive(Clone, Copy)]
pub struct Instruction {
    pub operation: Operation,
    pub size: u32,
}
