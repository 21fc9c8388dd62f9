ghost use Rattle.std.specs.Prelude.{◌≡◌, ◌≤◌, ◌<◌, ◌+◌, ◌^◌, ℕ, ℤ, Option, Some, length, unsigned_abs, IfOk};
ghost use Rattle.bv_words.specs.Words.{chop};
ghost use Rattle.jvm_meaning.specs.Operations.{int, long, number, constants, loads, stores, moves, arithmetic, branches, new_arrays, calls, operation_of, with_operation, reason_of, instruction_at};
ghost use Rattle.jvm_meaning.specs.declared.operation.Operation.TheVariants as does;
ghost use Rattle.jvm_meaning.specs.declared.operation.Move.TheVariants as moves;
ghost use Rattle.jvm_meaning.specs.declared.operation.StackOperation.TheVariants as operands;

use crate::operation::{
    ArrayOperation, Binary, Condition, Division, Instruction, Move, Operation, ReferenceTest,
    Shift, StackOperation, Test,
};
use axe_io::Kind;
use bv_words::chop;
use class_file::Code;
use jvm_code::{CodeError, Inst, decode};
use jvm_state::{Reason, Sort, Span, Value, Width};

/// How many bytes of code a method may have (JVM Specification SE 8, section 4.7.3).
const LONGEST_CODE: usize = 65_535;

/// The instruction at a place of the code: BadCode where the place or an operand is outside the code, and
/// OutsideProfile where the opcode has no row in the table.
pub fn instruction_at(code: &Code, pc: u32) -> Result<Instruction, Reason>
    ensures value { result ≡ instruction_at code.now pc }
    ensures within { IfOk result (λ i. (pc + i.size ≤ length code.now.bytes) × (length code.now.bytes ≤ 65535)) }
{
    if code.bytes.len() > LONGEST_CODE {
        return Err(Reason::BadCode);
    }
    match decode(code.bytes.as_slice(), pc) {
        Ok(inst) => with_operation(inst),
        Err(error) => Err(reason_of(error)),
    }
}

/// An instruction of the table.
fn with_operation(inst: Inst) -> Result<Instruction, Reason>
    ensures value { result ≡ with_operation inst.op inst.size (operation_of inst.op inst.first inst.second) }
    ensures size { IfOk result (λ i. i.size ≡ inst.size) }
{
    match operation_of(inst.op, inst.first, inst.second) {
        Some(operation) => Ok(Instruction {
            operation,
            size: inst.size,
        }),
        None => Err(Reason::OutsideProfile { op: inst.op }),
    }
}

/// Why there is no instruction.
fn reason_of(error: CodeError) -> Reason
    ensures { result ≡ reason_of error }
{
    match error {
        CodeError::OutOfCode { .. } | CodeError::Cut { .. } => Reason::BadCode,
        CodeError::OutsideTable { op, .. } => Reason::OutsideProfile { op },
    }
}

/// What an opcode with these operands does.
fn operation_of(op: u8, first: i32, second: i32) -> Option<Operation>
    ensures { result ≡ operation_of op first second }
{
    match op {
        0..=20 => constants(op, first),
        21..=53 => loads(op, first),
        54..=86 => stores(op, first),
        87..=95 => moves(op),
        96..=148 => arithmetic(op, first, second),
        149..=167 | 198..=255 => branches(op, first),
        188 => new_arrays(first),
        _ => calls(op, first, second),
    }
}

/// An operand that is a number of two bytes.
fn number(first: i32) -> u16
    ensures { result ≡ number first }
{
    chop(16, u64::from(first.unsigned_abs())) as u16
}

/// An operand that is a byte without sign.
fn byte(second: i32) -> u8
    ensures { result ≡ chop 8 (unsigned_abs second) }
{
    chop(8, u64::from(second.unsigned_abs())) as u8
}

fn stack(operation: StackOperation) -> Option<Operation>
    ensures { result ≡ Some (does.Stack operation) }
{
    Some(Operation::Stack(operation))
}

fn moving(operation: Move) -> Option<Operation>
    ensures { result ≡ Some (does.Move operation) }
{
    Some(Operation::Move(operation))
}

fn int(number: i32) -> Option<Operation>
    ensures { result ≡ Some (int number) }
{
    stack(StackOperation::Push(Value::Int(number.cast_unsigned())))
}

fn long(number: u64) -> Option<Operation>
    ensures { result ≡ Some (long number) }
{
    stack(StackOperation::Push(Value::Long(number)))
}

fn constant(op: u8, width: Width, first: i32) -> Option<Operation>
    ensures { result ≡ Some (does.LoadConstant op width (number first)) }
{
    Some(Operation::LoadConstant(op, width, number(first)))
}

fn load(sort: Sort, at: u16) -> Option<Operation>
    ensures { result ≡ Some (does.Move (moves.Load sort at)) }
{
    Some(Operation::Move(Move::Load(sort, at)))
}

fn store(sort: Sort, at: u16) -> Option<Operation>
    ensures { result ≡ Some (does.Move (moves.Store sort at)) }
{
    Some(Operation::Move(Move::Store(sort, at)))
}

fn array(operation: ArrayOperation) -> Option<Operation>
    ensures { result ≡ Some (does.Array operation) }
{
    Some(Operation::Array(operation))
}

fn binary(operation: Binary, width: Width) -> Option<Operation>
    ensures { result ≡ Some (does.Stack (operands.Binary operation width)) }
{
    stack(StackOperation::Binary(operation, width))
}

fn divide(division: Division, width: Width) -> Option<Operation>
    ensures { result ≡ Some (does.Stack (operands.Divide division width)) }
{
    stack(StackOperation::Divide(division, width))
}

fn shift(direction: Shift, width: Width) -> Option<Operation>
    ensures { result ≡ Some (does.Stack (operands.Shift direction width)) }
{
    stack(StackOperation::Shift(direction, width))
}

fn branch(condition: Condition, offset: i32) -> Option<Operation>
    ensures { result ≡ Some (does.Branch condition offset) }
{
    Some(Operation::Branch(condition, offset))
}

/// The constants: nop to ldc2_w.
#[tactic(auto, unfolding(crate::specs::Operations::constants))]
fn constants(op: u8, first: i32) -> Option<Operation>
    ensures { result ≡ constants op first }
{
    match op {
        0 => moving(Move::Nothing), // nop
        1 => moving(Move::PushNull), // aconst_null
        2 => int(-1), // iconst_m1
        3 => int(0), // iconst_0
        4 => int(1), // iconst_1
        5 => int(2), // iconst_2
        6 => int(3), // iconst_3
        7 => int(4), // iconst_4
        8 => int(5), // iconst_5
        9 => long(0), // lconst_0
        10 => long(1), // lconst_1
        16 => int(first), // bipush
        17 => int(first), // sipush
        18 => constant(18, Width::Int, first), // ldc
        19 => constant(19, Width::Int, first), // ldc_w
        20 => constant(20, Width::Long, first), // ldc2_w
        _ => None,
    }
}

/// Loads of local variables and of elements.
#[tactic(auto, unfolding(crate::specs::Operations::loads))]
fn loads(op: u8, first: i32) -> Option<Operation>
    ensures { result ≡ loads op first }
{
    match op {
        21 => load(Sort::Int, number(first)), // iload
        22 => load(Sort::Long, number(first)), // lload
        25 => load(Sort::Reference, number(first)), // aload
        26 => load(Sort::Int, 0), // iload_0
        27 => load(Sort::Int, 1), // iload_1
        28 => load(Sort::Int, 2), // iload_2
        29 => load(Sort::Int, 3), // iload_3
        30 => load(Sort::Long, 0), // lload_0
        31 => load(Sort::Long, 1), // lload_1
        32 => load(Sort::Long, 2), // lload_2
        33 => load(Sort::Long, 3), // lload_3
        42 => load(Sort::Reference, 0), // aload_0
        43 => load(Sort::Reference, 1), // aload_1
        44 => load(Sort::Reference, 2), // aload_2
        45 => load(Sort::Reference, 3), // aload_3
        46 => array(ArrayOperation::LoadElement(Kind::Int)), // iaload
        47 => array(ArrayOperation::LoadElement(Kind::Long)), // laload
        50 => array(ArrayOperation::LoadReference), // aaload
        51 => array(ArrayOperation::LoadElement(Kind::Byte)), // baload
        52 => array(ArrayOperation::LoadElement(Kind::Char)), // caload
        53 => array(ArrayOperation::LoadElement(Kind::Short)), // saload
        _ => None,
    }
}

/// Stores to local variables and to elements.
#[tactic(auto, unfolding(crate::specs::Operations::stores))]
fn stores(op: u8, first: i32) -> Option<Operation>
    ensures { result ≡ stores op first }
{
    match op {
        54 => store(Sort::Int, number(first)), // istore
        55 => store(Sort::Long, number(first)), // lstore
        58 => store(Sort::Reference, number(first)), // astore
        59 => store(Sort::Int, 0), // istore_0
        60 => store(Sort::Int, 1), // istore_1
        61 => store(Sort::Int, 2), // istore_2
        62 => store(Sort::Int, 3), // istore_3
        63 => store(Sort::Long, 0), // lstore_0
        64 => store(Sort::Long, 1), // lstore_1
        65 => store(Sort::Long, 2), // lstore_2
        66 => store(Sort::Long, 3), // lstore_3
        75 => store(Sort::Reference, 0), // astore_0
        76 => store(Sort::Reference, 1), // astore_1
        77 => store(Sort::Reference, 2), // astore_2
        78 => store(Sort::Reference, 3), // astore_3
        79 => array(ArrayOperation::StoreElement(Kind::Int)), // iastore
        80 => array(ArrayOperation::StoreElement(Kind::Long)), // lastore
        83 => array(ArrayOperation::StoreReference), // aastore
        84 => array(ArrayOperation::StoreElement(Kind::Byte)), // bastore
        85 => array(ArrayOperation::StoreElement(Kind::Char)), // castore
        86 => array(ArrayOperation::StoreElement(Kind::Short)), // sastore
        _ => None,
    }
}

/// Moves of operands.
#[tactic(auto, unfolding(crate::specs::Operations::moves))]
fn moves(op: u8) -> Option<Operation>
    ensures { result ≡ moves op }
{
    match op {
        87 => moving(Move::Discard(Span::OneSlot)), // pop
        88 => moving(Move::Discard(Span::TwoSlots)), // pop2
        89 => moving(Move::Duplicate(Span::OneSlot, Span::NoSlot)), // dup
        90 => moving(Move::Duplicate(Span::OneSlot, Span::OneSlot)), // dup_x1
        91 => moving(Move::Duplicate(Span::OneSlot, Span::TwoSlots)), // dup_x2
        92 => moving(Move::Duplicate(Span::TwoSlots, Span::NoSlot)), // dup2
        93 => moving(Move::Duplicate(Span::TwoSlots, Span::OneSlot)), // dup2_x1
        94 => moving(Move::Duplicate(Span::TwoSlots, Span::TwoSlots)), // dup2_x2
        95 => moving(Move::Swap), // swap
        _ => None,
    }
}

/// Arithmetic, iinc, conversions and lcmp.
#[tactic(auto, unfolding(crate::specs::Operations::arithmetic))]
fn arithmetic(op: u8, first: i32, second: i32) -> Option<Operation>
    ensures { result ≡ arithmetic op first second }
{
    match op {
        96 => binary(Binary::Add, Width::Int), // iadd
        97 => binary(Binary::Add, Width::Long), // ladd
        100 => binary(Binary::Subtract, Width::Int), // isub
        101 => binary(Binary::Subtract, Width::Long), // lsub
        104 => binary(Binary::Multiply, Width::Int), // imul
        105 => binary(Binary::Multiply, Width::Long), // lmul
        108 => divide(Division::Quotient, Width::Int), // idiv
        109 => divide(Division::Quotient, Width::Long), // ldiv
        112 => divide(Division::Remainder, Width::Int), // irem
        113 => divide(Division::Remainder, Width::Long), // lrem
        116 => stack(StackOperation::Negate(Width::Int)), // ineg
        117 => stack(StackOperation::Negate(Width::Long)), // lneg
        120 => shift(Shift::Left, Width::Int), // ishl
        121 => shift(Shift::Left, Width::Long), // lshl
        122 => shift(Shift::Right, Width::Int), // ishr
        123 => shift(Shift::Right, Width::Long), // lshr
        124 => shift(Shift::UnsignedRight, Width::Int), // iushr
        125 => shift(Shift::UnsignedRight, Width::Long), // lushr
        126 => binary(Binary::And, Width::Int), // iand
        127 => binary(Binary::And, Width::Long), // land
        128 => binary(Binary::Or, Width::Int), // ior
        129 => binary(Binary::Or, Width::Long), // lor
        130 => binary(Binary::Xor, Width::Int), // ixor
        131 => binary(Binary::Xor, Width::Long), // lxor
        132 => Some(Operation::Increment(number(first), second)), // iinc
        133 => stack(StackOperation::ToLong), // i2l
        136 => stack(StackOperation::ToInt), // l2i
        145 => stack(StackOperation::Narrow(Kind::Byte)), // i2b
        146 => stack(StackOperation::Narrow(Kind::Char)), // i2c
        147 => stack(StackOperation::Narrow(Kind::Short)), // i2s
        148 => stack(StackOperation::Compare), // lcmp
        _ => None,
    }
}

/// Branches.
#[tactic(auto, unfolding(crate::specs::Operations::branches))]
fn branches(op: u8, first: i32) -> Option<Operation>
    ensures { result ≡ branches op first }
{
    match op {
        153 => branch(Condition::IfZero(Test::Equal), first), // ifeq
        154 => branch(Condition::IfZero(Test::NotEqual), first), // ifne
        155 => branch(Condition::IfZero(Test::Less), first), // iflt
        156 => branch(Condition::IfZero(Test::NotLess), first), // ifge
        157 => branch(Condition::IfZero(Test::Greater), first), // ifgt
        158 => branch(Condition::IfZero(Test::NotGreater), first), // ifle
        159 => branch(Condition::IfInts(Test::Equal), first), // if_icmpeq
        160 => branch(Condition::IfInts(Test::NotEqual), first), // if_icmpne
        161 => branch(Condition::IfInts(Test::Less), first), // if_icmplt
        162 => branch(Condition::IfInts(Test::NotLess), first), // if_icmpge
        163 => branch(Condition::IfInts(Test::Greater), first), // if_icmpgt
        164 => branch(Condition::IfInts(Test::NotGreater), first), // if_icmple
        165 => moving(Move::JumpIf(ReferenceTest::Same, first)), // if_acmpeq
        166 => moving(Move::JumpIf(ReferenceTest::NotSame, first)), // if_acmpne
        167 => moving(Move::Jump(first)), // goto
        198 => moving(Move::JumpIf(ReferenceTest::Null, first)), // ifnull
        199 => moving(Move::JumpIf(ReferenceTest::NotNull, first)), // ifnonnull
        200 => moving(Move::Jump(first)), // goto_w
        _ => None,
    }
}

/// newarray, by the kind of its elements.
#[tactic(auto, unfolding(crate::specs::Operations::new_arrays))]
fn new_arrays(first: i32) -> Option<Operation>
    ensures { result ≡ new_arrays first }
{
    match number(first) {
        5 => array(ArrayOperation::NewArray(Kind::Char)),
        8 => array(ArrayOperation::NewArray(Kind::Byte)),
        9 => array(ArrayOperation::NewArray(Kind::Short)),
        10 => array(ArrayOperation::NewArray(Kind::Int)),
        11 => array(ArrayOperation::NewArray(Kind::Long)),
        _ => None,
    }
}

/// Returns, fields, invokestatic and arraylength.
#[tactic(auto, unfolding(crate::specs::Operations::calls))]
fn calls(op: u8, first: i32, second: i32) -> Option<Operation>
    ensures { result ≡ calls op first second }
{
    match op {
        172 => Some(Operation::Return(Some(Sort::Int))), // ireturn
        173 => Some(Operation::Return(Some(Sort::Long))), // lreturn
        176 => Some(Operation::Return(Some(Sort::Reference))), // areturn
        177 => Some(Operation::Return(None)), // return
        178 => moving(Move::GetStatic(number(first))), // getstatic
        179 => Some(Operation::PutStatic(number(first))), // putstatic
        184 => Some(Operation::Invoke(number(first))), // invokestatic
        189 => Some(Operation::NewReferences(number(first))), // anewarray
        190 => array(ArrayOperation::ArrayLength), // arraylength
        197 => Some(Operation::NewRows(number(first), byte(second))), // multianewarray
        _ => None,
    }
}
