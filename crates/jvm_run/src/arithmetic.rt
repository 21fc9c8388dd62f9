ghost use Rattle.std.specs.Prelude.{◌≡◌, ℕ, ◌≤◌, ◌<◌, ◌^◌, ◌%◌, ◌⊎◌, IfOk};
ghost use Rattle.bv_words.specs.Words.{chop as chop_of, sx as sx_of, slt as slt_of};
ghost use Rattle.jvm_state.specs.Values.{bits_in, value_of, narrowed};
ghost use Rattle.jvm_meaning.specs.Words.{binary_word, binary, divided, divide, negate, shifted, shift, turned, rotate, to_long, to_int, narrow, order_of, compare, holds};
ghost use Rattle.jvm_state.specs.Stacks.{pop_word};
ghost use Rattle.jvm_state.specs.Stops.{Gives};

use axe_io::Kind;
use bv_words::{chop, neg, plus, rotate_left, sdiv, shl, shr, slice, slt, srem, sx, times};
use jvm_meaning::{Binary, Division, Shift, Test, Turn};
use jvm_state::{Halt, Reason, Stack, Stop, Throw, Value, Width, check, refuse};

/// Takes the word at the top, which has to be of a width.
pub fn pop_word(width: Width, stack: &mut Stack) -> Result<u64, Halt>
    ensures word { Gives (λ n. (n, stack.new)) result (pop_word width stack.old) }
    ensures below { IfOk result (λ n. n < 2 ^ bits_in width) }
{
    match (width, stack.pop()?) {
        (Width::Int, Value::Int(word)) => Ok(u64::from(word)),
        (Width::Long, Value::Long(word)) => Ok(word),
        _ => refuse(Reason::WrongOperand),
    }
}

/// The value of a word of a width.
fn value_of(width: Width, word: u64) -> Value
    requires { word < 2 ^ bits_in width }
    ensures { result ≡ value_of width word }
{
    match width {
        Width::Int => Value::Int(word as u32),
        Width::Long => Value::Long(word),
    }
}

/// iadd, ladd, isub, lsub, imul, lmul, iand, land, ior, lor, ixor, lxor: modulo 2^32 or 2^64.
pub fn binary(operation: Binary, width: Width, depth: u16, stack: &mut Stack) -> Result<(), Halt>
    ensures { Gives (λ _. stack.new) result (binary operation width depth stack.old) }
{
    let second = pop_word(width, stack)?;
    let first = pop_word(width, stack)?;
    let word = binary_word(operation, width.bits(), first, second);
    stack.push(value_of(width, word), depth)
}

fn binary_word(operation: Binary, bits: u32, x: u64, y: u64) -> u64
    requires bits { (bits ≡ 32) ⊎ (bits ≡ 64) }
    requires x { x < 2 ^ bits }
    requires y { y < 2 ^ bits }
    ensures value { result ≡ binary_word operation bits x y }
    ensures word { result < 2 ^ bits }
{
    match operation {
        Binary::Add => plus(bits, x, y),
        Binary::Subtract => plus(bits, x, neg(bits, y)),
        Binary::Multiply => times(bits, x, y),
        Binary::And => bv_words::and(bits, x, y),
        Binary::Or => bv_words::or(bits, x, y),
        Binary::Xor => bv_words::xor(bits, x, y),
    }
}

fn divided(division: Division, bits: u32, x: u64, y: u64) -> u64
    requires bits { (bits ≡ 32) ⊎ (bits ≡ 64) }
    requires x { x < 2 ^ bits }
    requires y { y < 2 ^ bits }
    ensures value { result ≡ divided division bits x y }
    ensures word { result < 2 ^ bits }
{
    match division {
        Division::Quotient => sdiv(bits, x, y),
        Division::Remainder => srem(bits, x, y),
    }
}

/// idiv, ldiv, irem, lrem: a divisor of 0 throws.
pub fn divide(division: Division, width: Width, depth: u16, stack: &mut Stack) -> Result<(), Halt>
    ensures { Gives (λ _. stack.new) result (divide division width depth stack.old) }
{
    let second = pop_word(width, stack)?;
    let first = pop_word(width, stack)?;
    check(second != 0, Stop::Throws(Throw::Arithmetic))?;
    let word = divided(division, width.bits(), first, second);
    stack.push(value_of(width, word), depth)
}

/// ineg, lneg.
pub fn negate(width: Width, depth: u16, stack: &mut Stack) -> Result<(), Halt>
    ensures { Gives (λ _. stack.new) result (negate width depth stack.old) }
{
    let word = pop_word(width, stack)?;
    let negative = neg(width.bits(), word);
    stack.push(value_of(width, negative), depth)
}

/// ishl, lshl, ishr, lshr, iushr, lushr: of the amount the low 5 or 6 bits count.
pub fn shift(direction: Shift, width: Width, depth: u16, stack: &mut Stack) -> Result<(), Halt>
    ensures { Gives (λ _. stack.new) result (shift direction width depth stack.old) }
{
    let amount = stack.pop_int()?;
    let word = pop_word(width, stack)?;
    let moved = shifted(direction, width.bits(), word, amount % width.bits());
    stack.push(value_of(width, moved), depth)
}

fn shifted(direction: Shift, bits: u32, x: u64, amount: u32) -> u64
    requires bits { (bits ≡ 32) ⊎ (bits ≡ 64) }
    requires x { x < 2 ^ bits }
    requires amount { amount < bits }
    ensures value { result ≡ shifted direction bits x amount }
    ensures word { result < 2 ^ bits }
{
    match direction {
        Shift::Left => shl(bits, x, u64::from(amount)),
        Shift::Right => sx(bits, bits - 1 - amount + 1, slice(bits - 1, amount, x)),
        Shift::UnsignedRight => shr(bits, x, u64::from(amount)),
    }
}

/// Integer.rotateLeft, Integer.rotateRight, Long.rotateLeft and Long.rotateRight.
pub fn rotate(direction: Turn, width: Width, depth: u16, stack: &mut Stack) -> Result<(), Halt>
    ensures { Gives (λ _. stack.new) result (rotate direction width depth stack.old) }
{
    let amount = stack.pop_int()?;
    let word = pop_word(width, stack)?;
    let turned = turned(direction, width.bits(), word, amount % width.bits());
    stack.push(value_of(width, turned), depth)
}

fn turned(direction: Turn, bits: u32, x: u64, amount: u32) -> u64
    requires bits { (bits ≡ 32) ⊎ (bits ≡ 64) }
    requires x { x < 2 ^ bits }
    requires amount { amount < bits }
    ensures value { result ≡ turned direction bits x amount }
    ensures word { result < 2 ^ bits }
{
    match direction {
        Turn::Left => rotate_left(bits, u64::from(amount), x),
        Turn::Right => rotate_left(bits, u64::from(bits - amount), x),
    }
}

/// i2l.
pub fn to_long(depth: u16, stack: &mut Stack) -> Result<(), Halt>
    ensures { Gives (λ _. stack.new) result (to_long depth stack.old) }
{
    let word = stack.pop_int()?;
    stack.push(Value::Long(sx(64, 32, u64::from(word))), depth)
}

/// l2i: the low 32 bits.
pub fn to_int(depth: u16, stack: &mut Stack) -> Result<(), Halt>
    ensures { Gives (λ _. stack.new) result (to_int depth stack.old) }
{
    let word = pop_word(Width::Long, stack)?;
    stack.push(Value::Int(chop(32, word) as u32), depth)
}

/// i2b, i2c, i2s.
pub fn narrow(kind: Kind, depth: u16, stack: &mut Stack) -> Result<(), Halt>
    ensures { Gives (λ _. stack.new) result (narrow kind depth stack.old) }
{
    let word = stack.pop_int()?;
    stack.push(Value::Int(narrowed(kind, word)), depth)
}

/// An int narrowed to a kind and extended again, a char with zeros.
pub fn narrowed(kind: Kind, number: u32) -> u32
    ensures { result ≡ narrowed kind number }
{
    match kind {
        Kind::Byte => extended(8, number),
        Kind::Short => extended(16, number),
        Kind::Char => chop(16, u64::from(number)) as u32,
        Kind::Int | Kind::Long => number,
    }
}

/// The lowest bits of an int with their sign extended.
fn extended(width: u32, number: u32) -> u32
    requires { (1 ≤ width) × (width ≤ 32) }
    ensures { result ≡ sx_of 32 width (chop_of width number) }
{
    sx(32, width, chop(width, u64::from(number))) as u32
}

/// lcmp: -1, 0 or 1.
pub fn compare(depth: u16, stack: &mut Stack) -> Result<(), Halt>
    ensures { Gives (λ _. stack.new) result (compare depth stack.old) }
{
    let second = pop_word(Width::Long, stack)?;
    let first = pop_word(Width::Long, stack)?;
    stack.push(Value::Int(order_of(first, second)), depth)
}

fn order_of(x: u64, y: u64) -> u32
    ensures { result ≡ order_of x y }
{
    if slt(64, x, y) {
        4_294_967_295
    } else if x == y {
        0
    } else {
        1
    }
}

/// Whether a test holds of two signed ints.
pub fn holds(test: Test, x: u32, y: u32) -> bool
    ensures { result ≡ holds test x y }
{
    match test {
        Test::Equal => x == y,
        Test::NotEqual => x != y,
        Test::Less => is_less(x, y),
        Test::NotLess => !is_less(x, y),
        Test::Greater => is_less(y, x),
        Test::NotGreater => !is_less(y, x),
    }
}

fn is_less(x: u32, y: u32) -> bool
    ensures { result ≡ slt_of 32 x y }
{
    slt(32, u64::from(x), u64::from(y))
}
