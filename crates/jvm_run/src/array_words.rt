ghost use Rattle.std.specs.Prelude.{◌≡◌, ◌+◌, ◌≤◌, ◌<◌, ◌^◌, ℕ, not, nat_le, nat_lt, length, OnOk, IfOk, IsTrue};
ghost use Rattle.bv_words.specs.Words.{slt as slt_of, chop as chop_of};
ghost use Rattle.axe_io.specs.Shapes.{width_of};
ghost use Rattle.jvm_state.specs.Values.{bits_in, value_of, narrowed};
ghost use Rattle.jvm_state.specs.Arrays.{Arrays as ArrayList, set_element, set_row};
ghost use Rattle.jvm_meaning.specs.ArrayUses.{element_value, width_for, load_element, load_reference, store_element, store_reference, empty, with_array, new_array, new_references, array_length, with_arrays, on_arrays};
ghost use Rattle.jvm_state.specs.Stops.{Gives};

use crate::arithmetic::{narrowed, pop_word};
use axe_io::Kind;
use bv_words::chop;
use class_file::ClassFile;
use jvm_meaning::{
    ArrayOperation, array_class, element, next_array, pop_array, pop_rows, present,
    reference_value, row,
};
use jvm_state::{
    Array, ArrayType, Arrays, Cells, FieldType, Halt, Heap, Reason, Stack, Stop, Throw, Value,
    Width, check, refuse,
};
use std::alloc::{AllocError, Global};

/// The value of an element: bytes and shorts with their sign, chars with zeros.
fn element_value(kind: Kind, word: u64) -> Value
    ensures { result ≡ element_value kind word }
{
    match kind {
        Kind::Long => Value::Long(word),
        _ => Value::Int(narrowed(kind, chop(32, word) as u32)),
    }
}

/// The width of the words that are stored to elements of a kind.
fn width_for(kind: Kind) -> Width
    ensures { result ≡ width_for kind }
{
    match kind {
        Kind::Long => Width::Long,
        Kind::Byte | Kind::Char | Kind::Short | Kind::Int => Width::Int,
    }
}

/// baload, caload, saload, iaload, laload.
fn load_element(kind: Kind, depth: u16, arrays: &Arrays, stack: &mut Stack) -> Result<(), Halt>
    ensures { Gives (λ _. stack.new) result (load_element kind depth arrays.now stack.old) }
{
    let index = stack.pop_int()?;
    let reference = pop_array(ArrayType { depth: 1, kind }, arrays, stack)?;
    let array = present(reference)?;
    let word = element(arrays, array, index)?;
    stack.push(element_value(kind, word), depth)
}

/// aaload.
fn load_reference(depth: u16, arrays: &Arrays, stack: &mut Stack) -> Result<(), Halt>
    ensures { Gives (λ _. stack.new) result (load_reference depth arrays.now stack.old) }
{
    let index = stack.pop_int()?;
    let reference = pop_rows(arrays, stack)?;
    let array = present(reference)?;
    let there = row(arrays, array, index)?;
    stack.push(reference_value(there), depth)
}

/// aastore: null, or an array of the element type.
fn store_reference(arrays: &mut Arrays, stack: &mut Stack) -> Result<(), Halt>
    ensures { Gives (λ _. (arrays.new, stack.new)) result (store_reference arrays.old stack.old) }
{
    let stored = stack.pop_reference()?;
    let index = stack.pop_int()?;
    let reference = pop_rows(arrays, stack)?;
    let array = present(reference)?;
    row(arrays, array, index)?;
    check(
        arrays.accepts(array, stored),
        Stop::Refused(Reason::WrongOperand),
    )?;
    arrays.set_reference(array, index, stored);
    Ok(())
}

/// bastore, castore, sastore, iastore, lastore: narrowed to the element.
fn store_element(kind: Kind, arrays: &mut Arrays, stack: &mut Stack) -> Result<(), Halt>
    ensures { Gives (λ _. (arrays.new, stack.new)) result (store_element kind arrays.old stack.old) }
{
    let word = pop_word(width_for(kind), stack)?;
    let index = stack.pop_int()?;
    let reference = pop_array(ArrayType { depth: 1, kind }, arrays, stack)?;
    let array = present(reference)?;
    element(arrays, array, index)?;
    arrays.set(array, index, chop(kind.width(), word));
    Ok(())
}

/// Whether so many elements more stay within a limit.
pub fn within(made: u64, count: u64, limit: u64) -> bool
    ensures { result ≡ nat_le (made + count) limit }
{
    match made.checked_add(count) {
        Some(sum) => sum <= limit,
        None => false,
    }
}

/// An array of zeros or nulls.
pub fn empty(alloc: Global, inner: FieldType, count: u32) -> Result<Array, AllocError>
    ensures { IfOk result (λ array. array ≡ empty inner count) }
{
    match inner {
        FieldType::Scalar(kind) => {
            let mut zeros = Cells::new(alloc);
            zeros.resize(count as usize, 0)?;
            Ok(Array::Words(kind, zeros))
        }
        FieldType::Array(inner) => {
            let mut nulls = Cells::new(alloc);
            nulls.resize(count as usize, None)?;
            Ok(Array::References(inner, nulls))
        }
    }
}

/// One more array of zeros or nulls.
#[tactic(auto, using(jvm_meaning::proofs::ArrayLemmas::empty_count))]
fn make(alloc: Global, inner: FieldType, count: u32, heap: &mut Heap) -> Result<(), AllocError>
    requires sum { heap.old.made + count < 2 ^ 64 }
    requires short { count < 2 ^ 31 }
    ensures { OnOk result (heap.new ≡ with_array inner count heap.old) }
{
    let array = empty(alloc, inner, count)?;
    heap.arrays.push(array)?;
    heap.made += u64::from(count);
    Ok(())
}

/// Whether a count isn't negative.
#[tactic(auto, using(bv_words::proofs::DivisionLaws::slt_zero_low, bv_words::proofs::DivisionLaws::slt_zero_high))]
pub fn is_count(count: u32) -> bool
    ensures told { result ≡ not (slt_of 32 count 0) }
    ensures short { IsTrue result → count < 2 ^ 31 }
{
    count < 0x8000_0000
}

/// newarray, anewarray: an array of elements of a type, within so many elements in all.
fn new_array(
    alloc: Global,
    inner: FieldType,
    limit: u64,
    depth: u16,
    heap: &mut Heap,
    stack: &mut Stack,
) -> Result<(), Halt>
    ensures { Gives (λ _. (heap.new, stack.new)) result (new_array inner limit depth heap.old stack.old) }
{
    let count = stack.pop_int()?;
    check(is_count(count), Stop::Throws(Throw::NegativeSize))?;
    check(
        within(heap.made, u64::from(count), limit),
        Stop::MoreElements,
    )?;
    let array = next_array(&heap.arrays)?;
    stack.push(Value::Array(array), depth)?;
    make(alloc, inner, count, heap)?;
    Ok(())
}

/// anewarray: the constant names the type of the elements.
pub fn new_references(
    alloc: Global,
    class: &ClassFile,
    number: u16,
    limit: u64,
    depth: u16,
    heap: &mut Heap,
    stack: &mut Stack,
) -> Result<(), Halt>
    ensures { Gives (λ _. (heap.new, stack.new)) result (new_references class.now number limit depth heap.old stack.old) }
{
    match array_class(class, number) {
        Some(inner) => new_array(alloc, FieldType::Array(inner), limit, depth, heap, stack),
        None => refuse(Reason::OutsideProfile { op: 189 }),
    }
}

/// arraylength.
fn array_length(depth: u16, arrays: &Arrays, stack: &mut Stack) -> Result<(), Halt>
    ensures { Gives (λ _. stack.new) result (array_length depth arrays.now stack.old) }
{
    let reference = stack.pop_reference()?;
    let array = present(reference)?;
    stack.push(Value::Int(arrays.length(array)), depth)
}

/// What is done with an array, where at most so many elements are made in all.
pub fn on_arrays(
    alloc: Global,
    operation: ArrayOperation,
    limit: u64,
    depth: u16,
    heap: &mut Heap,
    stack: &mut Stack,
) -> Result<(), Halt>
    ensures { Gives (λ _. (heap.new, stack.new)) result (on_arrays operation limit depth heap.old stack.old) }
{
    match operation {
        ArrayOperation::LoadElement(kind) => load_element(kind, depth, &heap.arrays, stack),
        ArrayOperation::StoreElement(kind) => store_element(kind, &mut heap.arrays, stack),
        ArrayOperation::LoadReference => load_reference(depth, &heap.arrays, stack),
        ArrayOperation::StoreReference => store_reference(&mut heap.arrays, stack),
        ArrayOperation::NewArray(kind) => {
            new_array(alloc, FieldType::Scalar(kind), limit, depth, heap, stack)
        }
        ArrayOperation::ArrayLength => array_length(depth, &heap.arrays, stack),
    }
}
