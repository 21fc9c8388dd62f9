ghost use Rattle.std.specs.Prelude.{◌≡◌, length, IfOk};
ghost use Rattle.jvm_state.specs.Arrays.{refers_to, refers_to_rows};
ghost use Rattle.jvm_state.specs.Stops.{Gives};
ghost use Rattle.jvm_meaning.specs.ArrayUses.{pop_array, pop_rows, present, element, row, reference_value};

use jvm_state::{ArrayType, Arrays, Halt, Reason, Stack, Stop, Throw, Value, refuse};
use std::alloc::AllocError;

/// Takes the reference at the top, which is null or to an array of a type.
pub fn pop_array<I: Copy, L: Copy, E: Copy>(
    wanted: ArrayType,
    arrays: &Arrays<E>,
    stack: &mut Stack<I, L>,
) -> Result<Option<u32>, Halt>
    ensures { Gives (λ r. (r, stack.new)) result (pop_array wanted arrays.now stack.old) }
{
    let reference = stack.pop_reference()?;
    if arrays.refers_to(wanted, reference) {
        Ok(reference)
    } else {
        refuse(Reason::WrongOperand)
    }
}

/// Whether a reference is null, or to an array of references.
fn refers_to_rows<E: Copy>(arrays: &Arrays<E>, reference: Option<u32>) -> bool
    ensures { result ≡ refers_to_rows arrays.now reference }
{
    match reference {
        None => true,
        Some(array) => arrays.holds_references(array),
    }
}

/// Takes the reference at the top, which is null or to an array of references.
pub fn pop_rows<I: Copy, L: Copy, E: Copy>(
    arrays: &Arrays<E>,
    stack: &mut Stack<I, L>,
) -> Result<Option<u32>, Halt>
    ensures { Gives (λ r. (r, stack.new)) result (pop_rows arrays.now stack.old) }
{
    let reference = stack.pop_reference()?;
    if refers_to_rows(arrays, reference) {
        Ok(reference)
    } else {
        refuse(Reason::WrongOperand)
    }
}

/// The array of a reference; null throws.
pub fn present(reference: Option<u32>) -> Result<u32, Halt>
    ensures { Gives (λ x. x) result (present reference) }
{
    match reference {
        Some(array) => Ok(array),
        None => Err(Halt::Stopped(Stop::Throws(Throw::NullPointer))),
    }
}

/// The word at an index; an index outside throws.
pub fn element<E: Copy>(arrays: &Arrays<E>, array: u32, index: u32) -> Result<E, Halt>
    ensures { Gives (λ x. x) result (element arrays.now array index) }
{
    match arrays.element(array, index) {
        Some(word) => Ok(word),
        None => Err(Halt::Stopped(Stop::Throws(Throw::ArrayIndex))),
    }
}

/// The reference at an index; an index outside throws.
pub fn row<E: Copy>(arrays: &Arrays<E>, array: u32, index: u32) -> Result<Option<u32>, Halt>
    ensures { Gives (λ x. x) result (row arrays.now array index) }
{
    match arrays.reference(array, index) {
        Some(reference) => Ok(reference),
        None => Err(Halt::Stopped(Stop::Throws(Throw::ArrayIndex))),
    }
}

/// The value of a reference.
pub fn reference_value<I: Copy, L: Copy>(reference: Option<u32>) -> Value<I, L>
    ensures { result ≡ reference_value reference }
{
    match reference {
        Some(array) => Value::Array(array),
        None => Value::Null,
    }
}

/// The number of the next array.
pub fn next_array<E: Copy>(arrays: &Arrays<E>) -> Result<u32, AllocError>
    ensures { IfOk result (λ n. n ≡ length arrays.now) }
{
    let count = arrays.len();
    if count > u32::MAX as usize {
        return Err(AllocError);
    }
    Ok(count as u32)
}
