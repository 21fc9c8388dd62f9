//! multianewarray: arrays of arrays, made from the outermost in.

ghost use Rattle.std.specs.Prelude.{◌≡◌, ◌+◌, ◌*◌, ◌≤◌, ◌<◌, ◌^◌, ◌++◌, [], ℕ, nat_le, false, true, length, replicate, OnOk, IfOk, IfSome, IsTrue, MatchOption};
ghost use Rattle.std.specs.List.{All};
ghost use Rattle.jvm_state.specs.Arrays.{Arrays as ArrayList, count_in};
ghost use Rattle.jvm_state.specs.Stops.{Gives};
ghost use Rattle.jvm_meaning.specs.ArrayUses.{empty, counted, rows, lowered, made_arrays, total_in, pop_counts, none_negative, with_rows, make_rows, with_dimensions, new_rows};

use crate::array_words::{empty, is_count, within};
use class_file::ClassFile;
use jvm_meaning::{array_class, next_array};
use jvm_state::{
    Array, ArrayType, Arrays, Cells, FieldType, Halt, Heap, Reason, Stack, Stop, Throw, Value,
    check, refuse,
};
use std::alloc::{AllocError, Global};

/// Takes so many counts, that of the outermost arrays first.
fn pop_counts(alloc: Global, dimensions: u8, stack: &mut Stack) -> Result<Vec<u32>, Halt>
    ensures { Gives (λ counts. (counts.items, stack.new)) result (pop_counts dimensions [] stack.old) }
{
    let mut taken = Vec::new(alloc);
    for _ in 0..dimensions {
        let count = stack.pop_int()?;
        taken.push(count)?;
    }
    taken.reverse();
    Ok(taken)
}

fn none_negative(counts: &[u32]) -> bool
    ensures told { result ≡ none_negative counts.now }
    ensures short { IsTrue result → All (λ n. n < 2 ^ 31) counts.now }
{
    let mut rest = counts;
    while let Some((count, after)) = rest.split_first() {
        if !is_count(*count) {
            return false;
        }
        rest = after;
    }
    true
}

/// How many elements arrays of these counts have in all; None from 2^64 on.
fn total_in(counts: &[u32]) -> Option<u64>
    ensures { MatchOption result (2 ^ 64 ≤ total_in 1 counts.now) (λ n. n ≡ total_in 1 counts.now) }
{
    let mut many = 1u64;
    let mut total = 0u64;
    for count in counts {
        many = many.checked_mul(u64::from(*count))?;
        total = total.checked_add(many)?;
    }
    Some(total)
}

/// How many elements arrays of these counts have in all, if so many more stay within a limit.
fn total_within(made: u64, counts: &[u32], limit: u64) -> Option<u64>
    ensures none { result ≡ None → nat_le (made + total_in 1 counts.now) limit ≡ false }
    ensures some { IfSome result (λ n. (n ≡ total_in 1 counts.now) × (nat_le (made + n) limit ≡ true) × (made + n < 2 ^ 64)) }
{
    let total = total_in(counts)?;
    if within(made, total, limit) {
        Some(total)
    } else {
        None
    }
}

/// References to so many arrays, one after another.
fn counted(alloc: Global, first: u64, count: u32) -> Result<Cells<Option<u32>>, AllocError>
    ensures { IfOk result (λ cells. cells ≡ counted first count) }
{
    let mut cells = Cells::new(alloc);
    let mut next = first;
    for _ in 0..count {
        if next > u64::from(u32::MAX) {
            return Err(AllocError);
        }
        cells.push(Some(next as u32))?;
        next += 1;
    }
    Ok(cells)
}

/// So many arrays more, each of references to so many arrays behind all of these.
#[tactic(auto, using(jvm_meaning::proofs::ArrayLemmas::counted_count))]
fn push_rows(
    alloc: Global,
    inner: ArrayType,
    count: u32,
    many: u64,
    arrays: &mut Arrays,
) -> Result<(), AllocError>
    requires { count < 2 ^ 31 }
    ensures { OnOk result (arrays.new ≡ arrays.old ++ rows inner (length arrays.old + many) count many) }
{
    let Some(mut first) = many.checked_add(arrays.len() as u64) else {
        return Err(AllocError);
    };
    for _ in 0..many {
        let references = counted(alloc, first, count)?;
        arrays.push(Array::References(inner, references))?;
        let Some(next) = first.checked_add(u64::from(count)) else {
            return Err(AllocError);
        };
        first = next;
    }
    Ok(())
}

/// So many arrays of zeros or nulls more.
#[tactic(auto, using(jvm_meaning::proofs::ArrayLemmas::empty_count))]
fn push_empty(
    alloc: Global,
    inner: FieldType,
    count: u32,
    many: u64,
    arrays: &mut Arrays,
) -> Result<(), AllocError>
    requires { count < 2 ^ 31 }
    ensures { OnOk result (arrays.new ≡ arrays.old ++ replicate many (empty inner count)) }
{
    for _ in 0..many {
        let array = empty(alloc, inner, count)?;
        arrays.push(array)?;
    }
    Ok(())
}

/// The type with a bracket less.
fn lowered(array_type: ArrayType) -> ArrayType
    ensures { result ≡ lowered array_type }
{
    ArrayType {
        depth: array_type.depth.saturating_sub(1),
        kind: array_type.kind,
    }
}

/// An array of a type by its counts, with all below it, from the outermost in.
fn make_arrays(
    alloc: Global,
    array_type: ArrayType,
    counts: &[u32],
    arrays: &mut Arrays,
) -> Result<(), AllocError>
    requires short { All (λ n. n < 2 ^ 31) counts.now }
    requires total { total_in 1 counts.now < 2 ^ 64 }
    ensures { OnOk result (arrays.new ≡ arrays.old ++ made_arrays (length arrays.old) array_type 1 counts.now) }
{
    let mut current = array_type;
    let mut many = 1u64;
    let mut rest = counts;
    while let Some((count, below)) = rest.split_first() {
        if below.is_empty() {
            return push_empty(alloc, current.inner(), *count, many, arrays);
        }
        current = lowered(current);
        push_rows(alloc, current, *count, many, arrays)?;
        many *= u64::from(*count);
        rest = below;
    }
    Ok(())
}

/// Arrays by their counts, within so many elements in all.
fn make_rows(
    alloc: Global,
    array_type: ArrayType,
    counts: &[u32],
    limit: u64,
    depth: u16,
    heap: &mut Heap,
    stack: &mut Stack,
) -> Result<(), Halt>
    ensures { Gives (λ _. (heap.new, stack.new)) result (make_rows array_type limit depth heap.old (counts.now, stack.old)) }
{
    check(none_negative(counts), Stop::Throws(Throw::NegativeSize))?;
    let Some(total) = total_within(heap.made, counts, limit) else {
        return Err(Halt::Stopped(Stop::MoreElements));
    };
    let array = next_array(&heap.arrays)?;
    stack.push(Value::Array(array), depth)?;
    make_arrays(alloc, array_type, counts, &mut heap.arrays)?;
    heap.made += total;
    Ok(())
}

/// The type, if it has at least so many brackets.
fn with_dimensions(dimensions: u8, found: Option<ArrayType>) -> Option<ArrayType>
    ensures { result ≡ with_dimensions dimensions found }
{
    let found = found?;
    if 1 <= dimensions && dimensions <= found.depth {
        Some(found)
    } else {
        None
    }
}

/// multianewarray: the constant names the type, and so many counts are given.
pub fn new_rows(
    alloc: Global,
    class: &ClassFile,
    number: u16,
    dimensions: u8,
    limit: u64,
    depth: u16,
    heap: &mut Heap,
    stack: &mut Stack,
) -> Result<(), Halt>
    ensures { Gives (λ _. (heap.new, stack.new)) result (new_rows class.now number dimensions limit depth heap.old stack.old) }
{
    let Some(found) = with_dimensions(dimensions, array_class(class, number)) else {
        return refuse(Reason::OutsideProfile { op: 197 });
    };
    let counts = pop_counts(alloc, dimensions, stack)?;
    make_rows(alloc, found, counts.as_slice(), limit, depth, heap, stack)
}
