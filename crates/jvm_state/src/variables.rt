ghost use Rattle.std.specs.Prelude.{◌≡◌, ◌+◌, ◌≤◌, ◌<◌, ℕ, nat_lt, length, slice_get, Option};
ghost use Rattle.jvm_state.specs.declared.value.Value.{Value as Local};
ghost use Rattle.jvm_state.specs.Frames.{last_local, inside, held, load, emptied, cut, with_half, put, store, int_held};
ghost use Rattle.jvm_state.specs.Stops.{Gives};

use crate::cells::Cells;
use crate::sorts::Sort;
use crate::stack::Stack;
use crate::stop::{Halt, Stop, check, refuse};
use crate::value::{Reason, Value};

/// The local variables of a frame (JVM Specification SE 8, section 2.6.1), of which some hold nothing.
pub type Locals<I = u32, L = u64> = Cells<Option<Value<I, L>>>;

/// The last of the local variables that a value takes.
fn last_local(sort: Sort, local: u16) -> usize
    ensures { result ≡ last_local sort local }
{
    match sort {
        Sort::Long => usize::from(local) + 1,
        Sort::Int | Sort::Reference => usize::from(local),
    }
}

/// A value's local variables have to be there.
pub fn inside<I: Copy, L: Copy>(sort: Sort, local: u16, locals: &Locals<I, L>) -> Result<(), Halt>
    ensures { Gives (λ x. x) result (inside sort local locals.now) }
{
    check(
        last_local(sort, local) < locals.len(),
        Stop::Refused(Reason::BadCode),
    )
}

/// What a local variable holds, which has to be of a sort.
fn held<I: Copy, L: Copy>(
    sort: Sort,
    found: Option<Option<Value<I, L>>>,
) -> Result<Value<I, L>, Halt>
    ensures { Gives (λ x. x) result (held sort found) }
{
    match found {
        Some(Some(value)) => {
            if sort.has(value) {
                Ok(value)
            } else {
                refuse(Reason::WrongOperand)
            }
        }
        _ => refuse(Reason::WrongOperand),
    }
}

/// iload, lload, aload: pushes a local variable.
pub fn load<I: Copy, L: Copy>(
    sort: Sort,
    local: u16,
    depth: u16,
    locals: &Locals<I, L>,
    stack: &mut Stack<I, L>,
) -> Result<(), Halt>
    ensures { Gives (λ _. stack.new) result (load sort local depth locals.now stack.old) }
{
    inside(sort, local, locals)?;
    let value = held(sort, locals.get(usize::from(local)))?;
    stack.push(value, depth)
}

/// Empties a local variable that holds a long.
fn empty_long<I: Copy, L: Copy>(local: usize, locals: &mut Locals<I, L>)
    ensures { locals.new ≡ emptied local (slice_get locals.old local) locals.old }
{
    if let Some(Some(Value::Long(_))) = locals.get(local) {
        locals.set(local, None);
    }
}

/// Empties a long whose second half is this local variable.
fn cut<I: Copy, L: Copy>(local: u16, locals: &mut Locals<I, L>)
    ensures { locals.new ≡ cut local locals.old }
{
    if local > 0 {
        empty_long(usize::from(local) - 1, locals);
    }
}

/// Empties the second half of a long.
fn with_half<I: Copy, L: Copy>(value: Value<I, L>, local: u16, locals: &mut Locals<I, L>)
    ensures { locals.new ≡ with_half value local locals.old }
{
    if let Value::Long(_) = value {
        locals.set(usize::from(local) + 1, None);
    }
}

fn put<I: Copy, L: Copy>(value: Value<I, L>, local: u16, locals: &mut Locals<I, L>)
    ensures { locals.new ≡ put value local locals.old }
{
    cut(local, locals);
    locals.set(usize::from(local), Some(value));
    with_half(value, local, locals);
}

/// istore, lstore, astore: takes a local variable's value from the stack; half a long that is overwritten empties the
/// other half.
pub fn store<I: Copy, L: Copy>(
    sort: Sort,
    local: u16,
    locals: &mut Locals<I, L>,
    stack: &mut Stack<I, L>,
) -> Result<(), Halt>
    ensures { Gives (λ _. (locals.new, stack.new)) result (store sort local locals.old stack.old) }
{
    let value = stack.pop_sort(sort)?;
    inside(sort, local, locals)?;
    put(value, local, locals);
    Ok(())
}

/// What a local variable holds, which has to be an int.
pub fn int_held<I: Copy, L: Copy>(held: Option<Option<Value<I, L>>>) -> Result<I, Halt>
    ensures { Gives (λ x. x) result (int_held held) }
{
    match held {
        Some(Some(Value::Int(number))) => Ok(number),
        _ => refuse(Reason::WrongOperand),
    }
}
