ghost use Rattle.std.specs.Prelude.{◌≡◌, ℕ};
ghost use Rattle.jvm_meaning.specs.Calls.{is_returned_by, result_of, returned, pushed};
ghost use Rattle.jvm_state.specs.Stops.{Gives};

use crate::fields::pop_typed;
use axe_io::Kind;
use jvm_state::{Arrays, FieldType, Halt, Reason, Sort, Stack, Value, refuse};

/// Whether a return gives a result of this type.
fn is_returned_by(sort: Option<Sort>, found: Option<FieldType>) -> bool
    ensures { result ≡ is_returned_by sort found }
{
    match (sort, found) {
        (None, None) => true,
        (Some(Sort::Long), Some(FieldType::Scalar(Kind::Long))) => true,
        (Some(Sort::Int), Some(FieldType::Scalar(kind))) => !matches!(kind, Kind::Long),
        (Some(Sort::Reference), Some(FieldType::Array(_))) => true,
        _ => false,
    }
}

/// Takes a result of a type, as it stands on the stack.
fn result_of<I: Copy, L: Copy, E: Copy>(
    field_type: Option<FieldType>,
    arrays: &Arrays<E>,
    stack: &mut Stack<I, L>,
) -> Result<Option<Value<I, L>>, Halt>
    ensures { Gives (λ x. x) result (result_of field_type arrays.now stack.old) }
{
    match field_type {
        Some(field_type) => Ok(Some(pop_typed(field_type, arrays, stack)?)),
        None => Ok(None),
    }
}

/// ireturn, lreturn, areturn, return: takes the result, where the instruction is that of the method's result. It isn't
/// narrowed yet.
pub fn returned<I: Copy, L: Copy, E: Copy>(
    sort: Option<Sort>,
    found: Option<Option<FieldType>>,
    arrays: &Arrays<E>,
    stack: &mut Stack<I, L>,
) -> Result<Option<Value<I, L>>, Halt>
    ensures { Gives (λ x. x) result (returned sort found arrays.now stack.old) }
{
    match found {
        Some(field_type) if is_returned_by(sort, field_type) => {
            result_of(field_type, arrays, stack)
        }
        _ => refuse(Reason::WrongOperand),
    }
}

/// Puts a result on the caller's stack.
pub fn pushed<I: Copy, L: Copy>(
    depth: u16,
    value: Option<Value<I, L>>,
    stack: &mut Stack<I, L>,
) -> Result<(), Halt>
    ensures { Gives (λ _. stack.new) result (pushed depth value stack.old) }
{
    match value {
        Some(found) => stack.push(found, depth),
        None => Ok(()),
    }
}
