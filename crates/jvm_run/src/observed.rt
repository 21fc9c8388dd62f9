ghost use Rattle.std.specs.Prelude.{◌≡◌, ◌<◌, ℕ, length, count_by, take, slice_get, IfOk};
ghost use Rattle.bv_words.specs.Words.{chop as chop_of};
ghost use Rattle.axe_io.specs.Shapes.{width_of};
ghost use Rattle.jvm_meaning.specs.Machine.{is_array, array_of_param, array_seen, word_seen, value_seen, observed_at, observed};

use axe_io::{Kind, OutPlace, Param, Shape};
use bv_words::chop;
use jvm_state::{Arrays, Seen, Value};
use sqlite_items::Items;
use std::alloc::{AllocError, Global};

fn is_array(param: &Param) -> bool
    ensures { result ≡ is_array param.now }
{
    param.len.is_some()
}

/// The number of a parameter's array: arrays of parameters come first, in the order of the parameters.
fn array_of_param(params: &[Param], number: u16) -> usize
    ensures { result ≡ array_of_param params.now number }
{
    params
        .iter()
        .take(usize::from(number))
        .filter(|param| is_array(param))
        .count()
}

/// The elements of an array, as they are observed.
fn array_seen(alloc: Global, kind: Kind, arrays: &Arrays, array: usize) -> Result<Seen, AllocError>
    ensures { IfOk result (λ seen. seen ≡ array_seen kind arrays.now array) }
{
    let elements = Items::from_slice(alloc, arrays.elements(array))?;
    Ok(Seen::Items(kind.width(), elements))
}

/// A number as it is observed.
fn word_seen(kind: Kind, number: u64) -> Seen
    ensures { result ≡ word_seen kind number }
{
    let width = kind.width();
    Seen::Word(width, chop(width, number))
}

/// A returned value as it is observed.
fn value_seen(
    alloc: Global,
    kind: Kind,
    arrays: &Arrays,
    value: Option<Value>,
) -> Result<Seen, AllocError>
    ensures { IfOk result (λ seen. seen ≡ value_seen kind arrays.now value) }
{
    match value {
        Some(Value::Int(number)) => Ok(word_seen(kind, u64::from(number))),
        Some(Value::Long(number)) => Ok(word_seen(kind, number)),
        Some(Value::Array(array)) => array_seen(alloc, kind, arrays, array as usize),
        Some(Value::Null) | None => Ok(Seen::Null),
    }
}

/// What is observed when the method returns.
pub fn observed(
    alloc: Global,
    shape: &Shape,
    arrays: &Arrays,
    value: Option<Value>,
) -> Result<Seen, AllocError>
    ensures { IfOk result (λ seen. seen ≡ observed shape.now arrays.now value) }
{
    match (shape.out(), value) {
        (_, Some(Value::Null)) => Ok(Seen::Null),
        (OutPlace::Returned, _) => value_seen(alloc, shape.kind(), arrays, value),
        (OutPlace::Param(number), _) => {
            let array = array_of_param(shape.params(), number);
            array_seen(alloc, shape.kind(), arrays, array)
        }
    }
}
