ghost use Rattle.std.specs.Prelude.{◌≡◌, OnOk};
ghost use Rattle.std.specs.Option.{option_copied};
ghost use Rattle.jvm_meaning.specs.Calls.{narrowed_by};
ghost use Rattle.jvm_meaning.specs.Fields.{stored, default_value, constant_value, start_value, start_values, put_static};
ghost use Rattle.jvm_state.specs.Stops.{Gives};

use crate::arithmetic::narrowed;
use axe_io::Kind;
use class_file::{ClassFile, Constant, Field};
use jvm_meaning::{DEEPEST, field_type, is_static, pop_static};
use jvm_state::{Cells, FieldType, Halt, Heap, Stack, Value};
use std::alloc::AllocError;

/// A value of a type as it is stored or returned: bytes, chars and shorts are narrowed, and extended again.
pub fn stored(field_type: FieldType, value: Value) -> Value
    ensures { result ≡ stored field_type value }
{
    match (field_type, value) {
        (FieldType::Scalar(kind), Value::Int(number)) => Value::Int(narrowed(kind, number)),
        _ => value,
    }
}

/// putstatic: takes the value of a static field; bytes, chars and shorts are narrowed.
pub fn put_static(
    class: &ClassFile,
    number: u16,
    heap: &mut Heap,
    stack: &mut Stack,
) -> Result<(), Halt>
    ensures { Gives (λ _. (heap.new, stack.new)) result (put_static class.now number heap.old stack.old) }
{
    let (field, value) = pop_static(class, number, &heap.arrays, stack)?;
    heap.statics.set(field.at, stored(field.field_type, value));
    Ok(())
}

/// 0 or null.
fn default_value(field_type: FieldType) -> Value
    ensures { result ≡ default_value field_type }
{
    match field_type {
        FieldType::Scalar(Kind::Long) => Value::Long(0),
        FieldType::Scalar(_) => Value::Int(0),
        FieldType::Array(_) => Value::Null,
    }
}

/// What a ConstantValue gives a field of a type.
fn constant_value(field_type: FieldType, constant: Option<&Constant>) -> Value
    ensures { result ≡ constant_value field_type (option_copied constant.entry) }
{
    match (field_type, constant) {
        (FieldType::Scalar(Kind::Long), Some(Constant::Long(number))) => {
            Value::Long(number.cast_unsigned())
        }
        (FieldType::Scalar(Kind::Long), _) => Value::Long(0),
        (FieldType::Scalar(kind), Some(Constant::Integer(number))) => {
            Value::Int(narrowed(kind, number.cast_unsigned()))
        }
        _ => default_value(field_type),
    }
}

/// The value that a field starts with; a field that isn't static is never read.
fn start_value(class: &ClassFile, field: &Field) -> Value
    ensures { result ≡ start_value class.now.pool field.now }
{
    if !is_static(field) {
        return Value::Null;
    }
    match (field_type(DEEPEST, field.desc.as_slice()), field.value) {
        (None, _) => Value::Null,
        (Some(field_type), None) => default_value(field_type),
        (Some(field_type), Some(number)) => constant_value(field_type, class.constant(number)),
    }
}

/// Makes the static fields those that a run begins with.
pub fn start_values(class: &ClassFile, statics: &mut Cells<Value>) -> Result<(), AllocError>
    ensures { OnOk result (statics.new ≡ start_values class.now) }
{
    statics.clear();
    for field in class.fields() {
        statics.push(start_value(class, field))?;
    }
    Ok(())
}

/// A result as the method gives it: narrowed to the result's type.
pub fn narrowed_by(found: Option<Option<FieldType>>, value: Option<Value>) -> Option<Value>
    ensures { result ≡ narrowed_by found value }
{
    match (found, value) {
        (Some(Some(field_type)), Some(value)) => Some(stored(field_type, value)),
        _ => value,
    }
}
