ghost use Rattle.std.specs.Prelude.{◌≡◌, ◌<◌, length, position, IfSome};
ghost use Rattle.class_file.specs.Members.{is_named, is_static};
ghost use Rattle.jvm_meaning.specs.Fields.{fits, pop_typed, static_in, first_static, own_field, static_field, get_static, pop_static};
ghost use Rattle.jvm_meaning.specs.Constants.{member_seen};
ghost use Rattle.jvm_state.specs.Stops.{Gives};

use crate::constants::{Member, field_named, is_own};
use crate::types::{DEEPEST, field_type};
use axe_io::Kind;
use class_file::{ClassFile, Field};
use jvm_state::{Arrays, Cells, FieldType, Halt, Reason, Stack, Value, refuse};

/// ACC_STATIC, the flag of a static field (JVM Specification SE 8, section 4.5).
const STATIC: u16 = 0x0008;

/// Whether a value is of a type.
pub fn fits<I: Copy, L: Copy, E: Copy>(
    field_type: FieldType,
    arrays: &Arrays<E>,
    value: Value<I, L>,
) -> bool
    ensures { result ≡ fits field_type arrays.now value }
{
    match field_type {
        FieldType::Scalar(Kind::Long) => matches!(value, Value::Long(_)),
        FieldType::Scalar(_) => matches!(value, Value::Int(_)),
        FieldType::Array(wanted) => match value {
            Value::Null => true,
            Value::Array(array) => arrays.has_type(array, wanted),
            _ => false,
        },
    }
}

/// Takes the value at the top, which has to be of a type.
pub fn pop_typed<I: Copy, L: Copy, E: Copy>(
    field_type: FieldType,
    arrays: &Arrays<E>,
    stack: &mut Stack<I, L>,
) -> Result<Value<I, L>, Halt>
    ensures { Gives (λ value. (value, stack.new)) result (pop_typed field_type arrays.now stack.old) }
{
    let value = stack.pop()?;
    if fits(field_type, arrays, value) {
        Ok(value)
    } else {
        refuse(Reason::WrongOperand)
    }
}

/// A static field: its place among the class's fields, and its type.
#[derive(Clone, Copy)]
pub struct Place {
    pub at: usize,
    pub field_type: FieldType,
}

/// Whether a field is static.
pub fn is_static(field: &Field) -> bool
    ensures { result ≡ is_static field.now.flags }
{
    field.flags & STATIC != 0
}

/// A field as a static one, if it is static and its type is of the profile.
fn static_at(field: &Field, at: usize) -> Option<Place>
    ensures { result ≡ static_in field.now at }
{
    if !is_static(field) {
        return None;
    }
    let field_type = field_type(DEEPEST, field.desc.as_slice())?;
    Some(Place { at, field_type })
}

/// Whether a field has this name and descriptor.
fn is_named(field: &Field, name: &[u8], desc: &[u8]) -> bool
    ensures { result ≡ is_named name.now desc.now field.now }
{
    field.name.as_slice() == name && field.desc.as_slice() == desc
}

/// The place of the first field of a name and a descriptor.
fn place_of(fields: &[Field], name: &[u8], desc: &[u8]) -> Option<usize>
    ensures place { result ≡ position (is_named name.now desc.now) fields.now }
    ensures within { IfSome result (λ at. at < length fields.now) }
{
    fields.iter().position(|f| is_named(f, name, desc))
}

/// The first field of a name and a descriptor, if it is static.
fn first_static(fields: &[Field], name: &[u8], desc: &[u8]) -> Option<Place>
    ensures { result ≡ first_static fields.now name.now desc.now }
{
    let at = place_of(fields, name, desc)?;
    static_at(&fields[at], at)
}

/// The static field of this class that the constant pool names; none exactly where it names no such field.
pub fn static_field(class: &ClassFile, number: u16) -> Option<Place>
    ensures { result ≡ static_field class.now number }
{
    let member = field_named(class, number)?;
    own_field(class, &member)
}

fn own_field(class: &ClassFile, member: &Member<'_>) -> Option<Place>
    ensures { result ≡ own_field class.now (member_seen member.now) }
{
    if is_own(class, member.owner) {
        first_static(class.fields(), member.name, member.desc)
    } else {
        None
    }
}

/// getstatic: pushes the value of a static field.
pub fn get_static<I: Copy, L: Copy>(
    class: &ClassFile,
    number: u16,
    depth: u16,
    statics: &Cells<Value<I, L>>,
    stack: &mut Stack<I, L>,
) -> Result<(), Halt>
    ensures { Gives (λ _. stack.new) result (get_static class.now number depth statics.now stack.old) }
{
    let Some(field) = static_field(class, number) else {
        return refuse(Reason::UnknownField);
    };
    match statics.get(field.at) {
        Some(value) => stack.push(value, depth),
        None => refuse(Reason::UnknownField),
    }
}

/// Takes the value at the top for a static field, which has to be of the field's type.
pub fn pop_static<I: Copy, L: Copy, E: Copy>(
    class: &ClassFile,
    number: u16,
    arrays: &Arrays<E>,
    stack: &mut Stack<I, L>,
) -> Result<(Place, Value<I, L>), Halt>
    ensures { Gives (λ taken. (taken, stack.new)) result (pop_static class.now number arrays.now stack.old) }
{
    let Some(field) = static_field(class, number) else {
        return refuse(Reason::UnknownField);
    };
    let value = pop_typed(field.field_type, arrays, stack)?;
    Ok((field, value))
}
