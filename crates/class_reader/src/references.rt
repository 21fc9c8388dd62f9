//! What the entries of the constant pool refer to.

ghost use Rattle.std.specs.Prelude.{◌≡◌, ◌+◌, ◌≤◌, length, drop};
ghost use Rattle.class_file.specs.Pools.{is_utf8, is_class, is_name_and_type, is_value};
ghost use Rattle.class_reader.specs.References.{references, slot_references, slot_size, entry_size, entry_references, member_references, reference};

use class_file::{ClassError, Constant, constant_of, text_of};
use reading::{check, offset};

fn is_utf8(pool: &[Option<Constant>], number: u16) -> bool
    ensures { result ≡ is_utf8 pool.now number }
{
    text_of(pool, number).is_some()
}

pub fn is_class(pool: &[Option<Constant>], number: u16) -> bool
    ensures { result ≡ is_class pool.now number }
{
    matches!(constant_of(pool, number), Some(Constant::Class(_)))
}

fn is_name_and_type(pool: &[Option<Constant>], number: u16) -> bool
    ensures { result ≡ is_name_and_type pool.now number }
{
    matches!(constant_of(pool, number), Some(Constant::NameAndType(_, _)))
}

/// Whether a number is that of an entry that a ConstantValue may name.
pub fn is_value(pool: &[Option<Constant>], number: u16) -> bool
    ensures { result ≡ is_value pool.now number }
{
    match constant_of(pool, number) {
        Some(Constant::Integer(_)) => true,
        Some(Constant::Float(_)) => true,
        Some(Constant::Long(_)) => true,
        Some(Constant::Double(_)) => true,
        Some(Constant::Str(_)) => true,
        _ => false,
    }
}

/// Whether each reference of the pool is to an entry of its kind. `bytes` begin with the pool, in a file
/// that is `end` bytes long.
pub fn references(end: u32, pool: &[Option<Constant>], bytes: &[u8]) -> Result<(), ClassError>
    requires { end ≤ 1048576 }
    ensures { result ≡ references end pool.now pool.now bytes.now }
{
    let mut rest = bytes;
    for slot in pool {
        slot_references(pool, offset(end, rest), slot)?;
        rest = skip(slot_size(slot), rest);
    }
    Ok(())
}

fn slot_references(
    pool: &[Option<Constant>],
    at: u32,
    slot: &Option<Constant>,
) -> Result<(), ClassError>
    requires { at ≤ 1048576 }
    ensures { result ≡ slot_references pool.now at slot.now }
{
    match slot {
        Some(entry) => entry_references(pool, at, entry),
        None => Ok(()),
    }
}

fn entry_references(pool: &[Option<Constant>], at: u32, entry: &Constant) -> Result<(), ClassError>
    requires { at ≤ 1048576 }
    ensures { result ≡ entry_references pool.now at entry.now }
{
    match entry {
        Constant::Class(name) => reference(is_utf8(pool, *name), at + 1, *name),
        Constant::Str(text) => reference(is_utf8(pool, *text), at + 1, *text),
        Constant::Fieldref(class, member) => member_references(pool, at, *class, *member),
        Constant::Methodref(class, member) => member_references(pool, at, *class, *member),
        Constant::InterfaceMethodref(class, member) => member_references(pool, at, *class, *member),
        Constant::NameAndType(name, desc) => {
            reference(is_utf8(pool, *name), at + 1, *name)?;
            reference(is_utf8(pool, *desc), at + 3, *desc)
        }
        _ => Ok(()),
    }
}

/// The references of an entry that names a member of a class.
fn member_references(
    pool: &[Option<Constant>],
    at: u32,
    class: u16,
    member: u16,
) -> Result<(), ClassError>
    requires { at ≤ 1048576 }
    ensures { result ≡ member_references pool.now at class member }
{
    reference(is_class(pool, class), at + 1, class)?;
    reference(is_name_and_type(pool, member), at + 3, member)
}

fn reference(is: bool, at: u32, index: u16) -> Result<(), ClassError>
    ensures { result ≡ reference is at index }
{
    check(is, ClassError::BadIndex { at, index })
}

/// How many bytes spell a slot: none where it is a second number.
fn slot_size(slot: &Option<Constant>) -> usize
    ensures { result ≡ slot_size slot.now }
{
    match slot {
        Some(entry) => entry_size(entry),
        None => 0,
    }
}

fn entry_size(entry: &Constant) -> usize
    ensures { result ≡ entry_size entry.now }
{
    match entry {
        Constant::Utf8(text) => 3 + text.as_slice().len(),
        Constant::Integer(_) | Constant::Float(_) => 5,
        Constant::Long(_) | Constant::Double(_) => 9,
        Constant::Class(_) | Constant::Str(_) | Constant::MethodType(_) => 3,
        Constant::MethodHandle(_, _) => 4,
        Constant::Fieldref(_, _)
        | Constant::Methodref(_, _)
        | Constant::InterfaceMethodref(_, _)
        | Constant::NameAndType(_, _)
        | Constant::InvokeDynamic(_, _) => 5,
    }
}

/// What is left behind so many bytes.
fn skip(count: usize, bytes: &[u8]) -> &[u8]
    ensures { result.now ≡ drop count bytes.now }
{
    let count = count.min(bytes.len());
    bytes.split_at(count).1
}
