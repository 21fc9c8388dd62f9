//! A whole class file (4.1).

ghost use Rattle.std.specs.Prelude.{◌≡◌, ◌<◌, ◌≤◌, ◌⊎◌, ℕ, List, ◌++◌, length, Some, None, IfOk, IfErr, MatchResult, vec_len};
ghost use Rattle.class_file.specs.declared.error.ClassError.TheVariants.{Memory, Truncated, Trailing};
ghost use Rattle.class_file.specs.Contents.{Contents};
ghost use Rattle.class_reader.specs.ClassReaders.{head_at, class_index_at, super_index_at, interface_turn, interfaces_at, this_class_at, members_at, class_at, class_of, first_class_fault};
ghost use Rattle.class_reader.specs.ClassTexts.{SpellsClass};
ghost use Rattle.reading.specs.Answers.{GivesAs};
ghost use Rattle.reading.specs.Readers.{turns};

use crate::attributes::attributes;
use crate::constants::pool;
use crate::fields::fields;
use crate::methods::methods;
use crate::numbers::{check, u16_at, u32_at};
use crate::references::is_class;
use class_file::{ClassError, ClassFile, Constant, Field, Method};
use reading::offset;
use std::alloc::Global;

/// Reads a class file of at most 1,048,576 bytes (JVM Specification SE 8, chapter 4).
///
/// Ok gives exactly the class that the bytes spell. An error other than Memory is the first fault of the
/// file in the order in which it is read: from left to right, with the references of the constant pool
/// checked when all of the pool is read.
pub fn read_class(alloc: Global, bytes: &[u8]) -> Result<ClassFile, ClassError>
    requires { length bytes.now ≤ 1048576 }

    // The class that the bytes spell or their first fault, as one function of the bytes.
    ensures read { GivesAs Memory (λ c. c) result (class_of bytes.now) }
    ensures spelled { IfOk result (SpellsClass bytes.now) }
    ensures complete { (class : Contents) → SpellsClass bytes.now class
        → MatchResult result (λ c. c ≡ class) (λ e. e ≡ Memory) }
    ensures fault { IfErr result (λ e. (e ≡ Memory) ⊎ (first_class_fault bytes.now ≡ Some e)) }
{
    whole(alloc, bytes)
}

/// What holds of all texts: one spells at most one class, and it has a first fault exactly where it spells
/// none. A class that is cut short is truncated at its length, and one with bytes behind it trailing at its
/// own end.
pub fn class_or_fault()
    ensures at_most_one { (text : List ℕ) (c d : Contents) → SpellsClass text c → SpellsClass text d → c ≡ d }
    ensures class { (text : List ℕ) → first_class_fault text ≡ None → (c : Contents) × SpellsClass text c }
    ensures no_fault { (text : List ℕ) (c : Contents) → SpellsClass text c → first_class_fault text ≡ None }
    ensures cut { (front back : List ℕ) (c : Contents) → SpellsClass (front ++ back) c → 0 < length back
        → first_class_fault front ≡ Some (Truncated (length front)) }
    ensures padded { (text more : List ℕ) (c : Contents) → SpellsClass text c → 0 < length more
        → first_class_fault (text ++ more) ≡ Some (Trailing (length text)) }
{}

#[tactic(auto, unfolding(crate::specs::ClassReaders::class_of, reading::specs::Readers::whole))]
fn whole(alloc: Global, bytes: &[u8]) -> Result<ClassFile, ClassError>
    requires { length bytes.now ≤ 1048576 }
    ensures { GivesAs Memory (λ c. c) result (class_of bytes.now) }
{
    let end = bytes.len() as u32;
    let (class, rest) = class(alloc, end, bytes)?;
    if rest.is_empty() {
        Ok(class)
    } else {
        Err(ClassError::Trailing {
            at: offset(end, rest),
        })
    }
}

#[tactic(auto, unfolding(crate::specs::ClassReaders::class_at, reading::specs::Readers::bind, reading::specs::Readers::done))]
fn class(alloc: Global, end: u32, bytes: &[u8]) -> Result<(ClassFile, &[u8]), ClassError>
    requires { end ≤ 1048576 }
    ensures { GivesAs Memory (λ x. (x.0, x.1.now)) result (class_at end bytes.now) }
{
    let (count, rest) = head(end, bytes)?;
    let (pool, rest) = pool(alloc, end, count, rest)?;
    let (parts, rest) = members(alloc, &pool, end, rest)?;
    let class = ClassFile::new(pool, parts.this_class, parts.fields, parts.methods);
    Ok((class, rest))
}

/// What stands before the pool, and the pool's count.
#[tactic(auto, unfolding(crate::specs::ClassReaders::head_at, reading::specs::Readers::bind, reading::specs::Readers::requires_that, reading::specs::Readers::done))]
fn head(end: u32, bytes: &[u8]) -> Result<(u16, &[u8]), ClassError>
    ensures read { GivesAs Memory (λ x. (x.0, x.1.now)) result (head_at end bytes.now) }
    ensures some { IfOk result (λ x. 0 < x.0) }
{
    let (magic, rest) = u32_at(end, bytes)?;
    check(magic == 0xcafebabe, ClassError::BadMagic)?;
    let (_minor, rest) = u16_at(end, rest)?;
    let (major, rest) = u16_at(end, rest)?;
    check(45 <= major && major <= 52, ClassError::BadVersion { major })?;
    let (count, rest) = u16_at(end, rest)?;
    check(0 < count, ClassError::BadLength { at: 8 })?;
    Ok((count, rest))
}

/// What stands behind the pool.
#[derive(Drop)]
struct Parts {
    this_class: u16,
    fields: Vec<Field>,
    methods: Vec<Method>,
}

#[tactic(auto, unfolding(crate::specs::ClassReaders::members_at, reading::specs::Readers::bind, reading::specs::Readers::done))]
fn members<'a>(
    alloc: Global,
    pool: &[Option<Constant>],
    end: u32,
    bytes: &'a [u8],
) -> Result<(Parts, &'a [u8]), ClassError>
    ensures read { GivesAs Memory (λ x. ((x.0.this_class, x.0.fields.items, x.0.methods.items), x.1.now)) result (members_at pool.now end bytes.now) }
    ensures few { IfOk result (λ x. vec_len x.0.methods < 65536) }
{
    let (this_class, rest) = this_class(pool, end, bytes)?;
    let (fields, rest) = fields(alloc, pool, end, rest)?;
    let (methods, rest) = methods(alloc, pool, end, rest)?;
    let rest = attributes(pool, end, rest)?;
    let parts = Parts {
        this_class,
        fields,
        methods,
    };
    Ok((parts, rest))
}

/// The class's own number, read with its flags, the class above it and its interfaces.
#[tactic(auto, unfolding(crate::specs::ClassReaders::this_class_at, reading::specs::Readers::bind, reading::specs::Readers::done))]
fn this_class<'a>(
    pool: &[Option<Constant>],
    end: u32,
    bytes: &'a [u8],
) -> Result<(u16, &'a [u8]), ClassError>
    ensures { GivesAs Memory (λ x. (x.0, x.1.now)) result (this_class_at pool.now end bytes.now) }
{
    let (_flags, rest) = u16_at(end, bytes)?;
    let (this_class, rest) = class_index(pool, end, rest)?;
    let (_super_class, rest) = super_index(pool, end, rest)?;
    let rest = interfaces(pool, end, rest)?;
    Ok((this_class, rest))
}

/// The number of a Class.
#[tactic(auto, unfolding(crate::specs::ClassReaders::class_index_at, reading::specs::Readers::located, reading::specs::Readers::bind, reading::specs::Readers::requires_that, reading::specs::Readers::done))]
fn class_index<'a>(
    pool: &[Option<Constant>],
    end: u32,
    bytes: &'a [u8],
) -> Result<(u16, &'a [u8]), ClassError>
    ensures { GivesAs Memory (λ x. (x.0, x.1.now)) result (class_index_at pool.now end bytes.now) }
{
    let at = offset(end, bytes);
    let (index, rest) = u16_at(end, bytes)?;
    check(is_class(pool, index), ClassError::BadIndex { at, index })?;
    Ok((index, rest))
}

/// The number of a Class, or 0.
#[tactic(auto, unfolding(crate::specs::ClassReaders::super_index_at, reading::specs::Readers::located, reading::specs::Readers::bind, reading::specs::Readers::requires_that, reading::specs::Readers::done))]
fn super_index<'a>(
    pool: &[Option<Constant>],
    end: u32,
    bytes: &'a [u8],
) -> Result<(u16, &'a [u8]), ClassError>
    ensures { GivesAs Memory (λ x. (x.0, x.1.now)) result (super_index_at pool.now end bytes.now) }
{
    let at = offset(end, bytes);
    let (index, rest) = u16_at(end, bytes)?;
    check(
        index == 0 || is_class(pool, index),
        ClassError::BadIndex { at, index },
    )?;
    Ok((index, rest))
}

/// What is left behind the interfaces, and their count.
#[tactic(auto, unfolding(crate::specs::ClassReaders::interfaces_at, reading::specs::Readers::bind))]
fn interfaces<'a>(
    pool: &[Option<Constant>],
    end: u32,
    bytes: &'a [u8],
) -> Result<&'a [u8], ClassError>
    ensures { GivesAs Memory (λ x. (tt, x.now)) result (interfaces_at pool.now end bytes.now) }
{
    let (count, rest) = u16_at(end, bytes)?;
    each_interface(pool, end, count, rest)
}

fn each_interface<'a>(
    pool: &[Option<Constant>],
    end: u32,
    count: u16,
    bytes: &'a [u8],
) -> Result<&'a [u8], ClassError>
    ensures { GivesAs Memory (λ x. (tt, x.now)) result (turns (interface_turn pool.now end) count tt bytes.now) }
{
    let mut rest = bytes;
    for _ in 0..count {
        let (_index, after) = class_index(pool, end, rest)?;
        rest = after;
    }
    Ok(rest)
}
