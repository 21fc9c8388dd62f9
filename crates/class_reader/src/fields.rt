//! Fields (4.5).

ghost use Rattle.std.specs.Prelude.{◌≡◌, ℕ};
ghost use Rattle.class_file.specs.declared.error.ClassError.TheVariants.{Memory};
ghost use Rattle.class_reader.specs.MemberReaders.{value_index_at, value_at, field_content_at, field_attribute_at, field_attributes_at, field_at, fields_at};
ghost use Rattle.reading.specs.Answers.{GivesAs};
ghost use Rattle.reading.specs.Readers.{times, turns};

use crate::attributes::{name, skip};
use crate::numbers::{check, u16_at, u32_at};
use crate::references::is_value;
use class_file::{ClassError, Constant, Field, Name};
use reading::offset;
use std::alloc::Global;

/// The fields of a class, and their count.
#[tactic(auto, unfolding(crate::specs::MemberReaders::fields_at, reading::specs::Readers::bind))]
pub fn fields<'a>(
    alloc: Global,
    pool: &[Option<Constant>],
    end: u32,
    bytes: &'a [u8],
) -> Result<(Vec<Field>, &'a [u8]), ClassError>
    ensures { GivesAs Memory (λ x. (x.0.items, x.1.now)) result (fields_at pool.now end bytes.now) }
{
    let (count, rest) = u16_at(end, bytes)?;
    each_field(alloc, pool, end, count, rest)
}

fn each_field<'a>(
    alloc: Global,
    pool: &[Option<Constant>],
    end: u32,
    count: u16,
    bytes: &'a [u8],
) -> Result<(Vec<Field>, &'a [u8]), ClassError>
    ensures { GivesAs Memory (λ x. (x.0.items, x.1.now)) result (times count (field_at pool.now end) bytes.now) }
{
    let mut fields = Vec::new(alloc);
    let mut rest = bytes;
    for _ in 0..count {
        let (field, after) = field(pool, end, rest)?;
        fields.push(field)?;
        rest = after;
    }
    Ok((fields, rest))
}

#[tactic(auto, unfolding(crate::specs::MemberReaders::field_at, reading::specs::Readers::bind, reading::specs::Readers::done))]
fn field<'a>(
    pool: &[Option<Constant>],
    end: u32,
    bytes: &'a [u8],
) -> Result<(Field, &'a [u8]), ClassError>
    ensures { GivesAs Memory (λ x. (x.0, x.1.now)) result (field_at pool.now end bytes.now) }
{
    let (flags, rest) = u16_at(end, bytes)?;
    let (field_name, rest) = name(pool, end, rest)?;
    let (desc, rest) = name(pool, end, rest)?;
    let (value, rest) = field_attributes(pool, end, rest)?;
    let field = Field {
        flags,
        name: field_name.share()?,
        desc: desc.share()?,
        value,
    };
    Ok((field, rest))
}

/// The attributes of a field, of which the first ConstantValue is read.
#[tactic(auto, unfolding(crate::specs::MemberReaders::field_attributes_at, reading::specs::Readers::bind))]
fn field_attributes<'a>(
    pool: &[Option<Constant>],
    end: u32,
    bytes: &'a [u8],
) -> Result<(Option<u16>, &'a [u8]), ClassError>
    ensures { GivesAs Memory (λ x. (x.0, x.1.now)) result (field_attributes_at pool.now end bytes.now) }
{
    let (count, rest) = u16_at(end, bytes)?;
    each_attribute(pool, end, count, rest)
}

fn each_attribute<'a>(
    pool: &[Option<Constant>],
    end: u32,
    count: u16,
    bytes: &'a [u8],
) -> Result<(Option<u16>, &'a [u8]), ClassError>
    ensures { GivesAs Memory (λ x. (x.0, x.1.now)) result (turns (field_attribute_at pool.now end) count None bytes.now) }
{
    let mut value = None;
    let mut rest = bytes;
    for _ in 0..count {
        let (next, after) = attribute(pool, end, value, rest)?;
        value = next;
        rest = after;
    }
    Ok((value, rest))
}

#[tactic(auto, unfolding(reading::specs::Readers::bind))]
fn attribute<'a>(
    pool: &[Option<Constant>],
    end: u32,
    value: Option<u16>,
    bytes: &'a [u8],
) -> Result<(Option<u16>, &'a [u8]), ClassError>
    ensures { (left : ℕ) → GivesAs Memory (λ x. (x.0, x.1.now)) result (field_attribute_at pool.now end left value bytes.now) }
{
    let (name, rest) = name(pool, end, bytes)?;
    attribute_content(pool, end, name, value, rest)
}

/// What stands behind an attribute's name, with the value that was read so far.
#[tactic(auto, unfolding(crate::specs::MemberReaders::field_content_at, reading::specs::Readers::bind, reading::specs::Readers::done))]
fn attribute_content<'a>(
    pool: &[Option<Constant>],
    end: u32,
    name: &Name,
    value_so_far: Option<u16>,
    bytes: &'a [u8],
) -> Result<(Option<u16>, &'a [u8]), ClassError>
    ensures { GivesAs Memory (λ x. (x.0, x.1.now)) result (field_content_at pool.now end name.now value_so_far bytes.now) }
{
    if name.as_slice() == b"ConstantValue".as_slice() && value_so_far.is_none() {
        let (first, rest) = value(pool, end, bytes)?;
        return Ok((Some(first), rest));
    }
    let rest = skip(end, bytes)?;
    Ok((value_so_far, rest))
}

/// A length, which has to be 2, and the number of a value.
#[tactic(auto, unfolding(crate::specs::MemberReaders::value_at, reading::specs::Readers::located, reading::specs::Readers::bind, reading::specs::Readers::requires_that))]
fn value<'a>(
    pool: &[Option<Constant>],
    end: u32,
    bytes: &'a [u8],
) -> Result<(u16, &'a [u8]), ClassError>
    ensures { GivesAs Memory (λ x. (x.0, x.1.now)) result (value_at pool.now end bytes.now) }
{
    let at = offset(end, bytes);
    let (len, rest) = u32_at(end, bytes)?;
    check(len == 2, ClassError::BadLength { at })?;
    value_index(pool, end, rest)
}

#[tactic(auto, unfolding(crate::specs::MemberReaders::value_index_at, reading::specs::Readers::located, reading::specs::Readers::bind, reading::specs::Readers::requires_that, reading::specs::Readers::done))]
fn value_index<'a>(
    pool: &[Option<Constant>],
    end: u32,
    bytes: &'a [u8],
) -> Result<(u16, &'a [u8]), ClassError>
    ensures { GivesAs Memory (λ x. (x.0, x.1.now)) result (value_index_at pool.now end bytes.now) }
{
    let at = offset(end, bytes);
    let (index, rest) = u16_at(end, bytes)?;
    check(is_value(pool, index), ClassError::BadIndex { at, index })?;
    Ok((index, rest))
}
