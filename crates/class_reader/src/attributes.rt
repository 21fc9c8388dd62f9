//! Attributes that aren't read, and names (4.7).

ghost use Rattle.std.specs.Prelude.{◌≡◌, ◌-◌};
ghost use Rattle.class_file.specs.declared.error.ClassError.TheVariants.{Memory};
ghost use Rattle.class_reader.specs.MemberReaders.{name_at, skip_at, attribute_at, attribute_turn, attributes_at};
ghost use Rattle.reading.specs.Answers.{GivesAs};
ghost use Rattle.reading.specs.Readers.{turns};

use crate::numbers::{take, u16_at, u32_at};
use class_file::{ClassError, Constant, Name, text_of};
use reading::offset;

/// The number of a name or a descriptor.
#[tactic(auto, unfolding(crate::specs::MemberReaders::name_at, reading::specs::Readers::located, reading::specs::Readers::bind, reading::specs::Readers::found))]
pub fn name<'p, 'a>(
    pool: &'p [Option<Constant>],
    end: u32,
    bytes: &'a [u8],
) -> Result<(&'p Name, &'a [u8]), ClassError>
    ensures { GivesAs Memory (λ x. (x.0.now, x.1.now)) result (name_at pool.now end bytes.now) }
{
    let at = offset(end, bytes);
    let (index, rest) = u16_at(end, bytes)?;
    match text_of(pool, index) {
        Some(text) => Ok((text, rest)),
        None => Err(ClassError::BadIndex { at, index }),
    }
}

/// What is left behind the length and bytes of an attribute.
#[tactic(auto, unfolding(crate::specs::MemberReaders::skip_at, reading::specs::Readers::bind, reading::specs::Readers::done))]
pub fn skip(end: u32, bytes: &[u8]) -> Result<&[u8], ClassError>
    ensures { GivesAs Memory (λ x. (tt, x.now)) result (skip_at end bytes.now) }
{
    let (len, rest) = u32_at(end, bytes)?;
    let (_content, rest) = take(end, len as usize, rest)?;
    Ok(rest)
}

/// What is left behind an attribute that isn't read.
#[tactic(auto, unfolding(crate::specs::MemberReaders::attribute_at, reading::specs::Readers::bind))]
fn attribute<'a>(
    pool: &[Option<Constant>],
    end: u32,
    bytes: &'a [u8],
) -> Result<&'a [u8], ClassError>
    ensures { GivesAs Memory (λ x. (tt, x.now)) result (attribute_at pool.now end bytes.now) }
{
    let (_name, rest) = name(pool, end, bytes)?;
    skip(end, rest)
}

/// What is left behind attributes that aren't read, and their count.
#[tactic(auto, unfolding(crate::specs::MemberReaders::attributes_at, reading::specs::Readers::bind))]
pub fn attributes<'a>(
    pool: &[Option<Constant>],
    end: u32,
    bytes: &'a [u8],
) -> Result<&'a [u8], ClassError>
    ensures { GivesAs Memory (λ x. (tt, x.now)) result (attributes_at pool.now end bytes.now) }
{
    let (count, rest) = u16_at(end, bytes)?;
    each_attribute(pool, end, count, rest)
}

fn each_attribute<'a>(
    pool: &[Option<Constant>],
    end: u32,
    count: u16,
    bytes: &'a [u8],
) -> Result<&'a [u8], ClassError>
    ensures { GivesAs Memory (λ x. (tt, x.now)) result (turns (attribute_turn pool.now end) count tt bytes.now) }
{
    let mut rest = bytes;
    for _ in 0..count {
        rest = attribute(pool, end, rest)?;
    }
    Ok(rest)
}
