//! The constant pool (4.4).

ghost use Rattle.std.specs.Prelude.{◌≡◌, ◌<◌, ◌≤◌};
ghost use Rattle.class_file.specs.declared.error.ClassError.TheVariants.{Memory};
ghost use Rattle.class_reader.specs.ConstantReaders.{utf8_at, two_at, wide_bits_at, handle_at, content_at, constant_at, slot_at, slots_at, pool_at, takes_two};
ghost use Rattle.reading.specs.Answers.{GivesAs};

use crate::numbers::{check, take, u8_at, u16_at, u32_at, u64_at};
use crate::references::references;
use class_file::{ClassError, Constant, Name};
use reading::offset;
use std::alloc::Global;

/// The pool of a count, which is one more than its slots. All of it is read before its references are
/// checked.
#[tactic(auto, unfolding(crate::specs::ConstantReaders::pool_at, reading::specs::Readers::checked))]
pub fn pool(
    alloc: Global,
    end: u32,
    count: u16,
    bytes: &[u8],
) -> Result<(Vec<Option<Constant>>, &[u8]), ClassError>
    requires count { 0 < count }
    requires small { end ≤ 1048576 }
    ensures { GivesAs Memory (λ x. (x.0.items, x.1.now)) result (pool_at end count bytes.now) }
{
    let (slots, rest) = slots(alloc, end, count - 1, bytes)?;
    references(end, &slots, bytes)?;
    Ok((slots, rest))
}

#[tactic(auto, unfolding(crate::specs::ConstantReaders::slots_at, reading::specs::Readers::bind, reading::specs::Readers::done))]
fn slots(
    alloc: Global,
    end: u32,
    count: u16,
    bytes: &[u8],
) -> Result<(Vec<Option<Constant>>, &[u8]), ClassError>
    ensures { GivesAs Memory (λ x. (x.0.items, x.1.now)) result (slots_at end count bytes.now) }
{
    let mut slots = Vec::new(alloc);
    let mut second = false;
    let mut rest = bytes;
    for number in 0..count {
        let (slot, after) = slot(alloc, end, second, count - (number + 1), rest)?;
        second = takes_two(&slot);
        slots.push(slot)?;
        rest = after;
    }
    Ok((slots, rest))
}

/// The next slot, which may be the second number of the entry before it; `left` slots are behind it.
#[tactic(auto, unfolding(crate::specs::ConstantReaders::slot_at, reading::specs::Readers::bind, reading::specs::Readers::done))]
fn slot(
    alloc: Global,
    end: u32,
    second: bool,
    left: u16,
    bytes: &[u8],
) -> Result<(Option<Constant>, &[u8]), ClassError>
    ensures { GivesAs Memory (λ x. (x.0, x.1.now)) result (slot_at end second left bytes.now) }
{
    if second {
        return Ok((None, bytes));
    }
    let (entry, rest) = constant(alloc, end, left, bytes)?;
    Ok((Some(entry), rest))
}

/// Whether the number behind an entry is its second.
fn takes_two(slot: &Option<Constant>) -> bool
    ensures { result ≡ takes_two slot.now }
{
    matches!(slot, Some(Constant::Long(_) | Constant::Double(_)))
}

#[tactic(auto, unfolding(crate::specs::ConstantReaders::constant_at, reading::specs::Readers::located, reading::specs::Readers::bind))]
fn constant(
    alloc: Global,
    end: u32,
    left: u16,
    bytes: &[u8],
) -> Result<(Constant, &[u8]), ClassError>
    ensures { GivesAs Memory (λ x. (x.0, x.1.now)) result (constant_at end left bytes.now) }
{
    let at = offset(end, bytes);
    let (tag, rest) = u8_at(end, bytes)?;
    content(alloc, end, left, at, tag, rest)
}

/// What stands behind a tag.
#[tactic(auto, unfolding(crate::specs::ConstantReaders::content_at, crate::specs::ConstantReaders::word_at, crate::specs::ConstantReaders::wide_at, crate::specs::ConstantReaders::index_at, crate::specs::ConstantReaders::pair_at, reading::specs::Readers::bind, reading::specs::Readers::done, reading::specs::Readers::fail))]
fn content(
    alloc: Global,
    end: u32,
    left: u16,
    at: u32,
    tag: u8,
    bytes: &[u8],
) -> Result<(Constant, &[u8]), ClassError>
    ensures { GivesAs Memory (λ x. (x.0, x.1.now)) result (content_at end left at tag bytes.now) }
{
    macro_rules! index {
        ($kind:ident) => {{
            let (index, rest) = u16_at(end, bytes)?;
            Ok((Constant::$kind(index), rest))
        }};
    }
    macro_rules! pair {
        ($kind:ident) => {{
            let (first, second, rest) = pair(end, bytes)?;
            Ok((Constant::$kind(first, second), rest))
        }};
    }
    match tag {
        1 => utf8(alloc, end, bytes),
        3 => {
            let (bits, rest) = u32_at(end, bytes)?;
            Ok((Constant::Integer(bits.cast_signed()), rest))
        }
        4 => {
            let (bits, rest) = u32_at(end, bytes)?;
            Ok((Constant::Float(bits), rest))
        }
        5 => {
            let (bits, rest) = wide(end, left, at, bytes)?;
            Ok((Constant::Long(bits.cast_signed()), rest))
        }
        6 => {
            let (bits, rest) = wide(end, left, at, bytes)?;
            Ok((Constant::Double(bits), rest))
        }
        7 => index!(Class),
        8 => index!(Str),
        9 => pair!(Fieldref),
        10 => pair!(Methodref),
        11 => pair!(InterfaceMethodref),
        12 => pair!(NameAndType),
        15 => handle(end, bytes),
        16 => index!(MethodType),
        18 => pair!(InvokeDynamic),
        _ => Err(ClassError::BadTag { at, tag }),
    }
}

#[tactic(auto, unfolding(crate::specs::ConstantReaders::utf8_at, reading::specs::Readers::bind, reading::specs::Readers::done))]
fn utf8(alloc: Global, end: u32, bytes: &[u8]) -> Result<(Constant, &[u8]), ClassError>
    ensures { GivesAs Memory (λ x. (x.0, x.1.now)) result (utf8_at end bytes.now) }
{
    let (len, rest) = u16_at(end, bytes)?;
    let (text, rest) = take(end, len as usize, rest)?;
    let text = Vec::from_slice(alloc, text)?;
    Ok((Constant::Utf8(Name::new(alloc, text)?), rest))
}

/// The eight bytes of an entry that takes two numbers.
#[tactic(auto, unfolding(crate::specs::ConstantReaders::wide_bits_at, reading::specs::Readers::bind, reading::specs::Readers::requires_that))]
fn wide(end: u32, left: u16, at: u32, bytes: &[u8]) -> Result<(u64, &[u8]), ClassError>
    ensures { GivesAs Memory (λ x. (x.0, x.1.now)) result (wide_bits_at end left at bytes.now) }
{
    check(left > 0, ClassError::BadLength { at })?;
    u64_at(end, bytes)
}

/// Two numbers.
#[tactic(auto, unfolding(crate::specs::ConstantReaders::two_at, reading::specs::Readers::bind, reading::specs::Readers::done))]
fn pair(end: u32, bytes: &[u8]) -> Result<(u16, u16, &[u8]), ClassError>
    ensures { GivesAs Memory (λ x. ((x.0, x.1), x.2.now)) result (two_at end bytes.now) }
{
    let (first, rest) = u16_at(end, bytes)?;
    let (second, rest) = u16_at(end, rest)?;
    Ok((first, second, rest))
}

#[tactic(auto, unfolding(crate::specs::ConstantReaders::handle_at, reading::specs::Readers::bind, reading::specs::Readers::done))]
fn handle(end: u32, bytes: &[u8]) -> Result<(Constant, &[u8]), ClassError>
    ensures { GivesAs Memory (λ x. (x.0, x.1.now)) result (handle_at end bytes.now) }
{
    let (kind, rest) = u8_at(end, bytes)?;
    let (index, rest) = u16_at(end, rest)?;
    Ok((Constant::MethodHandle(kind, index), rest))
}
