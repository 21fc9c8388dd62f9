//! Numbers and bytes from the front of what is left of a file.

ghost use Rattle.std.specs.Prelude.{◌≡◌, length, IfOk};
ghost use Rattle.class_reader.specs.Numbers.{u1, u2, u4, u8};
ghost use Rattle.class_file.specs.declared.error.ClassError.TheVariants.{Memory, Truncated};
ghost use Rattle.reading.specs.Answers.{GivesAs};
ghost use Rattle.reading.specs.Readers.{bytes, check};

use byteorder::{BigEndian, ByteOrder};
use class_file::ClassError;

/// The next so many bytes. Each reader here takes the length of the whole file as `end`, and answers with
/// the bytes that it leaves.
#[tactic(auto, unfolding(reading::specs::Readers::bytes))]
pub fn take(end: u32, count: usize, all: &[u8]) -> Result<(&[u8], &[u8]), ClassError>
    ensures read { GivesAs Memory (λ x. (x.0.now, x.1.now)) result (bytes count (Truncated end) all.now) }
    ensures long { IfOk result (λ x. length x.0.now ≡ count) }
{
    if all.len() < count {
        return Err(ClassError::Truncated { at: end });
    }
    Ok(all.split_at(count))
}

/// The next byte.
#[tactic(auto, unfolding(reading::specs::Readers::byte))]
pub fn u8_at(end: u32, bytes: &[u8]) -> Result<(u8, &[u8]), ClassError>
    ensures { GivesAs Memory (λ x. (x.0, x.1.now)) result (u1 end bytes.now) }
{
    match bytes {
        [] => Err(ClassError::Truncated { at: end }),
        [first, rest @ ..] => Ok((*first, rest)),
    }
}

/// The next number of two bytes.
#[tactic(auto, unfolding(crate::specs::Numbers::number, reading::specs::Readers::bind, reading::specs::Readers::done))]
pub fn u16_at(end: u32, bytes: &[u8]) -> Result<(u16, &[u8]), ClassError>
    ensures { GivesAs Memory (λ x. (x.0, x.1.now)) result (u2 end bytes.now) }
{
    let (digits, rest) = take(end, 2, bytes)?;
    Ok((BigEndian::read_u16(digits), rest))
}

/// The next number of four bytes.
#[tactic(auto, unfolding(crate::specs::Numbers::number, reading::specs::Readers::bind, reading::specs::Readers::done))]
pub fn u32_at(end: u32, bytes: &[u8]) -> Result<(u32, &[u8]), ClassError>
    ensures { GivesAs Memory (λ x. (x.0, x.1.now)) result (u4 end bytes.now) }
{
    let (digits, rest) = take(end, 4, bytes)?;
    Ok((BigEndian::read_u32(digits), rest))
}

/// The next number of eight bytes.
#[tactic(auto, unfolding(crate::specs::Numbers::number, reading::specs::Readers::bind, reading::specs::Readers::done))]
pub fn u64_at(end: u32, bytes: &[u8]) -> Result<(u64, &[u8]), ClassError>
    ensures { GivesAs Memory (λ x. (x.0, x.1.now)) result (u8 end bytes.now) }
{
    let (digits, rest) = take(end, 8, bytes)?;
    Ok((BigEndian::read_u64(digits), rest))
}

/// Answers the fault unless the test holds.
pub fn check(holds: bool, fault: ClassError) -> Result<(), ClassError>
    ensures { GivesAs Memory (λ x. x) result (check holds fault) }
{
    reading::check(holds, fault)
}
