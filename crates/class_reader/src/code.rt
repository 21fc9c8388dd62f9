//! The Code of a method (4.7.3).

ghost use Rattle.std.specs.Prelude.{◌≡◌};
ghost use Rattle.class_file.specs.declared.error.ClassError.TheVariants.{Memory};
ghost use Rattle.class_reader.specs.MemberReaders.{row_at, rows_at, instructions_at, code_content_at, code_at};
ghost use Rattle.reading.specs.Answers.{GivesAs};
ghost use Rattle.reading.specs.Readers.{times};

use crate::attributes::attributes;
use crate::numbers::{check, take, u16_at, u32_at};
use class_file::{ClassError, Code, Constant, ExceptionRow};
use reading::offset;
use sqlite_items::Items;
use std::alloc::Global;

/// A length, and the Code that has just this length.
#[tactic(auto, unfolding(crate::specs::MemberReaders::code_at, reading::specs::Readers::located, reading::specs::Readers::bind, reading::specs::Readers::exactly))]
pub fn code<'a>(
    alloc: Global,
    pool: &[Option<Constant>],
    end: u32,
    bytes: &'a [u8],
) -> Result<(Code, &'a [u8]), ClassError>
    ensures { GivesAs Memory (λ x. (x.0, x.1.now)) result (code_at pool.now end bytes.now) }
{
    let at = offset(end, bytes);
    let (len, content) = u32_at(end, bytes)?;
    let (code, rest) = code_content(alloc, pool, end, at, content)?;
    if content.len().saturating_sub(rest.len()) == len as usize {
        Ok((code, rest))
    } else {
        Err(ClassError::BadLength { at })
    }
}

/// What a Code holds; `at` is where its length stands.
#[tactic(auto, unfolding(crate::specs::MemberReaders::code_content_at, reading::specs::Readers::bind, reading::specs::Readers::done))]
fn code_content<'a>(
    alloc: Global,
    pool: &[Option<Constant>],
    end: u32,
    at: u32,
    bytes: &'a [u8],
) -> Result<(Code, &'a [u8]), ClassError>
    ensures { GivesAs Memory (λ x. (x.0, x.1.now)) result (code_content_at pool.now end at bytes.now) }
{
    let (max_stack, rest) = u16_at(end, bytes)?;
    let (max_locals, rest) = u16_at(end, rest)?;
    let (instructions, rest) = instructions(end, at, rest)?;
    let (rows, rest) = rows(alloc, end, rest)?;
    let rest = attributes(pool, end, rest)?;
    let code = Code {
        max_stack,
        max_locals,
        bytes: Items::from_slice(alloc, instructions)?,
        rows: Items::from_vec(rows),
    };
    Ok((code, rest))
}

#[tactic(auto, unfolding(crate::specs::MemberReaders::instructions_at, reading::specs::Readers::bind, reading::specs::Readers::requires_that))]
fn instructions(end: u32, at: u32, bytes: &[u8]) -> Result<(&[u8], &[u8]), ClassError>
    ensures { GivesAs Memory (λ x. (x.0.now, x.1.now)) result (instructions_at end at bytes.now) }
{
    let (len, rest) = u32_at(end, bytes)?;
    check(0 < len && len < 65536, ClassError::BadLength { at })?;
    take(end, len as usize, rest)
}

#[tactic(auto, unfolding(crate::specs::MemberReaders::rows_at, reading::specs::Readers::bind))]
fn rows(alloc: Global, end: u32, bytes: &[u8]) -> Result<(Vec<ExceptionRow>, &[u8]), ClassError>
    ensures { GivesAs Memory (λ x. (x.0.items, x.1.now)) result (rows_at end bytes.now) }
{
    let (count, rest) = u16_at(end, bytes)?;
    each_row(alloc, end, count, rest)
}

fn each_row(
    alloc: Global,
    end: u32,
    count: u16,
    bytes: &[u8],
) -> Result<(Vec<ExceptionRow>, &[u8]), ClassError>
    ensures { GivesAs Memory (λ x. (x.0.items, x.1.now)) result (times count (row_at end) bytes.now) }
{
    let mut rows = Vec::new(alloc);
    let mut rest = bytes;
    for _ in 0..count {
        let (row, after) = row(end, rest)?;
        rows.push(row)?;
        rest = after;
    }
    Ok((rows, rest))
}

#[tactic(auto, unfolding(crate::specs::MemberReaders::row_at, reading::specs::Readers::bind, reading::specs::Readers::done))]
fn row(end: u32, bytes: &[u8]) -> Result<(ExceptionRow, &[u8]), ClassError>
    ensures { GivesAs Memory (λ x. (x.0, x.1.now)) result (row_at end bytes.now) }
{
    let (start, rest) = u16_at(end, bytes)?;
    let (stop, rest) = u16_at(end, rest)?;
    let (handler, rest) = u16_at(end, rest)?;
    let (catch, rest) = u16_at(end, rest)?;
    let row = ExceptionRow {
        start,
        end: stop,
        handler,
        catch,
    };
    Ok((row, rest))
}
