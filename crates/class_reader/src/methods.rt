//! Methods (4.6).

ghost use Rattle.std.specs.Prelude.{◌≡◌, ◌<◌, ◌≤◌, ℕ, IfOk, vec_len};
ghost use Rattle.class_file.specs.declared.error.ClassError.TheVariants.{Memory};
ghost use Rattle.class_reader.specs.MemberReaders.{method_content_at, method_attribute_at, method_attributes_at, method_at, methods_at};
ghost use Rattle.reading.specs.Answers.{GivesAs};
ghost use Rattle.reading.specs.Readers.{times, turns};

use crate::attributes::{name, skip};
use crate::code::code;
use crate::numbers::u16_at;
use class_file::{ClassError, Code, Constant, Method, Name};
use std::alloc::Global;

/// The methods of a class, and their count.
#[tactic(auto, unfolding(crate::specs::MemberReaders::methods_at, reading::specs::Readers::bind))]
pub fn methods<'a>(
    alloc: Global,
    pool: &[Option<Constant>],
    end: u32,
    bytes: &'a [u8],
) -> Result<(Vec<Method>, &'a [u8]), ClassError>
    ensures read { GivesAs Memory (λ x. (x.0.items, x.1.now)) result (methods_at pool.now end bytes.now) }
    ensures few { IfOk result (λ x. vec_len x.0 < 65536) }
{
    let (count, rest) = u16_at(end, bytes)?;
    each_method(alloc, pool, end, count, rest)
}

fn each_method<'a>(
    alloc: Global,
    pool: &[Option<Constant>],
    end: u32,
    count: u16,
    bytes: &'a [u8],
) -> Result<(Vec<Method>, &'a [u8]), ClassError>
    ensures read { GivesAs Memory (λ x. (x.0.items, x.1.now)) result (times count (method_at pool.now end) bytes.now) }
    ensures few { IfOk result (λ x. vec_len x.0 ≤ count) }
{
    let mut methods = Vec::new(alloc);
    let mut rest = bytes;
    for _ in 0..count {
        let (method, after) = method(alloc, pool, end, rest)?;
        methods.push(method)?;
        rest = after;
    }
    Ok((methods, rest))
}

#[tactic(auto, unfolding(crate::specs::MemberReaders::method_at, reading::specs::Readers::bind, reading::specs::Readers::done))]
fn method<'a>(
    alloc: Global,
    pool: &[Option<Constant>],
    end: u32,
    bytes: &'a [u8],
) -> Result<(Method, &'a [u8]), ClassError>
    ensures { GivesAs Memory (λ x. (x.0, x.1.now)) result (method_at pool.now end bytes.now) }
{
    let (flags, rest) = u16_at(end, bytes)?;
    let (method_name, rest) = name(pool, end, rest)?;
    let (desc, rest) = name(pool, end, rest)?;
    let (code, rest) = method_attributes(alloc, pool, end, rest)?;
    let method = Method {
        flags,
        name: method_name.share()?,
        desc: desc.share()?,
        code,
    };
    Ok((method, rest))
}

/// The attributes of a method, of which the first Code is read.
#[tactic(auto, unfolding(crate::specs::MemberReaders::method_attributes_at, reading::specs::Readers::bind))]
fn method_attributes<'a>(
    alloc: Global,
    pool: &[Option<Constant>],
    end: u32,
    bytes: &'a [u8],
) -> Result<(Option<Code>, &'a [u8]), ClassError>
    ensures { GivesAs Memory (λ x. (x.0, x.1.now)) result (method_attributes_at pool.now end bytes.now) }
{
    let (count, rest) = u16_at(end, bytes)?;
    each_attribute(alloc, pool, end, count, rest)
}

fn each_attribute<'a>(
    alloc: Global,
    pool: &[Option<Constant>],
    end: u32,
    count: u16,
    bytes: &'a [u8],
) -> Result<(Option<Code>, &'a [u8]), ClassError>
    ensures { GivesAs Memory (λ x. (x.0, x.1.now)) result (turns (method_attribute_at pool.now end) count None bytes.now) }
{
    let mut code = None;
    let mut rest = bytes;
    for _ in 0..count {
        let (next, after) = attribute(alloc, pool, end, code, rest)?;
        code = next;
        rest = after;
    }
    Ok((code, rest))
}

#[tactic(auto, unfolding(reading::specs::Readers::bind))]
fn attribute<'a>(
    alloc: Global,
    pool: &[Option<Constant>],
    end: u32,
    code: Option<Code>,
    bytes: &'a [u8],
) -> Result<(Option<Code>, &'a [u8]), ClassError>
    ensures { (left : ℕ) → GivesAs Memory (λ x. (x.0, x.1.now)) result (method_attribute_at pool.now end left code bytes.now) }
{
    let (name, rest) = name(pool, end, bytes)?;
    attribute_content(alloc, pool, end, name, code, rest)
}

/// What stands behind an attribute's name, with the Code that was read so far.
#[tactic(auto, unfolding(crate::specs::MemberReaders::method_content_at, reading::specs::Readers::bind, reading::specs::Readers::done))]
fn attribute_content<'a>(
    alloc: Global,
    pool: &[Option<Constant>],
    end: u32,
    name: &Name,
    code_so_far: Option<Code>,
    bytes: &'a [u8],
) -> Result<(Option<Code>, &'a [u8]), ClassError>
    ensures { GivesAs Memory (λ x. (x.0, x.1.now)) result (method_content_at pool.now end name.now code_so_far bytes.now) }
{
    if name.as_slice() == b"Code".as_slice() && code_so_far.is_none() {
        let (first, rest) = code(alloc, pool, end, bytes)?;
        return Ok((Some(first), rest));
    }
    let rest = skip(end, bytes)?;
    Ok((code_so_far, rest))
}
