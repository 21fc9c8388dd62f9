//! Reading a row.

use crate::table::value;
use std::alloc::{AllocError, Global};

/// Whether a row gives the value that its function has; nothing where it can't be read, or the function has no value
/// at such numbers.
pub(crate) fn is_right(alloc: Global, line: &str) -> Result<Option<bool>, AllocError> {
    let Some((call, expected)) = line.split_once('=') else {
        return Ok(None);
    };
    let mut words = call.split_whitespace();
    let Some(name) = words.next() else {
        return Ok(None);
    };
    let mut numbers: Vec<i128> = Vec::new(alloc);
    for word in words {
        match number(word) {
            Some(n) => numbers.push(n)?,
            None => return Ok(None),
        }
    }
    Ok(compared(value(name, &numbers), number(expected.trim())))
}

/// Whether two numbers are the same.
fn compared(found: Option<u64>, expected: Option<i128>) -> Option<bool> {
    Some(i128::from(found?) == expected?)
}

/// The number that a word spells.
fn number(word: &str) -> Option<i128> {
    match word.strip_prefix("0x") {
        Some(digits) => i128::from_str_radix(digits, 16).ok(),
        None => word.parse::<i128>().ok(),
    }
}
