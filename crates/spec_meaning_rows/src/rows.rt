//! The rows of the table.

ghost use Rattle.std.specs.Prelude.{◌≡◌, ◌≢◌, ◌≤◌, length, string_bytes, IfOk, IsNone, IfSome};

use crate::texts::{end_text, fault_text};
use spec_form::FunId;
use spec_meaning::{Value, eval};
use spec_reader::read_spec;
use sqlite_items::Items;
use std::alloc::{AllocError, Global};

/// How many forms may be open, and how many visited.
#[derive(Clone, Copy)]
struct Limits {
    depth: u32,
    work: u64,
}

/// What is to be said of a row: nothing where it is right.
pub(crate) fn told(alloc: Global, line: &str) -> Result<Option<String>, AllocError> {
    let mut columns = line.split(" ;; ");
    let (Some(text), Some(wanted)) = (columns.next(), columns.next()) else {
        return Ok(Some(format!(in alloc; "{line}: no row")?));
    };
    let got = outcome(alloc, text, limits_of(columns.next()))?;
    if got.as_str() == wanted {
        Ok(None)
    } else {
        Ok(Some(format!(in alloc; "{text}: {got}, wanted {wanted}")?))
    }
}

/// The limits of a column; those that it doesn't have are 100 and 1000.
fn limits_of(column: Option<&str>) -> Limits {
    let mut numbers = column.unwrap_or("").split(' ');
    let depth = numbers.next().unwrap_or("").parse().unwrap_or(100);
    let work = numbers.next().unwrap_or("").parse().unwrap_or(1000);
    Limits { depth, work }
}

/// What becomes of a text of at most 1000 bytes.
fn outcome(alloc: Global, text: &str, limits: Limits) -> Result<String, AllocError> {
    if text.len() > 1000 {
        return String::from_str(alloc, "too long");
    }
    let program = match read_spec(alloc, text.as_bytes()) {
        Ok(program) => program,
        Err(fault) => return fault_text(alloc, fault),
    };
    if program.functions.as_slice().is_empty() {
        return String::from_str(alloc, "no function");
    }
    let first = FunId(0);
    let args = arguments(alloc, program.formals(first))?;
    match eval(
        alloc,
        &program,
        first,
        args.as_slice(),
        limits.depth,
        limits.work,
    ) {
        Ok(end) => end_text(alloc, end),
        Err(_) => String::from_str(alloc, "want of memory"),
    }
}

/// The arguments of a function of so many formals.
fn arguments(alloc: Global, formals: u32) -> Result<Items<Value>, AllocError> {
    let mut args = Items::new(alloc);
    match formals {
        1 => args.push(Value::List(Items::from_slice(alloc, &[5, 6, 7])?))?,
        2 => {
            args.push(Value::Number(5))?;
            args.push(Value::Number(7))?;
        }
        3 => {
            args.push(Value::Number(5))?;
            args.push(Value::Number(7))?;
            args.push(Value::Number(9))?;
        }
        _ => {}
    }
    Ok(args)
}
