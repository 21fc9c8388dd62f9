//! A table of changed classes and of look-ups: `FILE | ACTION | ANSWER` on a line.
//!
//! An action is one of `cut LENGTH`, `put OFFSET HEX` and `add HEX`, which change the file's bytes and are
//! answered by the first fault or by `a class`; `each HEX`, which puts a byte at each place in turn and is
//! answered by `no want of memory`; and `find NAME [DESCRIPTOR]` and `field NAME DESCRIPTOR`, which look into
//! the class that the file is.

use class_file::{ClassError, ClassFile};
use class_reader::read_class;
use std::alloc::{AllocError, Global};

/// A row of the table.
#[derive(Clone, Copy)]
pub struct Row<'a> {
    /// The file with the bytes.
    pub file: &'a str,
    action: &'a str,
    /// What the row should be answered by.
    pub wanted: &'a str,
}

/// The row of a line; none where the line is empty, a comment or no row.
pub fn row_of(line: &str) -> Option<Row<'_>> {
    if line.starts_with('#') {
        return None;
    }
    let mut columns = line.split('|');
    let (Some(file), Some(action), Some(wanted)) = (columns.next(), columns.next(), columns.next())
    else {
        return None;
    };
    Some(Row {
        file: file.trim(),
        action: action.trim(),
        wanted: wanted.trim(),
    })
}

/// What a row's action is answered by.
pub fn answer(alloc: Global, bytes: &[u8], row: Row<'_>) -> Result<String, AllocError> {
    let mut words = row.action.split_whitespace();
    let verb = words.next().unwrap_or("");
    let first = words.next().unwrap_or("");
    let second = words.next();
    match verb {
        "cut" => {
            let length: usize = first.parse().unwrap_or(0);
            let (front, _back) = bytes.split_at(length.min(bytes.len()));
            fault_text(alloc, front)
        }
        "put" => {
            let at: usize = first.parse().unwrap_or(0);
            let with = unhexed(alloc, second.unwrap_or(""))?;
            let changed = changed(alloc, bytes, at, with.as_slice())?;
            fault_text(alloc, changed.as_slice())
        }
        "add" => {
            let with = unhexed(alloc, first)?;
            let changed = changed(alloc, bytes, bytes.len(), with.as_slice())?;
            fault_text(alloc, changed.as_slice())
        }
        "each" => each_place(alloc, bytes, first),
        _ => looked_up(alloc, bytes, verb, first, second),
    }
}

/// The first fault of the bytes, none where they are a class.
fn fault_of(alloc: Global, bytes: &[u8]) -> Option<ClassError> {
    if bytes.len() > 1048576 {
        return None;
    }
    read_class(alloc, bytes).err()
}

fn fault_text(alloc: Global, bytes: &[u8]) -> Result<String, AllocError> {
    match fault_of(alloc, bytes) {
        Some(fault) => format!(in alloc; "{fault}"),
        None => format!(in alloc; "a class"),
    }
}

/// The bytes with others in their place from an offset on.
fn changed(alloc: Global, bytes: &[u8], at: usize, with: &[u8]) -> Result<Vec<u8>, AllocError> {
    let (front, back) = bytes.split_at(at.min(bytes.len()));
    let (_old, back) = back.split_at(with.len().min(back.len()));
    let mut new = Vec::from_slice(alloc, front)?;
    new.extend_from_slice(with)?;
    new.extend_from_slice(back)?;
    Ok(new)
}

/// Whatever byte is changed, the answer is a class or a fault with a place in the file.
fn each_place(alloc: Global, bytes: &[u8], hex: &str) -> Result<String, AllocError> {
    let with = unhexed(alloc, hex)?;
    for at in 0..bytes.len() {
        let changed = changed(alloc, bytes, at, with.as_slice())?;
        if fault_of(alloc, changed.as_slice()) == Some(ClassError::Memory) {
            return format!(in alloc; "no memory at {at}");
        }
    }
    format!(in alloc; "no want of memory")
}

/// The bytes of a number of hexadecimal digits.
fn unhexed(alloc: Global, hex: &str) -> Result<Vec<u8>, AllocError> {
    let mut bytes = Vec::new(alloc);
    for pair in hex.as_bytes().chunks_exact(2) {
        if let [high, low] = pair {
            bytes.push(nibble(*high) << 4 | nibble(*low))?;
        }
    }
    Ok(bytes)
}

fn nibble(digit: u8) -> u8 {
    match digit {
        b'0'..=b'9' => digit - b'0',
        b'a'..=b'f' => digit - b'a' + 10,
        _ => 0,
    }
}

fn looked_up(
    alloc: Global,
    bytes: &[u8],
    verb: &str,
    name: &str,
    desc: Option<&str>,
) -> Result<String, AllocError> {
    if bytes.len() > 1048576 {
        return format!(in alloc; "no class");
    }
    let Ok(class) = read_class(alloc, bytes) else {
        return format!(in alloc; "no class");
    };
    match verb {
        "find" => found(alloc, &class, name, desc),
        "field" => field(alloc, &class, name, desc.unwrap_or("")),
        _ => format!(in alloc; "no action"),
    }
}

/// How many static methods with Code have a name and descriptor, and the place of the first.
fn found(
    alloc: Global,
    class: &ClassFile,
    name: &str,
    desc: Option<&str>,
) -> Result<String, AllocError> {
    let found = class.find(name.as_bytes(), desc.map(|d| d.as_bytes()));
    let count = found.count;
    match found.first {
        Some(first) => {
            let place = first.0;
            format!(in alloc; "{count}, the first at {place}")
        }
        None => format!(in alloc; "{count}"),
    }
}

/// The number that the ConstantValue of a field names.
fn field(alloc: Global, class: &ClassFile, name: &str, desc: &str) -> Result<String, AllocError> {
    match class.field(name.as_bytes(), desc.as_bytes()) {
        Some(field) => match field.value {
            Some(number) => format!(in alloc; "value {number}"),
            None => format!(in alloc; "no value"),
        },
        None => format!(in alloc; "no field"),
    }
}
