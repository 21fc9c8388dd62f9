ghost use Rattle.std.specs.Prelude.{◌≡◌, ℕ, ◌++◌, ◌<◌, length, IfOk, OnOk, string_bytes};
ghost use Rattle.verdict_text.specs.Words.{name_byte, name, method_text, method};

use crate::words::push_hex;
use class_file::{ClassFile, MethodId};
use std::alloc::{AllocError, Global};

/// Adds a byte of a name or a word: as it is from 0x21 to 0x7e but for the backslash, and else a backslash and two
/// hexadecimal digits.
fn push_name_byte(out: &mut String, byte: u8) -> Result<(), AllocError>
    ensures { OnOk result (string_bytes out.new ≡ string_bytes out.old ++ name_byte byte) }
{
    if 33 <= byte && byte <= 126 && byte != b'\\' {
        out.push(char::from(byte))?;
        Ok(())
    } else {
        out.push('\\')?;
        push_hex(out, 2, u64::from(byte))
    }
}

/// Adds a name, byte by byte.
fn push_name(out: &mut String, bytes: &[u8]) -> Result<(), AllocError>
    ensures { OnOk result (string_bytes out.new ≡ string_bytes out.old ++ name bytes.now) }
{
    for byte in bytes {
        push_name_byte(out, *byte)?;
    }
    Ok(())
}

/// A name.
pub fn name_text(alloc: Global, bytes: &[u8]) -> Result<String, AllocError>
    ensures { IfOk result (λ text. string_bytes text ≡ name bytes.now) }
{
    let mut text = String::new(alloc);
    push_name(&mut text, bytes)?;
    Ok(text)
}

/// A method's name followed by its descriptor; nothing where the class has no such method.
pub fn method_text(alloc: Global, class: &ClassFile, id: MethodId) -> Result<String, AllocError>
    ensures { IfOk result (λ text. string_bytes text ≡ method class.now.methods id) }
{
    let mut text = String::new(alloc);
    if let Some(method) = class.method_at(id) {
        push_name(&mut text, method.name.as_slice())?;
        push_name(&mut text, method.desc.as_slice())?;
    }
    Ok(text)
}
