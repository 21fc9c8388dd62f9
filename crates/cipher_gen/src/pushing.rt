//! Adds the parts of a class file: numbers, the highest byte first, and entries of the constant pool.

ghost use Rattle.std.specs.Prelude.{◌≡◌, ◌≤◌, ◌<◌, ◌++◌, length, OnOk};
ghost use Rattle.std.specs.List.{flat_map};
ghost use Rattle.cipher_gen.specs.Ciphers.{u2, u4, utf8, class_info, named_class, integer};

use byteorder::{BigEndian, ByteOrder};
use std::alloc::AllocError;

/// Adds a number of two bytes.
pub fn push_u2(out: &mut Vec<u8>, number: u16) -> Result<(), AllocError>
    ensures { OnOk result (out.new.items ≡ out.old.items ++ u2 number) }
{
    let mut bytes = [0; 2];
    BigEndian::write_u16(&mut bytes, number);
    out.extend_from_slice(&bytes)
}

/// Adds numbers of two bytes each.
pub fn push_all_u2(out: &mut Vec<u8>, numbers: &[u16]) -> Result<(), AllocError>
    ensures { OnOk result (out.new.items ≡ out.old.items ++ flat_map u2 numbers.now) }
{
    for number in numbers {
        push_u2(out, *number)?;
    }
    Ok(())
}

/// Adds a number of four bytes.
pub fn push_u4(out: &mut Vec<u8>, number: u32) -> Result<(), AllocError>
    ensures { OnOk result (out.new.items ≡ out.old.items ++ u4 number) }
{
    let mut bytes = [0; 4];
    BigEndian::write_u32(&mut bytes, number);
    out.extend_from_slice(&bytes)
}

/// Adds a CONSTANT_Utf8_info of an ASCII text.
#[tactic(auto, unfolding(crate::specs::Ciphers::utf8))]
pub fn push_utf8(out: &mut Vec<u8>, text: &str) -> Result<(), AllocError>
    requires { length text.now ≤ 65535 }
    ensures { OnOk result (out.new.items ≡ out.old.items ++ utf8 text.now) }
{
    out.push(1)?;
    push_u2(out, text.len() as u16)?;
    out.extend_from_slice(text.as_bytes())
}

/// Adds a CONSTANT_Class_info of the name that is the entry of a number.
#[tactic(auto, unfolding(crate::specs::Ciphers::class_info))]
fn push_class_info(out: &mut Vec<u8>, name: u16) -> Result<(), AllocError>
    ensures { OnOk result (out.new.items ≡ out.old.items ++ class_info name) }
{
    out.push(7)?;
    push_u2(out, name)
}

/// Adds the name of a class, which is the entry of a number, and its CONSTANT_Class_info.
#[tactic(auto, unfolding(crate::specs::Ciphers::named_class))]
pub fn push_named_class(out: &mut Vec<u8>, text: &str, name: u16) -> Result<(), AllocError>
    requires { length text.now ≤ 65535 }
    ensures { OnOk result (out.new.items ≡ out.old.items ++ named_class text.now name) }
{
    push_utf8(out, text)?;
    push_class_info(out, name)
}

/// Adds a CONSTANT_Integer_info.
pub fn push_integer(out: &mut Vec<u8>, word: u32) -> Result<(), AllocError>
    ensures { OnOk result (out.new.items ≡ out.old.items ++ integer word) }
{
    out.push(3)?;
    push_u4(out, word)
}
