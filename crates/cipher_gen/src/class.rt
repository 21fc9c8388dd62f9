//! The class file of a number: `public class Mix` with `public static int mix(int, int)`.

ghost use Rattle.std.specs.Prelude.{◌≡◌, ◌+◌, ◌*◌, ◌≤◌, ◌<◌, ◌++◌, length, IfOk, OnOk};
ghost use Rattle.cipher_gen.specs.Ciphers.{rounds, integer, constant, in_rounds, classes, names, pool, code_info, code_attribute, method, class_bytes};

use crate::choices::{constant, rounds};
use crate::instructions::{code_length, push_code};
use crate::pushing::{push_all_u2, push_integer, push_named_class, push_u2, push_u4, push_utf8};
use std::alloc::{AllocError, Global};

/// The class file of a number.
pub fn class_bytes(alloc: Global, n: u64) -> Result<Vec<u8>, AllocError>
    ensures { IfOk result (λ bytes. bytes.items ≡ class_bytes n) }
{
    let mut out = Vec::new(alloc);
    push_u4(&mut out, 0xcafe_babe)?;
    push_all_u2(&mut out, &[0, 52])?;
    push_pool(&mut out, n)?;
    // access_flags, this_class, super_class, no interfaces, no fields, one method
    push_all_u2(&mut out, &[0x0021, 2, 4, 0, 0, 1])?;
    push_method(&mut out, n)?;
    // no attributes
    push_u2(&mut out, 0)?;
    Ok(out)
}

/// Adds the constant pool with its count.
#[tactic(auto, unfolding(crate::specs::Ciphers::pool))]
fn push_pool(out: &mut Vec<u8>, n: u64) -> Result<(), AllocError>
    ensures { OnOk result (out.new.items ≡ out.old.items ++ pool n) }
{
    push_u2(out, 8 + u16::from(rounds(n)))?;
    push_classes(out)?;
    push_names(out)?;
    push_constants(out, n)
}

/// Adds the entries of this class and of its superclass.
#[tactic(auto, unfolding(crate::specs::Ciphers::classes))]
fn push_classes(out: &mut Vec<u8>) -> Result<(), AllocError>
    ensures { OnOk result (out.new.items ≡ out.old.items ++ classes) }
{
    push_named_class(out, "Mix", 1)?;
    push_named_class(out, "java/lang/Object", 3)
}

/// Adds the names of the method, of its descriptor and of its attribute.
#[tactic(auto, using(crate::proofs::Appending::appended, crate::proofs::Appending::nothing_more), unfolding(crate::specs::Ciphers::names))]
fn push_names(out: &mut Vec<u8>) -> Result<(), AllocError>
    ensures { OnOk result (out.new.items ≡ out.old.items ++ names) }
{
    push_utf8(out, "mix")?;
    push_utf8(out, "(II)I")?;
    push_utf8(out, "Code")?;
    Ok(())
}

/// Adds the constants of all rounds.
fn push_constants(out: &mut Vec<u8>, n: u64) -> Result<(), AllocError>
    ensures { OnOk result (out.new.items ≡ out.old.items ++ in_rounds (λ i. integer (constant n i)) n) }
{
    for round in 0..rounds(n) {
        push_integer(out, constant(n, round))?;
    }
    Ok(())
}

/// Adds the method with its one attribute.
#[tactic(auto, unfolding(crate::specs::Ciphers::method))]
fn push_method(out: &mut Vec<u8>, n: u64) -> Result<(), AllocError>
    ensures { OnOk result (out.new.items ≡ out.old.items ++ method n) }
{
    push_all_u2(out, &[0x0009, 5, 6, 1])?;
    push_code_attribute(out, n)
}

/// Adds the attribute Code.
#[tactic(auto, unfolding(crate::specs::Ciphers::code_attribute))]
fn push_code_attribute(out: &mut Vec<u8>, n: u64) -> Result<(), AllocError>
    ensures { OnOk result (out.new.items ≡ out.old.items ++ code_attribute n) }
{
    push_u2(out, 7)?;
    push_u4(out, 12 + code_length(n))?;
    push_code_info(out, n)
}

/// Adds what the attribute Code holds.
#[tactic(auto, unfolding(crate::specs::Ciphers::code_info))]
fn push_code_info(out: &mut Vec<u8>, n: u64) -> Result<(), AllocError>
    ensures { OnOk result (out.new.items ≡ out.old.items ++ code_info n) }
{
    // max_stack and max_locals
    push_all_u2(out, &[3, 3])?;
    push_u4(out, code_length(n))?;
    push_code(out, n)?;
    // no exception rows, no attributes
    push_all_u2(out, &[0, 0])
}
