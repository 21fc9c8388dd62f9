//! The text of the specification of a number: a function `mix` of two words.

ghost use Rattle.std.specs.Prelude.{◌≡◌, ◌<◌, ◌++◌, IfOk, OnOk, codes, string_bytes};
ghost use Rattle.cipher_gen.specs.Ciphers.{rounds, in_rounds, bindings, new_a, new_b, result_line, spec_text};

use crate::choices::{constant, rotation, rounds};
use std::alloc::{AllocError, Global};

/// The specification of a number.
pub fn spec_text(alloc: Global, n: u64) -> Result<String, AllocError>
    ensures { IfOk result (λ text. string_bytes text ≡ spec_text n) }
{
    let bindings = all_bindings(alloc, n)?;
    let result = result_line(alloc, n)?;
    format!(in alloc; "(defun mix (a0 b0)\n  (let* (\n{bindings}  )\n{result}")
}

/// The lines of all rounds.
fn all_bindings(alloc: Global, n: u64) -> Result<String, AllocError>
    ensures { IfOk result (λ text. string_bytes text ≡ in_rounds (bindings n) n) }
{
    let mut text = String::new(alloc);
    for round in 0..rounds(n) {
        push_bindings(alloc, &mut text, n, round)?;
    }
    Ok(text)
}

/// Adds the lines of a round.
fn push_bindings(alloc: Global, out: &mut String, n: u64, round: u8) -> Result<(), AllocError>
    requires { round < 8 }
    ensures { OnOk result (string_bytes out.new ≡ string_bytes out.old ++ bindings n round) }
{
    let new_a = new_a(alloc, round)?;
    let new_b = new_b(alloc, n, round)?;
    out.push_str(&new_a)?;
    out.push_str(&new_b)?;
    Ok(())
}

/// The line of a round that binds the new a.
fn new_a(alloc: Global, round: u8) -> Result<String, AllocError>
    requires { round < 8 }
    ensures { IfOk result (λ text. string_bytes text ≡ new_a round) }
{
    let next = round + 1;
    format!(in alloc; "    (a{next} b{round})\n")
}

/// The line of a round that binds the new b.
fn new_b(alloc: Global, n: u64, round: u8) -> Result<String, AllocError>
    requires { round < 8 }
    ensures { IfOk result (λ text. string_bytes text ≡ new_b n round) }
{
    let next = round + 1;
    let rotation = rotation(n, round);
    let constant = constant(n, round);
    format!(in alloc;
        "    (b{next} (bvxor 32 (leftrotate 32 {rotation} (bvplus 32 a{round} b{round})) {constant}))\n"
    )
}

/// The last line, with the result.
fn result_line(alloc: Global, n: u64) -> Result<String, AllocError>
    ensures { IfOk result (λ text. string_bytes text ≡ result_line n) }
{
    let last = rounds(n);
    format!(in alloc; "  (bvxor 32 a{last} b{last})))\n")
}
