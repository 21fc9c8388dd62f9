ghost use Rattle.std.specs.Prelude.{◌≡◌, ℕ, ◌+◌, ◌-◌, ◌≤◌, ◌<◌, ◌^◌, ◌++◌, ◌∷◌, [], pos, IfOk, OnOk, map, codes, string_bytes};
ghost use Rattle.std.specs.List.{flat_map};
ghost use Rattle.std.specs.Fmt.{signed_decimal};
ghost use Rattle.verdict_text.specs.Words.{digit, hex, word, number, words, numbers, spaced, bracketed};

use std::alloc::{AllocError, Global};

/// A hexadecimal digit in lower case.
fn digit(n: u8) -> u8
    requires { n < 16 }
    ensures { result ≡ digit n }
{
    if n < 10 { n + b'0' } else { n - 10 + b'a' }
}

/// Adds so many hexadecimal digits of a number.
pub fn push_hex(out: &mut String, digits: u32, n: u64) -> Result<(), AllocError>
    ensures { OnOk result (string_bytes out.new ≡ string_bytes out.old ++ hex digits n) }
{
    if digits == 0 {
        return Ok(());
    }
    push_hex(out, digits - 1, n / 16)?;
    out.push(char::from(digit((n % 16) as u8)))?;
    Ok(())
}

/// A word of a width in hexadecimal digits.
pub fn word_text(alloc: Global, width: u32, n: u64) -> Result<String, AllocError>
    ensures { IfOk result (λ text. string_bytes text ≡ word width n) }
{
    let mut text = String::new(alloc);
    push_hex(&mut text, width / 4, n)?;
    Ok(text)
}

/// A number of the specification: a word where it fits the width, and else in decimal.
pub fn number_text(alloc: Global, width: u32, z: i128) -> Result<String, AllocError>
    requires { width ≤ 64 }
    ensures { IfOk result (λ text. string_bytes text ≡ number width z) }
{
    if 0 <= z && z < 1i128 << width {
        word_text(alloc, width, z as u64)
    } else {
        format!(in alloc; "dec {z}")
    }
}

/// Words of a width in brackets.
pub fn words_text(alloc: Global, width: u32, ns: &[u64]) -> Result<String, AllocError>
    ensures { IfOk result (λ text. string_bytes text ≡ words width ns.now) }
{
    let inside = spaced_words(alloc, width, ns)?;
    format!(in alloc; "[{inside}]")
}

fn spaced_words(alloc: Global, width: u32, ns: &[u64]) -> Result<String, AllocError>
    ensures { IfOk result (λ text. string_bytes text ≡ spaced (map (word width) ns.now)) }
{
    let mut text = String::new(alloc);
    let Some((first, others)) = ns.split_first() else {
        return Ok(text);
    };
    push_hex(&mut text, width / 4, *first)?;
    for n in others {
        text.push(' ')?;
        push_hex(&mut text, width / 4, *n)?;
    }
    Ok(text)
}

/// Numbers of the specification in brackets.
pub fn numbers_text(alloc: Global, width: u32, zs: &[i128]) -> Result<String, AllocError>
    requires { width ≤ 64 }
    ensures { IfOk result (λ text. string_bytes text ≡ numbers width zs.now) }
{
    let inside = spaced_numbers(alloc, width, zs)?;
    format!(in alloc; "[{inside}]")
}

fn spaced_numbers(alloc: Global, width: u32, zs: &[i128]) -> Result<String, AllocError>
    requires { width ≤ 64 }
    ensures { IfOk result (λ text. string_bytes text ≡ spaced (map (number width) zs.now)) }
{
    let mut text = String::new(alloc);
    let Some((first, others)) = zs.split_first() else {
        return Ok(text);
    };
    push_number(alloc, &mut text, width, *first)?;
    for z in others {
        text.push(' ')?;
        push_number(alloc, &mut text, width, *z)?;
    }
    Ok(text)
}

/// Adds a number of the specification.
fn push_number(alloc: Global, out: &mut String, width: u32, z: i128) -> Result<(), AllocError>
    requires { width ≤ 64 }
    ensures { OnOk result (string_bytes out.new ≡ string_bytes out.old ++ number width z) }
{
    let text = number_text(alloc, width, z)?;
    out.push_str(&text)?;
    Ok(())
}
