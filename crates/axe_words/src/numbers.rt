ghost use Rattle.std.specs.Prelude.{◌≡◌, ◌≤◌, ◌+◌, Ok, IfErr, IfOk, IfSome};
ghost use Rattle.axe_words.specs.Numbers.{number_in, size_in, sizes_in, IsSizesFault};

use std::alloc::Global;

/// The number of a text of one or more ASCII digits, where it is from `least` to `greatest`.
pub(crate) fn number_in(text: &[u8], least: u64, greatest: u64) -> Option<u64>
    ensures value { result ≡ number_in least greatest text.now }
    ensures range { IfSome result (λ n. (least ≤ n) × (n ≤ greatest)) }
{
    if text.is_empty() {
        return None;
    }
    let most = greatest as u128;
    let mut value: u128 = 0;
    for byte in text {
        if !byte.is_ascii_digit() {
            return None;
        }
        value = 10 * value + (*byte - b'0') as u128;
        // What is too great stays so, however it goes on.
        if value > most {
            return None;
        }
    }
    let value = value as u64;
    if value < least { None } else { Some(value) }
}

/// Why a list of sizes isn't had.
#[derive(Clone, Copy, Debug, PartialEq, Eq)]
pub(crate) enum SizesFault {
    /// The size of this place is bad.
    Bad(u64),
    /// Want of memory.
    Memory,
}

/// The size of a text, where it is a number up to 4,096 and makes at most 16,384 with the sizes
/// before it.
fn size_in(text: &[u8], before: u64) -> Option<u64>
    requires { before ≤ 16384 }
    ensures value { result ≡ size_in before text.now }
    ensures range { IfSome result (λ n. (n ≤ 4096) × (before + n ≤ 16384)) }
{
    let size = number_in(text, 0, 4_096)?;
    if before + size > 16_384 {
        None
    } else {
        Some(size)
    }
}

/// The sizes between the commas of a text.
pub(crate) fn sizes_in(alloc: Global, text: &str) -> Result<Vec<u32>, SizesFault>
    ensures ok { IfOk result (λ sizes. sizes_in text.now ≡ Ok sizes.items) }
    ensures err { IfErr result (IsSizesFault text.now) }
{
    let mut sizes = Vec::new(alloc);
    let mut rest = text;
    let mut at: u64 = 0;
    let mut before: u64 = 0;
    while let Some((first, others)) = rest.split_once(',') {
        let Some(size) = size_in(first.as_bytes(), before) else {
            return Err(SizesFault::Bad(at));
        };
        if sizes.push(size as u32).is_err() {
            return Err(SizesFault::Memory);
        }
        rest = others;
        before += size;
        at += 1;
    }
    let Some(size) = size_in(rest.as_bytes(), before) else {
        return Err(SizesFault::Bad(at));
    };
    if sizes.push(size as u32).is_err() {
        return Err(SizesFault::Memory);
    }
    Ok(sizes)
}
