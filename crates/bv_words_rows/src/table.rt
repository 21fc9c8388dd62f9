//! The functions by their names.

ghost use Rattle.std.specs.Prelude.{◌≡◌, ◌≤◌, ◌<◌, ◌^◌, IfSome, true};

use bv_words as words;

/// The value of the function of a name at these numbers, if it has one there.
pub(crate) fn value(name: &str, numbers: &[i128]) -> Option<u64> {
    match numbers {
        [w, z] if name == "chop_wide" => Some(words::chop_wide(width(*w)?, *z)),
        [w] => of_width(name, width(*w)?),
        [w, x] => unary(name, width(*w)?, number(*x)?),
        [w, x, y] => of_three(name, *w, number(*x)?, number(*y)?),
        [h, x, l, y] if name == "cat" => joined(width(*h)?, number(*x)?, width(*l)?, number(*y)?),
        _ => None,
    }
}

/// A width, of 1 to 64 bits.
fn width(number: i128) -> Option<u32>
    ensures { IfSome result (λ w. (1 ≤ w) × (w ≤ 64)) }
{
    if 1 <= number && number <= 64 {
        Some(number as u32)
    } else {
        None
    }
}

/// A number of at most 64 bits.
fn number(number: i128) -> Option<u64> {
    u64::try_from(number).ok()
}

/// Whether a number is a word of a width.
fn fits(width: u32, x: u64) -> bool
    requires low { 1 ≤ width }
    requires high { width ≤ 64 }
    ensures { result ≡ true → x < 2 ^ width }
{
    x <= words::mask(width)
}

fn of_width(name: &str, width: u32) -> Option<u64>
    requires low { 1 ≤ width }
    requires high { width ≤ 64 }
{
    match name {
        "mask" => Some(words::mask(width)),
        _ => None,
    }
}

fn unary(name: &str, width: u32, x: u64) -> Option<u64>
    requires low { 1 ≤ width }
    requires high { width ≤ 64 }
{
    match name {
        "chop" => Some(words::chop(width, x)),
        _ if !fits(width, x) => None,
        "neg" => Some(words::neg(width, x)),
        "not" => Some(words::not(width, x)),
        "magnitude" => Some(words::magnitude(width, x)),
        _ => None,
    }
}

fn of_three(name: &str, first: i128, x: u64, y: u64) -> Option<u64> {
    match name {
        "slice" => slice(number(first)?, x, y),
        "sx" => extended(width(first)?, width(i128::from(x))?, y),
        _ => binary(name, width(first)?, x, y),
    }
}

fn slice(high: u64, low: u64, x: u64) -> Option<u64> {
    if low <= high && high <= 63 {
        Some(words::slice(high as u32, low as u32, x))
    } else {
        None
    }
}

fn extended(new_width: u32, old_width: u32, x: u64) -> Option<u64>
    requires low { 1 ≤ old_width }
    requires high { new_width ≤ 64 }
{
    if old_width <= new_width && fits(old_width, x) {
        Some(words::sx(new_width, old_width, x))
    } else {
        None
    }
}

fn joined(high_width: u32, h: u64, low_width: u32, l: u64) -> Option<u64>
    requires high { (1 ≤ high_width) × (high_width ≤ 64) }
    requires low { (1 ≤ low_width) × (low_width ≤ 64) }
{
    if high_width + low_width <= 64 && fits(high_width, h) && fits(low_width, l) {
        Some(words::cat(high_width, h, low_width, l))
    } else {
        None
    }
}

/// A function of a width and two numbers, of which a shift and a rotation take any as the amount.
fn binary(name: &str, width: u32, x: u64, y: u64) -> Option<u64>
    requires low { 1 ≤ width }
    requires high { width ≤ 64 }
{
    match name {
        "shl" => Some(words::shl(width, x, y)),
        "shr" => Some(words::shr(width, x, y)),
        "rotate_left" if fits(width, y) => Some(words::rotate_left(width, x, y)),
        "rotate_right" if fits(width, y) => Some(words::rotate_right(width, x, y)),
        _ if fits(width, x) && fits(width, y) => of_words(name, width, x, y),
        _ => None,
    }
}

/// A function of two words.
fn of_words(name: &str, width: u32, x: u64, y: u64) -> Option<u64>
    requires low { 1 ≤ width }
    requires high { width ≤ 64 }
    requires left { x < 2 ^ width }
    requires right { y < 2 ^ width }
{
    match name {
        "plus" => Some(words::plus(width, x, y)),
        "minus" => Some(words::minus(width, x, y)),
        "times" => Some(words::times(width, x, y)),
        "udiv" => Some(words::udiv(width, x, y)),
        "urem" => Some(words::urem(width, x, y)),
        "sdiv" => Some(words::sdiv(width, x, y)),
        "srem" => Some(words::srem(width, x, y)),
        "and" => Some(words::and(width, x, y)),
        "or" => Some(words::or(width, x, y)),
        "xor" => Some(words::xor(width, x, y)),
        "ult" => Some(u64::from(words::ult(width, x, y))),
        "slt" => Some(u64::from(words::slt(width, x, y))),
        _ => None,
    }
}
