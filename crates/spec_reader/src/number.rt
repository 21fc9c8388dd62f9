ghost use Rattle.std.specs.Prelude.{◌≡◌, ◌+◌, ◌-◌, ◌*◌, ◌^◌, ◌<◌, min, IfSome, option_map, pos};
ghost use Rattle.spec_reader.specs.Numbers.{base_of, digit_value, digit_in, value_from, value_of, positive, negative, signed, based, number_of, begins_with_digit, begins_like_number};

/// Numbers lie from the negation of this one up to one less than it.
const LIMIT: u128 = 1 << 127;

/// The base of the numbers behind `#` and a letter.
fn base_of(letter: u8) -> Option<u8>
    ensures base { result ≡ base_of letter }
    ensures some { IfSome result (λ base. 0 < base) }
{
    match letter.to_ascii_lowercase() {
        b'x' => Some(16),
        b'b' => Some(2),
        b'o' => Some(8),
        _ => None,
    }
}

/// The value of a digit, or of a letter from a to f.
fn digit_value(byte: u8) -> Option<u8>
    ensures { result ≡ digit_value byte }
{
    let lower = byte.to_ascii_lowercase();
    if byte.is_ascii_digit() {
        Some(byte - b'0')
    } else if b'a' <= lower && lower <= b'f' {
        Some(lower - 87)
    } else {
        None
    }
}

/// The value of a digit of a base.
fn digit_in(base: u8, byte: u8) -> Option<u8>
    ensures { result ≡ digit_in base byte }
{
    let digit = digit_value(byte)?;
    if digit < base { Some(digit) } else { None }
}

/// The number of at least one digit; one from 2^128 on counts as 2^128 - 1.
fn value(base: u8, digits: &[u8]) -> Option<u128>
    requires { 0 < base }
    ensures { result ≡ option_map (λ n. min n (2 ^ 128 - 1)) (value_of base digits.now) }
{
    if digits.is_empty() {
        return None;
    }
    value_from(base, digits)
}

fn value_from(base: u8, digits: &[u8]) -> Option<u128>
    requires { 0 < base }
    ensures { result ≡ option_map (λ n. min n (2 ^ 128 - 1)) (value_from base 0 digits.now) }
{
    let mut value = 0u128;
    for byte in digits {
        let digit = digit_in(base, *byte)?;
        value = with_digit(value, base, digit);
    }
    Some(value)
}

fn with_digit(value: u128, base: u8, digit: u8) -> u128
    ensures { result ≡ min (value * base + digit) (2 ^ 128 - 1) }
{
    value
        .saturating_mul(u128::from(base))
        .saturating_add(u128::from(digit))
}

/// A number without a sign, if it is below 2^127.
fn positive(value: Option<u128>) -> Option<i128>
    ensures { result ≡ positive value }
{
    let value = value?;
    if value < LIMIT {
        Some(value as i128)
    } else {
        None
    }
}

/// The negation of a number that is at most 2^127.
fn negative(value: Option<u128>) -> Option<i128>
    ensures { result ≡ negative value }
{
    let value = value?;
    if value < LIMIT {
        Some(-(value as i128))
    } else if value == LIMIT {
        Some(i128::MIN)
    } else {
        None
    }
}

/// The number of digits with or without a sign.
fn signed(base: u8, word: &[u8]) -> Option<i128>
    requires { 0 < base }
    ensures { result ≡ signed base word.now }
{
    let (first, rest) = word.split_first()?;
    match *first {
        b'+' => positive(value(base, rest)),
        b'-' => negative(value(base, rest)),
        _ => positive(value(base, word)),
    }
}

/// The number behind a `#`.
fn based(word: &[u8]) -> Option<i128>
    ensures { result ≡ based word.now }
{
    let (letter, rest) = word.split_first()?;
    let base = base_of(*letter)?;
    signed(base, rest)
}

/// The number that a word spells, if it is one from -2^127 to 2^127 - 1.
pub fn number(word: &[u8]) -> Option<i128>
    ensures { result ≡ number_of word.now }
{
    let (first, rest) = word.split_first()?;
    if *first == b'#' {
        based(rest)
    } else {
        signed(10, word)
    }
}

fn begins_with_digit(word: &[u8]) -> bool
    ensures { result ≡ begins_with_digit word.now }
{
    match word.first() {
        Some(first) => first.is_ascii_digit(),
        None => false,
    }
}

/// Whether a word begins with a digit, with a sign and a digit, or with `#`.
pub fn begins_like_number(word: &[u8]) -> bool
    ensures { result ≡ begins_like_number word.now }
{
    let Some((first, rest)) = word.split_first() else {
        return false;
    };
    first.is_ascii_digit()
        || *first == b'#'
        || ((*first == b'+' || *first == b'-') && begins_with_digit(rest))
}
