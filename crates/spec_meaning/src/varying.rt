//! What the inputs of a specification may vary in, and what must be the same on all of them.

ghost use Rattle.std.specs.Prelude.{◌≡◌, ℕ};
ghost use Rattle.std.specs.Cmp.Lexicographic.{pointwise};
ghost use Rattle.spec_meaning.specs.Varying.{is_static as is_static_in, is_word as is_word_in, are_alike_numbers as alike, are_alike as are_alike_values};

use crate::value::Value;
use spec_form::Builtin;

/// Whether a function's argument at a place, counted from 0, is static: the same on all inputs that come to the call.
///
/// Static are widths, places in words, lengths of arrays, indexes into lists and amounts of shifts, and all arguments
/// of the functions on whole numbers but `=`.
pub fn is_static(builtin: Builtin, place: usize) -> bool
    ensures { result ≡ is_static_in builtin place }
{
    match builtin {
        Builtin::BvChop
        | Builtin::GetBit
        | Builtin::BvPlus
        | Builtin::BvMinus
        | Builtin::BvMult
        | Builtin::BvDiv
        | Builtin::BvMod
        | Builtin::BvUMinus
        | Builtin::BvAnd
        | Builtin::BvOr
        | Builtin::BvXor
        | Builtin::BvNot
        | Builtin::BvLt
        | Builtin::BvIf
        | Builtin::LeftRotate
        | Builtin::RightRotate
        | Builtin::Nth
        | Builtin::UpdateNth => place == 0,
        Builtin::Slice | Builtin::BvSx | Builtin::BvArrayRead | Builtin::BvArrayWrite => {
            place == 0 || place == 1
        }
        Builtin::BvCat | Builtin::BvShl | Builtin::BvShr => place == 0 || place == 2,
        Builtin::Sum
        | Builtin::Minus
        | Builtin::Increment
        | Builtin::Decrement
        | Builtin::Less
        | Builtin::LessOrEqual
        | Builtin::Greater
        | Builtin::GreaterOrEqual
        | Builtin::Zp => true,
        Builtin::LeftRotate32
        | Builtin::RightRotate32
        | Builtin::SameNumber
        | Builtin::Equal
        | Builtin::Not
        | Builtin::List
        | Builtin::Cons
        | Builtin::Append
        | Builtin::Cdr
        | Builtin::Car
        | Builtin::Len
        | Builtin::Endp
        | Builtin::Consp => false,
    }
}

/// Whether two values are alike: the same number, two numbers from 0 to 2^64 - 1, each of them t or nil, or lists of one
/// length whose elements are alike.
pub fn are_alike(first: &Value, second: &Value) -> bool
    ensures { result ≡ are_alike_values first.now second.now }
{
    match (first, second) {
        (Value::Number(first), Value::Number(second)) => are_alike_numbers(*first, *second),
        (Value::T, Value::T) => true,
        (Value::T, Value::List(numbers)) => numbers.is_empty(),
        (Value::List(numbers), Value::T) => numbers.is_empty(),
        (Value::List(first), Value::List(second)) => {
            are_alike_lists(first.as_slice(), second.as_slice())
        }
        (Value::Number(_), _) | (_, Value::Number(_)) => false,
    }
}

/// Whether a number is from 0 to 2^64 - 1.
fn is_word(number: i128) -> bool
    ensures { result ≡ is_word_in number }
{
    0 <= number && number < 1 << 64
}

fn are_alike_numbers(first: i128, second: i128) -> bool
    ensures { result ≡ alike first second }
{
    first == second || (is_word(first) && is_word(second))
}

/// Whether two lists have one length and elements that are alike.
fn are_alike_lists(first: &[i128], second: &[i128]) -> bool
    ensures { result ≡ pointwise alike first.now second.now }
{
    if first.len() != second.len() {
        return false;
    }
    for (at, number) in first.iter().enumerate() {
        if !are_alike_numbers(*number, second[at]) {
            return false;
        }
    }
    true
}
