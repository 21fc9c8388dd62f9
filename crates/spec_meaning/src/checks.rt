//! What is asked of arguments; each check is its line of `specs/Checks.antt`.

ghost use Rattle.std.specs.Prelude.{◌≡◌, ◌≤◌, ◌<◌, ◌^◌, ℕ, IfOk};
ghost use Rattle.spec_meaning.specs.Checks.{check as check_of, from_1_to as from_1_to_of, width as width_in, below as below_of, chopped as chopped_of};

use crate::operand::Operand;
use crate::value::Why;
use bv_words::chop_wide;

/// Nothing where a test holds, else why not.
pub(crate) fn check(holds: bool, why: Why) -> Result<(), Why>
    ensures { result ≡ check_of holds why }
{
    if holds { Ok(()) } else { Err(why) }
}

/// A number from 1 to `most`; BadWidth exactly where it is another.
pub fn from_1_to(most: u32, number: i128) -> Result<u32, Why>
    ensures value { result ≡ from_1_to_of most number }
    ensures range { IfOk result (λ n. (1 ≤ n) × (n ≤ most)) }
{
    if 1 <= number && number <= i128::from(most) {
        Ok(number as u32)
    } else {
        Err(Why::BadWidth)
    }
}

/// A width from 1 to 64; BadWidth exactly where the number is another.
pub fn width_of(number: i128) -> Result<u32, Why>
    ensures value { result ≡ from_1_to_of 64 number }
    ensures range { IfOk result (λ w. (1 ≤ w) × (w ≤ 64)) }
{
    from_1_to(64, number)
}

/// A width from 1 to 64; NotANumber exactly where the value is no number, BadWidth where it is another number.
pub(crate) fn width(value: &Operand) -> Result<u32, Why>
    ensures value { result ≡ width_in value.now }
    ensures range { IfOk result (λ w. (1 ≤ w) × (w ≤ 64)) }
{
    width_of(value.number()?)
}

/// A place from 0 on, below `end`; BadPlace exactly where it is another.
pub fn below(end: usize, number: i128) -> Result<usize, Why>
    ensures value { result ≡ below_of end number }
    ensures range { IfOk result (λ n. n < end) }
{
    if 0 <= number && number < end as i128 {
        Ok(number as usize)
    } else {
        Err(Why::BadPlace)
    }
}

/// The lowest bits of a number.
pub(crate) fn chopped(width: u32, value: &Operand) -> Result<u64, Why>
    requires { (1 ≤ width) × (width ≤ 64) }
    ensures value { result ≡ chopped_of width value.now }
    ensures range { IfOk result (λ x. x < 2 ^ width) }
{
    Ok(chop_wide(width, value.number()?))
}
