//! Quotients and remainders, of plain and of signed numbers. Each has a value where the divisor is 0 too.

ghost use Rattle.std.specs.Prelude.{◌≡◌, ℕ, ◌^◌, ◌<◌, ◌≤◌};
ghost use Rattle.bv_words.specs.Words.{udiv as udiv_of, urem as urem_of, magnitude as magnitude_of, sdiv as sdiv_of, srem as srem_of};

use crate::arithmetic::neg;
use crate::order::slt;

/// The quotient of `x` and `y` as plain numbers, rounded down; 0 where `y` is 0 (SMT-LIB's `bvudiv` has all ones
/// there). It is the same at every width.
#[tactic(auto, unfolding(crate::specs::Words::udiv), using(crate::proofs::DivisionLaws::quotient_below))]
pub fn udiv(width: u32, x: u64, y: u64) -> u64
    ensures value { result ≡ udiv_of x y }
    ensures word { x < 2 ^ width → result < 2 ^ width }
{
    if y == 0 { 0 } else { x / y }
}

/// The remainder of `x` by `y` as plain numbers; `x` where `y` is 0. It is the same at every width.
#[tactic(auto, unfolding(crate::specs::Words::urem), using(crate::proofs::DivisionLaws::remainder_below))]
pub fn urem(width: u32, x: u64, y: u64) -> u64
    ensures value { result ≡ urem_of x y }
    ensures word { x < 2 ^ width → result < 2 ^ width }
{
    if y == 0 { x } else { x % y }
}

/// The absolute value of `x`, read in two's complement. That of the least number is one above the greatest.
#[tactic(auto, using(crate::proofs::DivisionLaws::magnitude_low, crate::proofs::DivisionLaws::magnitude_high))]
pub fn magnitude(width: u32, x: u64) -> u64
    requires low { 1 ≤ width }
    requires high { width ≤ 64 }
    requires word { x < 2 ^ width }
    ensures value { result ≡ magnitude_of width x }
    ensures word { result < 2 ^ width }
{
    if slt(width, x, 0) { neg(width, x) } else { x }
}

/// The quotient of `x` and `y`, both read in two's complement, cut towards zero; 0 where `y` is 0. That of the least
/// number and minus one is too great by one for the width, and wraps to the least number.
#[tactic(auto, using(crate::proofs::DivisionLaws::sdiv_same, crate::proofs::DivisionLaws::sdiv_apart))]
pub fn sdiv(width: u32, x: u64, y: u64) -> u64
    requires low { 1 ≤ width }
    requires high { width ≤ 64 }
    requires left { x < 2 ^ width }
    requires right { y < 2 ^ width }
    ensures value { result ≡ sdiv_of width x y }
    ensures word { result < 2 ^ width }
{
    let quotient = udiv(width, magnitude(width, x), magnitude(width, y));
    if slt(width, x, 0) == slt(width, y, 0) {
        quotient
    } else {
        neg(width, quotient)
    }
}

/// The remainder that belongs to `sdiv`, which has the sign of `x`; `x` where `y` is 0.
#[tactic(auto, using(crate::proofs::DivisionLaws::srem_low, crate::proofs::DivisionLaws::srem_high))]
pub fn srem(width: u32, x: u64, y: u64) -> u64
    requires low { 1 ≤ width }
    requires high { width ≤ 64 }
    requires left { x < 2 ^ width }
    requires right { y < 2 ^ width }
    ensures value { result ≡ srem_of width x y }
    ensures word { result < 2 ^ width }
{
    let remainder = urem(width, magnitude(width, x), magnitude(width, y));
    if slt(width, x, 0) {
        neg(width, remainder)
    } else {
        remainder
    }
}
