//! Sums, differences, products and negation modulo `2 ^ width`.

ghost use Rattle.std.specs.Prelude.{◌≡◌, ℕ, ◌^◌, ◌<◌, ◌≤◌};
ghost use Rattle.bv_words.specs.Words.{minus as minus_of, neg as neg_of, plus as plus_of, times as times_of};

use crate::cuts::chop;

/// The word of minus `x`.
#[tactic(auto, using(crate::proofs::CodeLemmas::neg_is))]
pub fn neg(width: u32, x: u64) -> u64
    requires low { 1 ≤ width }
    requires high { width ≤ 64 }
    requires word { x < 2 ^ width }
    ensures value { result ≡ neg_of width x }
    ensures word { result < 2 ^ width }
{
    chop(width, 0u64.wrapping_sub(x))
}

/// The sum of `x` and `y` modulo `2 ^ width`.
#[tactic(auto, using(crate::proofs::CodeLemmas::plus_is))]
pub fn plus(width: u32, x: u64, y: u64) -> u64
    requires low { 1 ≤ width }
    requires high { width ≤ 64 }
    ensures value { result ≡ plus_of width x y }
    ensures word { result < 2 ^ width }
{
    chop(width, x.wrapping_add(y))
}

/// The difference of `x` and `y` modulo `2 ^ width`.
#[tactic(auto, using(crate::proofs::CodeLemmas::minus_is))]
pub fn minus(width: u32, x: u64, y: u64) -> u64
    requires low { 1 ≤ width }
    requires high { width ≤ 64 }
    requires left { x < 2 ^ width }
    requires right { y < 2 ^ width }
    ensures value { result ≡ minus_of width x y }
    ensures word { result < 2 ^ width }
{
    chop(width, x.wrapping_sub(y))
}

/// The product of `x` and `y` modulo `2 ^ width`.
#[tactic(auto, using(crate::proofs::CodeLemmas::times_is))]
pub fn times(width: u32, x: u64, y: u64) -> u64
    requires low { 1 ≤ width }
    requires high { width ≤ 64 }
    ensures value { result ≡ times_of width x y }
    ensures word { result < 2 ^ width }
{
    chop(width, x.wrapping_mul(y))
}
