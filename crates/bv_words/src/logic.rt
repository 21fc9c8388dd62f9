//! Operations bit by bit. Those on two words are the same at every width, and give a word of the width
//! where `x` and `y` are such words.

ghost use Rattle.std.specs.Prelude.{◌≡◌, ℕ, ◌^◌, ◌<◌, ◌≤◌, bit_and, bit_or, bit_xor};
ghost use Rattle.bv_words.specs.Words.{bit_not};

use crate::cuts::mask;

/// Each of the `width` bits of `x` turned.
#[tactic(auto, unfolding(crate::specs::Words::bit_not), using(crate::proofs::Bounds::not_below))]
pub fn not(width: u32, x: u64) -> u64
    requires low { 1 ≤ width }
    requires high { width ≤ 64 }
    requires word { x < 2 ^ width }
    ensures value { result ≡ bit_not width x }
    ensures word { result < 2 ^ width }
{
    x ^ mask(width)
}

/// The bits that are 1 in both `x` and `y`.
#[tactic(auto, using(crate::proofs::Bounds::and_below))]
pub fn and(width: u32, x: u64, y: u64) -> u64
    ensures value { result ≡ bit_and x y }
    ensures word { x < 2 ^ width → result < 2 ^ width }
{
    x & y
}

/// The bits that are 1 in `x`, in `y` or in both.
#[tactic(auto, using(std::proofs::lemmas::Nat::or_lt))]
pub fn or(width: u32, x: u64, y: u64) -> u64
    ensures value { result ≡ bit_or x y }
    ensures word { x < 2 ^ width → y < 2 ^ width → result < 2 ^ width }
{
    x | y
}

/// The bits that are 1 in one of `x` and `y`, and not in both.
#[tactic(auto, using(std::proofs::lemmas::Nat::xor_lt))]
pub fn xor(width: u32, x: u64, y: u64) -> u64
    ensures value { result ≡ bit_xor x y }
    ensures word { x < 2 ^ width → y < 2 ^ width → result < 2 ^ width }
{
    x ^ y
}
