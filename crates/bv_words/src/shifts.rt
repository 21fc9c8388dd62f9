//! Shifts, whose amount isn't masked, and rotation, whose amount is taken modulo the width.

ghost use Rattle.std.specs.Prelude.{◌≡◌, ℕ, ◌^◌, ◌<◌, ◌≤◌};
ghost use Rattle.bv_words.specs.Words.{shl as shl_of, shr as shr_of, rotate_left as rotate_left_of, rotate_right as rotate_right_of};

use crate::cuts::chop;

/// `x` moved up by any `amount`; 0 where the amount isn't below the width.
#[tactic(auto, using(crate::proofs::CodeLemmas::shl_in, crate::proofs::CodeLemmas::shl_out, crate::proofs::Bounds::shl_below))]
pub fn shl(width: u32, x: u64, amount: u64) -> u64
    requires low { 1 ≤ width }
    requires high { width ≤ 64 }
    ensures value { result ≡ shl_of width x amount }
    ensures word { result < 2 ^ width }
{
    if amount < width as u64 {
        chop(width, x << amount)
    } else {
        0
    }
}

/// `x` moved down by any `amount`, with zeros coming in; 0 where the amount isn't below the width.
#[tactic(auto, using(crate::proofs::CodeLemmas::shr_in, crate::proofs::CodeLemmas::shr_out, crate::proofs::Bounds::shr_below))]
pub fn shr(width: u32, x: u64, amount: u64) -> u64
    requires low { 1 ≤ width }
    requires high { width ≤ 64 }
    ensures value { result ≡ shr_of width x amount }
    ensures word { x < 2 ^ width → result < 2 ^ width }
{
    if amount < width as u64 {
        x >> amount
    } else {
        0
    }
}

/// `x` turned up by any `amount` modulo the width: what leaves above comes in below.
#[tactic(auto, using(crate::proofs::CodeLemmas::rotate_zero, crate::proofs::CodeLemmas::rotate_is, crate::proofs::Bounds::rotate_word))]
pub fn rotate_left(width: u32, amount: u64, x: u64) -> u64
    requires low { 1 ≤ width }
    requires high { width ≤ 64 }
    requires word { x < 2 ^ width }
    ensures value { result ≡ rotate_left_of width amount x }
    ensures word { result < 2 ^ width }
{
    let turn = (amount % width as u64) as u32;
    if turn == 0 {
        x
    } else {
        chop(width, x << turn) | (x >> (width - turn))
    }
}

/// `x` turned down by any `amount` modulo the width: what leaves below comes in above.
#[tactic(auto, unfolding(crate::specs::Words::rotate_right))]
pub fn rotate_right(width: u32, amount: u64, x: u64) -> u64
    requires low { 1 ≤ width }
    requires high { width ≤ 64 }
    requires word { x < 2 ^ width }
    ensures value { result ≡ rotate_right_of width amount x }
    ensures word { result < 2 ^ width }
{
    let width_wide = u64::from(width);
    rotate_left(width, width_wide - amount % width_wide, x)
}
