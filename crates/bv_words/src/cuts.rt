//! Parts of words: the lowest bits, bits from the middle, two words joined, and sign extension.

ghost use Rattle.std.specs.Prelude.{◌≡◌, ℕ, ◌+◌, ◌-◌, ◌^◌, ◌<◌, ◌≤◌};
ghost use Rattle.bv_words.specs.Words.{chop as chop_of, chop_wide as chop_wide_of, slice as slice_of, cat as cat_of, sx as sx_of};

/// The word of `width` bits that are all 1, which is the greatest one.
#[tactic(auto, using(crate::proofs::CodeLemmas::mask_is))]
pub fn mask(width: u32) -> u64
    requires low { 1 ≤ width }
    requires high { width ≤ 64 }
    ensures { result ≡ 2 ^ width - 1 }
{
    u64::MAX >> (64 - width)
}

/// The least word of `width` bits whose top bit is 1.
#[tactic(auto, using(std::proofs::lemmas::Nat::one_shl))]
pub(crate) fn half(width: u32) -> u64
    requires low { 1 ≤ width }
    requires high { width ≤ 64 }
    ensures { result ≡ 2 ^ (width - 1) }
{
    1 << (width - 1)
}

/// The lowest `width` bits of any `x`.
#[tactic(auto, using(crate::proofs::CodeLemmas::chop_is, crate::proofs::Bounds::chop_below))]
pub fn chop(width: u32, x: u64) -> u64
    requires low { 1 ≤ width }
    requires high { width ≤ 64 }
    ensures value { result ≡ chop_of width x }
    ensures word { result < 2 ^ width }
{
    x & mask(width)
}

/// The lowest `width` bits of any integer `x`: its remainder modulo `2 ^ width`, never below 0.
#[tactic(auto, unfolding(crate::specs::Words::chop_wide), using(crate::proofs::Bounds::chop_wide_below))]
pub fn chop_wide(width: u32, x: i128) -> u64
    requires low { 1 ≤ width }
    requires high { width ≤ 64 }
    ensures value { result ≡ chop_wide_of width x }
    ensures word { result < 2 ^ width }
{
    x.rem_euclid(1i128 << width) as u64
}

/// Bits `low` to `high` of any `x`, both included and counted from the lowest, which is bit 0.
#[tactic(auto, unfolding(crate::specs::Words::slice))]
pub fn slice(high: u32, low: u32, x: u64) -> u64
    requires order { low ≤ high }
    requires within { high ≤ 63 }
    ensures value { result ≡ slice_of high low x }
    ensures word { result < 2 ^ (high - low + 1) }
{
    chop(high - low + 1, x >> low)
}

/// The word `h` of `high_width` bits above the word `l` of `low_width` bits.
#[tactic(auto, using(crate::proofs::CodeLemmas::cat_is, crate::proofs::Bounds::cat_word))]
pub fn cat(high_width: u32, h: u64, low_width: u32, l: u64) -> u64
    requires high { 1 ≤ high_width }
    requires low { 1 ≤ low_width }
    requires both { high_width + low_width ≤ 64 }
    requires front { h < 2 ^ high_width }
    requires back { l < 2 ^ low_width }
    ensures value { result ≡ cat_of high_width h low_width l }
    ensures word { result < 2 ^ (high_width + low_width) }
{
    (h << low_width) | l
}

/// The word of `new_width` bits that has the signed value of the word `x` of `old_width` bits.
#[tactic(auto, using(crate::proofs::CodeLemmas::sx_low, crate::proofs::CodeLemmas::sx_high, crate::proofs::CodeLemmas::top_fits, crate::proofs::CodeLemmas::ones_rise))]
pub fn sx(new_width: u32, old_width: u32, x: u64) -> u64
    requires low { 1 ≤ old_width }
    requires order { old_width ≤ new_width }
    requires high { new_width ≤ 64 }
    requires word { x < 2 ^ old_width }
    ensures value { result ≡ sx_of new_width old_width x }
    ensures word { result < 2 ^ new_width }
{
    if x < half(old_width) {
        x
    } else {
        x + (mask(new_width) - mask(old_width))
    }
}
