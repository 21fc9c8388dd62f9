//! Comparisons of words, as plain and as signed numbers.

ghost use Rattle.std.specs.Prelude.{◌≡◌, ℕ, ◌^◌, ◌<◌, ◌≤◌, nat_lt};
ghost use Rattle.bv_words.specs.Words.{slt as slt_of};

use crate::cuts::half;

/// Whether `x` is below `y` as a plain number, which is the same at every width.
pub fn ult(width: u32, x: u64, y: u64) -> bool
    ensures { result ≡ nat_lt x y }
{
    x < y
}

/// Whether `x` is below `y`, both read in two's complement.
#[tactic(auto, using(crate::proofs::CodeLemmas::slt_both, crate::proofs::CodeLemmas::slt_apart))]
pub fn slt(width: u32, x: u64, y: u64) -> bool
    requires low { 1 ≤ width }
    requires high { width ≤ 64 }
    requires left { x < 2 ^ width }
    requires right { y < 2 ^ width }
    ensures { result ≡ slt_of width x y }
{
    let limit = half(width);
    if (x < limit) == (y < limit) {
        x < y
    } else {
        y < limit
    }
}
