//! The functions on words: each is its line of the table.

ghost use Rattle.std.specs.Prelude.{◌≡◌, ◌≤◌, ◌<◌, ◌^◌, ◌-◌, ◌+◌, ℕ, pos, IfOk, [], ◌∷◌, Ok, bit_and, bit_or, bit_xor};
ghost use Rattle.spec_meaning.specs.Table.{applied, word_in, words, bits, places, sliced, amount_in, rotated, shift_in};
ghost use Rattle.bv_words.specs.Words as line;

use crate::checks::{below, check, chopped, width};
use crate::operand::Operand;
use crate::value::Why;
use bv_words::{
    and, cat, chop_wide, minus, neg, not, or, plus, rotate_left, rotate_right, shl, shr, sx, times,
    udiv, ult, urem, xor,
};
use spec_form::Builtin;

/// A width and a word of it.
fn word_in(w: &Operand, x: &Operand) -> Result<(u32, u64), Why>
    ensures value { result ≡ word_in w.now x.now }
    ensures range { IfOk result (λ r. (1 ≤ r.0) × (r.0 ≤ 64) × (r.1 < 2 ^ r.0)) }
{
    let width = width(w)?;
    let word = chopped(width, x)?;
    Ok((width, word))
}

/// A width and two words of it.
fn words(w: &Operand, x: &Operand, y: &Operand) -> Result<(u32, u64, u64), Why>
    ensures value { result ≡ words w.now x.now y.now }
    ensures range { IfOk result (λ r. (1 ≤ r.0) × (r.0 ≤ 64) × (r.1 < 2 ^ r.0) × (r.2 < 2 ^ r.0)) }
{
    let width = width(w)?;
    let first = chopped(width, x)?;
    let second = chopped(width, y)?;
    Ok((width, first, second))
}

/// Two places with `0 <= low <= high <= 63`; BadPlace exactly where they are others.
pub fn places(high: i128, low: i128) -> Result<(u32, u32), Why>
    ensures value { result ≡ places high low }
    ensures range { IfOk result (λ p. (p.1 ≤ p.0) × (p.0 ≤ 63)) }
{
    let high = below(64, high)?;
    let low = below(high + 1, low)?;
    Ok((high as u32, low as u32))
}

/// Bits low to high of any number, both included, as a word.
#[tactic(auto, using(crate::proofs::WordLemmas::shifted_down))]
pub fn bits(high: u32, low: u32, x: i128) -> u64
    requires { (low ≤ high) × (high ≤ 63) }
    ensures { result ≡ bits high low x }
{
    chop_wide(high - low + 1, x >> low)
}

fn sliced<'a>(high: &Operand<'a>, low: &Operand<'a>, x: &Operand<'a>) -> Result<Operand<'a>, Why>
    ensures { result ≡ sliced high.now low.now x.now }
{
    let high = high.number()?;
    let low = low.number()?;
    let (high, low) = places(high, low)?;
    Ok(Operand::of_word(bits(high, low, x.number()?)))
}

/// The amount of a rotation, of any sign, modulo a width.
#[tactic(auto, unfolding(crate::specs::Table::amount_in))]
pub fn amount_in(width: u32, amount: i128) -> u64
    requires { (1 ≤ width) × (width ≤ 64) }
    ensures { result ≡ amount_in width amount }
{
    amount.rem_euclid(i128::from(width)) as u64
}

/// A word turned to the left by an amount.
fn turned_left<'a>(width: u32, amount: &Operand<'a>, x: &Operand<'a>) -> Result<Operand<'a>, Why>
    requires { (1 ≤ width) × (width ≤ 64) }
    ensures { result ≡ rotated line.rotate_left width amount.now x.now }
{
    let amount = amount.number()?;
    let word = chopped(width, x)?;
    Ok(Operand::of_word(rotate_left(width, amount_in(width, amount), word)))
}

/// A word turned to the right by an amount.
fn turned_right<'a>(width: u32, amount: &Operand<'a>, x: &Operand<'a>) -> Result<Operand<'a>, Why>
    requires { (1 ≤ width) × (width ≤ 64) }
    ensures { result ≡ rotated line.rotate_right width amount.now x.now }
{
    let amount = amount.number()?;
    let word = chopped(width, x)?;
    Ok(Operand::of_word(rotate_right(width, amount_in(width, amount), word)))
}

/// A width, a word of it, and an amount below the width.
fn shift_in(w: &Operand, x: &Operand, b: &Operand) -> Result<(u32, u64, u64), Why>
    ensures value { result ≡ shift_in w.now x.now b.now }
    ensures range { IfOk result (λ r. (1 ≤ r.0) × (r.0 ≤ 64) × (r.1 < 2 ^ r.0)) }
{
    let (width, word) = word_in(w, x)?;
    let amount = below(width as usize, b.number()?)?;
    Ok((width, word, amount as u64))
}

pub(crate) fn bvchop<'a>(w: &Operand<'a>, x: &Operand<'a>) -> Result<Operand<'a>, Why>
    ensures { result ≡ applied Builtin.BvChop (w.now ∷ x.now ∷ []) }
{
    let (_, x) = word_in(w, x)?;
    Ok(Operand::of_word(x))
}

pub(crate) fn slice<'a>(
    high: &Operand<'a>,
    low: &Operand<'a>,
    x: &Operand<'a>,
) -> Result<Operand<'a>, Why>
    ensures { result ≡ applied Builtin.Slice (high.now ∷ low.now ∷ x.now ∷ []) }
{
    sliced(high, low, x)
}

pub(crate) fn getbit<'a>(b: &Operand<'a>, x: &Operand<'a>) -> Result<Operand<'a>, Why>
    ensures { result ≡ applied Builtin.GetBit (b.now ∷ x.now ∷ []) }
{
    sliced(b, b, x)
}

pub(crate) fn bvcat<'a>(
    hs: &Operand<'a>,
    h: &Operand<'a>,
    ls: &Operand<'a>,
    l: &Operand<'a>,
) -> Result<Operand<'a>, Why>
    ensures { result ≡ applied Builtin.BvCat (hs.now ∷ h.now ∷ ls.now ∷ l.now ∷ []) }
{
    let (high_width, high) = word_in(hs, h)?;
    let low_width = width(ls)?;
    check(high_width + low_width <= 64, Why::BadWidth)?;
    let low = chopped(low_width, l)?;
    Ok(Operand::of_word(cat(high_width, high, low_width, low)))
}

pub(crate) fn bvplus<'a>(
    w: &Operand<'a>,
    x: &Operand<'a>,
    y: &Operand<'a>,
) -> Result<Operand<'a>, Why>
    ensures { result ≡ applied Builtin.BvPlus (w.now ∷ x.now ∷ y.now ∷ []) }
{
    let (width, x, y) = words(w, x, y)?;
    Ok(Operand::of_word(plus(width, x, y)))
}

pub(crate) fn bvminus<'a>(
    w: &Operand<'a>,
    x: &Operand<'a>,
    y: &Operand<'a>,
) -> Result<Operand<'a>, Why>
    ensures { result ≡ applied Builtin.BvMinus (w.now ∷ x.now ∷ y.now ∷ []) }
{
    let (width, x, y) = words(w, x, y)?;
    Ok(Operand::of_word(minus(width, x, y)))
}

pub(crate) fn bvmult<'a>(
    w: &Operand<'a>,
    x: &Operand<'a>,
    y: &Operand<'a>,
) -> Result<Operand<'a>, Why>
    ensures { result ≡ applied Builtin.BvMult (w.now ∷ x.now ∷ y.now ∷ []) }
{
    let (width, x, y) = words(w, x, y)?;
    Ok(Operand::of_word(times(width, x, y)))
}

pub(crate) fn bvdiv<'a>(
    w: &Operand<'a>,
    x: &Operand<'a>,
    y: &Operand<'a>,
) -> Result<Operand<'a>, Why>
    ensures { result ≡ applied Builtin.BvDiv (w.now ∷ x.now ∷ y.now ∷ []) }
{
    let (width, x, y) = words(w, x, y)?;
    Ok(Operand::of_word(udiv(width, x, y)))
}

pub(crate) fn bvmod<'a>(
    w: &Operand<'a>,
    x: &Operand<'a>,
    y: &Operand<'a>,
) -> Result<Operand<'a>, Why>
    ensures { result ≡ applied Builtin.BvMod (w.now ∷ x.now ∷ y.now ∷ []) }
{
    let (width, x, y) = words(w, x, y)?;
    Ok(Operand::of_word(urem(width, x, y)))
}

pub(crate) fn bvuminus<'a>(w: &Operand<'a>, x: &Operand<'a>) -> Result<Operand<'a>, Why>
    ensures { result ≡ applied Builtin.BvUMinus (w.now ∷ x.now ∷ []) }
{
    let (width, x) = word_in(w, x)?;
    Ok(Operand::of_word(neg(width, x)))
}

pub(crate) fn bvand<'a>(
    w: &Operand<'a>,
    x: &Operand<'a>,
    y: &Operand<'a>,
) -> Result<Operand<'a>, Why>
    ensures { result ≡ applied Builtin.BvAnd (w.now ∷ x.now ∷ y.now ∷ []) }
{
    let (width, x, y) = words(w, x, y)?;
    Ok(Operand::of_word(and(width, x, y)))
}

pub(crate) fn bvor<'a>(
    w: &Operand<'a>,
    x: &Operand<'a>,
    y: &Operand<'a>,
) -> Result<Operand<'a>, Why>
    ensures { result ≡ applied Builtin.BvOr (w.now ∷ x.now ∷ y.now ∷ []) }
{
    let (width, x, y) = words(w, x, y)?;
    Ok(Operand::of_word(or(width, x, y)))
}

pub(crate) fn bvxor<'a>(
    w: &Operand<'a>,
    x: &Operand<'a>,
    y: &Operand<'a>,
) -> Result<Operand<'a>, Why>
    ensures { result ≡ applied Builtin.BvXor (w.now ∷ x.now ∷ y.now ∷ []) }
{
    let (width, x, y) = words(w, x, y)?;
    Ok(Operand::of_word(xor(width, x, y)))
}

pub(crate) fn bvnot<'a>(w: &Operand<'a>, x: &Operand<'a>) -> Result<Operand<'a>, Why>
    ensures { result ≡ applied Builtin.BvNot (w.now ∷ x.now ∷ []) }
{
    let (width, x) = word_in(w, x)?;
    Ok(Operand::of_word(not(width, x)))
}

pub(crate) fn bvlt<'a>(
    w: &Operand<'a>,
    x: &Operand<'a>,
    y: &Operand<'a>,
) -> Result<Operand<'a>, Why>
    ensures { result ≡ applied Builtin.BvLt (w.now ∷ x.now ∷ y.now ∷ []) }
{
    let (width, x, y) = words(w, x, y)?;
    Ok(Operand::truth(ult(width, x, y)))
}

pub(crate) fn bvif<'a>(
    w: &Operand<'a>,
    test: &Operand<'a>,
    x: &Operand<'a>,
    y: &Operand<'a>,
) -> Result<Operand<'a>, Why>
    ensures { result ≡ applied Builtin.BvIf (w.now ∷ test.now ∷ x.now ∷ y.now ∷ []) }
{
    let (_, x, y) = words(w, x, y)?;
    Ok(Operand::of_word(if test.is_nil() { y } else { x }))
}

pub(crate) fn bvsx<'a>(
    new: &Operand<'a>,
    old: &Operand<'a>,
    x: &Operand<'a>,
) -> Result<Operand<'a>, Why>
    ensures { result ≡ applied Builtin.BvSx (new.now ∷ old.now ∷ x.now ∷ []) }
{
    let new_width = width(new)?;
    let old_width = width(old)?;
    check(old_width <= new_width, Why::BadWidth)?;
    let word = chopped(old_width, x)?;
    Ok(Operand::of_word(sx(new_width, old_width, word)))
}

pub(crate) fn leftrotate<'a>(
    w: &Operand<'a>,
    amount: &Operand<'a>,
    x: &Operand<'a>,
) -> Result<Operand<'a>, Why>
    ensures { result ≡ applied Builtin.LeftRotate (w.now ∷ amount.now ∷ x.now ∷ []) }
{
    turned_left(width(w)?, amount, x)
}

pub(crate) fn rightrotate<'a>(
    w: &Operand<'a>,
    amount: &Operand<'a>,
    x: &Operand<'a>,
) -> Result<Operand<'a>, Why>
    ensures { result ≡ applied Builtin.RightRotate (w.now ∷ amount.now ∷ x.now ∷ []) }
{
    turned_right(width(w)?, amount, x)
}

pub(crate) fn leftrotate32<'a>(amount: &Operand<'a>, x: &Operand<'a>) -> Result<Operand<'a>, Why>
    ensures { result ≡ applied Builtin.LeftRotate32 (amount.now ∷ x.now ∷ []) }
{
    turned_left(32, amount, x)
}

pub(crate) fn rightrotate32<'a>(amount: &Operand<'a>, x: &Operand<'a>) -> Result<Operand<'a>, Why>
    ensures { result ≡ applied Builtin.RightRotate32 (amount.now ∷ x.now ∷ []) }
{
    turned_right(32, amount, x)
}

pub(crate) fn bvshl<'a>(
    w: &Operand<'a>,
    x: &Operand<'a>,
    b: &Operand<'a>,
) -> Result<Operand<'a>, Why>
    ensures { result ≡ applied Builtin.BvShl (w.now ∷ x.now ∷ b.now ∷ []) }
{
    let (width, x, amount) = shift_in(w, x, b)?;
    Ok(Operand::of_word(shl(width, x, amount)))
}

pub(crate) fn bvshr<'a>(
    w: &Operand<'a>,
    x: &Operand<'a>,
    b: &Operand<'a>,
) -> Result<Operand<'a>, Why>
    ensures { result ≡ applied Builtin.BvShr (w.now ∷ x.now ∷ b.now ∷ []) }
{
    let (width, x, amount) = shift_in(w, x, b)?;
    Ok(Operand::of_word(shr(width, x, amount)))
}
