//! The functions on arrays of words: each is its line of the table.

ghost use Rattle.std.specs.Prelude.{◌≡◌, ◌<◌, ◌≤◌, ◌^◌, nat_le, ℕ, pos, IfOk, MatchResult, [], ◌∷◌, ◌++◌, Ok, Err, map, length, slice_get, slice_set, option_copied};
ghost use Rattle.spec_meaning.specs.declared.value.Value.TheVariants.{List as Numbers};
ghost use Rattle.spec_meaning.specs.Table.{applied, least_width, place_in, element, written};
ghost use Rattle.spec_meaning.specs.Checks.{array_length, array, from_1_to as from_1_to_of};
ghost use Rattle.spec_meaning.specs.Faults.{Gives};
ghost use Rattle.bv_words.specs.Words.{chop_wide as chop_wide_of};

use crate::checks::{check, chopped, from_1_to, width};
use crate::fault::Fault;
use crate::operand::Operand;
use crate::value::Why;
use bv_words::chop_wide;
use spec_form::Builtin;
use sqlite_items::Items;
use std::alloc::{AllocError, Global};

/// The number of elements of an array, from 1 to 65,536; BadWidth exactly where the number is another.
pub fn length_of(number: i128) -> Result<u32, Why>
    ensures value { result ≡ from_1_to_of 65536 number }
    ensures range { IfOk result (λ n. (1 ≤ n) × (n ≤ 65536)) }
{
    from_1_to(65536, number)
}

/// The number of elements of an array.
fn array_length(len: &Operand) -> Result<u32, Why>
    ensures value { result ≡ array_length len.now }
    ensures range { IfOk result (λ n. (1 ≤ n) × (n ≤ 65536)) }
{
    length_of(len.number()?)
}

/// The elements of an array of so many; BadLength exactly where a list has another number of them.
fn array<'b>(len: u32, a: &'b Operand) -> Result<&'b [i128], Why>
    ensures { MatchResult result (λ numbers. array len a.now ≡ Ok numbers.now) (λ why. array len a.now ≡ Err why) }
{
    let numbers = a.list()?;
    check(numbers.len() == len as usize, Why::BadLength)?;
    Ok(numbers)
}

/// Whether an array of so many elements has no more places than indexes of a width.
#[tactic(auto, using(std::proofs::lemmas::Nat::one_shl))]
fn spans(width: u32, len: u32) -> bool
    requires { width ≤ 16 }
    ensures { result ≡ nat_le len (2 ^ width) }
{
    len <= 1 << width
}

/// The least width of an index into an array of so many elements, at most 16.
#[tactic(auto, using(crate::proofs::Widths::found, crate::proofs::Widths::next, crate::proofs::Widths::last))]
pub fn least_width(len: u32) -> u32
    ensures value { result ≡ least_width len 0 16 }
    ensures range { result ≤ 16 }
{
    for width in 0..16 {
        if spans(width, len) {
            return width;
        }
    }
    16
}

/// The place of an index in an array of so many elements, which may lie past its end: the index, of any sign, modulo
/// the least power of two that isn't below their number.
#[tactic(auto, unfolding(crate::specs::Table::place_in, bv_words::specs::Words::chop_wide))]
pub fn place_in(len: u32, index: i128) -> usize
    ensures { result ≡ place_in len index }
{
    index.rem_euclid(1i128 << least_width(len)) as usize
}

pub(crate) fn bv_array_read<'a>(
    es: &Operand<'a>,
    len: &Operand<'a>,
    i: &Operand<'a>,
    a: &Operand<'a>,
) -> Result<Operand<'a>, Why>
    ensures { result ≡ applied Builtin.BvArrayRead (es.now ∷ len.now ∷ i.now ∷ a.now ∷ []) }
{
    let width = width(es)?;
    let len = array_length(len)?;
    let index = i.number()?;
    let numbers = array(len, a)?;
    Ok(Operand::of_word(element(width, numbers, place_in(len, index))))
}

/// An element chopped, and 0 past the end.
fn element(width: u32, numbers: &[i128], place: usize) -> u64
    requires { (1 ≤ width) × (width ≤ 64) }
    ensures { result ≡ element width (slice_get numbers.now place) }
{
    match numbers.get(place) {
        Some(number) => chop_wide(width, *number),
        None => 0,
    }
}

pub(crate) fn bv_array_write<'a>(
    alloc: Global,
    es: &Operand<'a>,
    len: &Operand<'a>,
    i: &Operand<'a>,
    v: &Operand<'a>,
    a: &Operand<'a>,
) -> Result<Operand<'a>, Fault<Why>>
    ensures { Gives (λ value. value) result (applied Builtin.BvArrayWrite (es.now ∷ len.now ∷ i.now ∷ v.now ∷ a.now ∷ [])) }
{
    let width = width(es)?;
    let len = array_length(len)?;
    let index = i.number()?;
    let word = chopped(width, v)?;
    let numbers = array(len, a)?;
    let numbers = written(alloc, width, numbers, place_in(len, index), word)?;
    Ok(Operand::shared(alloc, numbers)?)
}

/// All elements chopped, and a word at a place, if there is such a place.
#[tactic(auto, using(std::proofs::lemmas::List::set_past))]
fn written(
    alloc: Global,
    width: u32,
    numbers: &[i128],
    place: usize,
    word: u64,
) -> Result<Items<i128>, AllocError>
    requires { (1 ≤ width) × (width ≤ 64) }
    ensures { IfOk result (λ items. items ≡ written width numbers.now place word) }
{
    let mut items = all_chopped(alloc, width, numbers)?;
    if place < items.len() {
        items.set(place, i128::from(word));
    }
    Ok(items)
}

fn all_chopped(alloc: Global, width: u32, numbers: &[i128]) -> Result<Items<i128>, AllocError>
    requires { (1 ≤ width) × (width ≤ 64) }
    ensures { IfOk result (λ items. items ≡ map (λ z. pos (chop_wide_of width z)) numbers.now) }
{
    let mut items = Items::new(alloc);
    for number in numbers {
        items.push(i128::from(chop_wide(width, *number)))?;
    }
    Ok(items)
}
