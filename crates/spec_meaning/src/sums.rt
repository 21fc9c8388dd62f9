//! Sums of any number of arguments.

ghost use Rattle.std.specs.Prelude.{◌≡◌, ℤ, pos, ◌+ℤ◌, ◌-ℤ◌, neg_ℤ, ◌≤ℤ◌, ◌^◌};
ghost use Rattle.spec_meaning.specs.Table.{applied};
ghost use Rattle.spec_meaning.specs.Checks.{narrow};
ghost use Rattle.spec_meaning.specs.WideSums.{whole};

use crate::operand::Operand;
use crate::value::Why;
use spec_form::Builtin;

/// A sum that may leave 128 bits on the way: `low` and `turns` times 2^128.
#[derive(Clone, Copy)]
struct WideSum {
    low: i128,
    turns: i64,
}

impl WideSum {
    /// The sum as a number; TooWide exactly where it is none of 128 bits.
    #[tactic(auto, using(crate::proofs::WideSums::within, crate::proofs::WideSums::beyond))]
    fn narrow<'a>(self) -> Result<Operand<'a>, Why>
        ensures { result ≡ narrow (whole self.low self.turns) }
    {
        if self.turns == 0 {
            Ok(Operand::of_number(self.low))
        } else {
            Err(Why::TooWide)
        }
    }
}

/// The sum with another number.
#[tactic(auto, using(crate::proofs::WideSums::one_more))]
fn more(low: i128, turns: i64, number: i128) -> WideSum
    requires low { neg_ℤ (pos (2 ^ 62)) ≤ℤ turns }
    requires high { turns ≤ℤ pos (2 ^ 62) }
    ensures value { whole result.low result.turns ≡ whole low turns +ℤ number }
    ensures fewest { (turns -ℤ pos 1) ≤ℤ result.turns }
    ensures most { result.turns ≤ℤ (turns +ℤ pos 1) }
{
    let (low, turn) = added(low, number);
    WideSum {
        low,
        turns: turns + turn,
    }
}

/// The sum of two numbers, as a number and how often 2^128 is to be added to it.
#[tactic(auto, unfolding(crate::specs::WideSums::whole))]
fn added(first: i128, second: i128) -> (i128, i64)
    ensures value { whole result.0 result.1 ≡ first +ℤ second }
    ensures low { neg_ℤ (pos 1) ≤ℤ result.1 }
    ensures high { result.1 ≤ℤ pos 1 }
{
    match first.checked_add(second) {
        Some(sum) => (sum, 0),
        None if second >= 0 => (first + i128::MIN + second + i128::MIN, 1),
        None => (first - i128::MIN + second - i128::MIN, -1),
    }
}

/// The whole sum, which alone must fit; that of some of the numbers may not.
#[tactic(auto, using(crate::proofs::WideSums::none_yet))]
pub(crate) fn sum<'a>(values: &[Operand<'a>]) -> Result<Operand<'a>, Why>
    ensures { result ≡ applied Builtin.Sum values.now }
{
    let mut sum = WideSum { low: 0, turns: 0 };
    for value in values {
        let number = value.number()?;
        sum = more(sum.low, sum.turns, number);
    }
    sum.narrow()
}
