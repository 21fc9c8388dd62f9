//! Arithmetic on words of 1 to 64 bits.
//!
//! A word of a width is a `u64` below `2 ^ width`. The functions here compute on such words by shifts
//! and masks, and each is proved to be its line of `specs/Words.antt`, which says the same over whole
//! numbers. The interpreter, the evaluator, the graph of word operations and its translation into
//! clauses all cite these lines, so that a word operation means the same in each of them.
//!
//! - `cuts`: parts of words, `chop`, `chop_wide`, `slice`, `cat`, `sx` and `mask`
//! - `arithmetic`: `neg`, `plus`, `minus` and `times`
//! - `division`: `udiv`, `urem`, `sdiv`, `srem` and `magnitude`
//! - `logic`: `not`, `and`, `or` and `xor`
//! - `order`: `ult` and `slt`
//! - `shifts`: `shl`, `shr`, `rotate_left` and `rotate_right`
//!
//! No function here allocates, and none has a refusal: what it needs is its `requires`. For callers'
//! proofs, `proofs/Bounds.antt` has a bound for each word. `proofs/Laws.antt`, `WordLaws.antt` and
//! `PartLaws.antt` have the equations that rewriting words rests on; `ShiftLaws.antt`, `DivisionLaws.antt` and
//! `WidthLaws.antt` those by which shifts, rotations, signed division and low bits are made of other words.
#![tactic(auto)]

mod arithmetic;
mod cuts;
mod division;
mod logic;
mod order;
mod shifts;

pub use arithmetic::{minus, neg, plus, times};
pub use cuts::{cat, chop, chop_wide, mask, slice, sx};
pub use division::{magnitude, sdiv, srem, udiv, urem};
pub use logic::{and, not, or, xor};
pub use order::{slt, ult};
pub use shifts::{rotate_left, rotate_right, shl, shr};
