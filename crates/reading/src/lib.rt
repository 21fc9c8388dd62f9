//! What every reader of a format here stands on. `specs/` has the words: readers, which give what stands
//! at the front of some bytes or the first fault; grammars, which say what texts spell a value; and that
//! a reader is the reader of a grammar. `proofs/` has the laws that join the two, word for word, and the
//! steps of a loop that reads so many. All of it takes any type of faults. The code is the two steps that
//! every reader makes.
#![tactic(auto)]

ghost use Rattle.std.specs.Prelude.{◌≡◌, ℕ, ◌-◌, length};
ghost use Rattle.reading.specs.Readers.{check};

/// Answers the fault unless the test holds.
pub fn check<E: Drop>(holds: bool, fault: E) -> Result<(), E>
    ensures { result ≡ check holds fault }
{
    if holds { Ok(()) } else { Err(fault) }
}

/// The offset of `rest` in a whole text of `end` bytes of which it is the last part.
pub fn offset(end: u32, rest: &[u8]) -> u32
    ensures { result ≡ end - length rest.now }
{
    (end as usize).saturating_sub(rest.len()) as u32
}
