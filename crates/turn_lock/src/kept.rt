ghost use Rattle.std.specs.Prelude.{ℕ, List};

/// A value that a `TurnLock` can hold.
///
/// What the two members say is the user's choice: a lock promises that the opening stays, and that
/// the list of entries only grows, by those that the holders say they added.
pub trait Kept: Drop {
    /// What of a value stays the same in the lock. A type of proofs, of which no value is made.
    type Opening;

    /// What is added to a value in turns.
    type Entry;

    ghost opening: { Self → Self.Opening };

    /// The entries in the order in which they were added, each with the number of its seat.
    ghost entries: { Self → List (ℕ × Self.Entry) };
}
