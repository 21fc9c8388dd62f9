/// When to take all decisions back: after numbers of conflicts that follow Luby's sequence, by Knuth's rule of
/// reluctant doubling. Nothing rests on it, and no clause speaks of it.
#[derive(Drop)]
pub struct Restarts {
    // The pair of the rule, whose second number is the sequence's next.
    turn: u64,
    length: u64,
    // How many conflicts are left until the next restart.
    left: u64,
}

// How many conflicts a one of the sequence stands for.
const UNIT: u64 = 64;

impl Restarts {
    /// The beginning of the sequence.
    pub fn new() -> Restarts {
        Restarts {
            turn: 1,
            length: 1,
            left: UNIT,
        }
    }

    /// Counts a conflict, and tells whether to restart after it.
    pub fn is_due(&mut self) -> bool {
        if self.left > 1 {
            self.left -= 1;
            return false;
        }
        if self.turn & self.turn.wrapping_neg() == self.length {
            self.turn = self.turn.saturating_add(1);
            self.length = 1;
        } else {
            self.length = self.length.saturating_mul(2);
        }
        self.left = self.length.saturating_mul(UNIT);
        true
    }
}
