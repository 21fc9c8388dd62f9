ghost use Rattle.std.specs.Prelude.{◌≡◌, ◌+◌, ◌≤◌, ℕ, IfOk};
ghost use Rattle.jvm_meaning.specs.Branches.{next_place};
ghost use Rattle.jvm_state.specs.Stops.{Gives};

use crate::arithmetic::holds;
use jvm_meaning::{Branch, Condition, taken_if};
use jvm_state::{Halt, Stack};

/// The place where a run goes on behind a branch by numbers.
pub fn next_place(condition: Condition, branch: Branch, stack: &mut Stack) -> Result<u32, Halt>
    requires { branch.pc + branch.size ≤ branch.length }
    ensures place { Gives (λ pc. (pc, stack.new)) result (next_place condition branch stack.old) }
    ensures within { IfOk result (λ pc. pc ≤ branch.length) }
{
    match condition {
        Condition::IfZero(test) => {
            let number = stack.pop_int()?;
            taken_if(holds(test, number, 0), branch)
        }
        Condition::IfInts(test) => {
            let second = stack.pop_int()?;
            let first = stack.pop_int()?;
            taken_if(holds(test, first, second), branch)
        }
    }
}
