ghost use Rattle.std.specs.Prelude.{◌≡◌, ◌+◌, ◌≤◌, ◌<◌, ℕ, ℤ, pos, ◌+ℤ◌, not, ◌==◌, length, IfOk, IfSome};
ghost use Rattle.jvm_meaning.specs.Branches.{target, jump, branch_in, taken_if, with_stack, are_same, pop_same, tested, branched};
ghost use Rattle.jvm_state.specs.Stops.{Gives};

use crate::operation::ReferenceTest;
use class_file::Code;
use jvm_state::{Halt, Reason, Stack, refuse};

/// A branch: its place, the bytes that it takes, its offset, and the length of the code.
#[derive(Clone, Copy)]
pub struct Branch {
    pub pc: u32,
    pub size: u32,
    pub offset: i32,
    pub length: u32,
}

/// The branch at a place of a method's code.
pub fn branch_in(code: &Code, offset: i32, size: u32, pc: u32) -> Branch
    requires { length code.now.bytes ≤ 65535 }
    ensures { result ≡ branch_in code.now offset size pc }
{
    let length = code.bytes.len() as u32;
    Branch {
        pc,
        size,
        offset,
        length,
    }
}

/// The place that a branch leads to; none exactly where it isn't in the code.
pub fn jump(branch: Branch) -> Option<u32>
    ensures place { result ≡ jump branch }
    ensures within { IfSome result (λ pc. pc < branch.length) }
{
    let place = i64::from(branch.pc) + i64::from(branch.offset);
    if 0 <= place && place < i64::from(branch.length) {
        Some(place as u32)
    } else {
        None
    }
}

/// The place that a branch leads to where it is taken, and the next one where it isn't.
pub fn taken_if(taken: bool, branch: Branch) -> Result<u32, Halt>
    requires { branch.pc + branch.size ≤ branch.length }
    ensures place { Gives (λ pc. pc) result (taken_if taken branch) }
    ensures within { IfOk result (λ pc. pc ≤ branch.length) }
{
    if !taken {
        return Ok(branch.pc + branch.size);
    }
    match jump(branch) {
        Some(place) => Ok(place),
        None => refuse(Reason::BadCode),
    }
}

fn are_same(first: Option<u32>, second: Option<u32>) -> bool
    ensures { result ≡ are_same first second }
{
    match (first, second) {
        (None, None) => true,
        (Some(first), Some(second)) => first == second,
        _ => false,
    }
}

/// Takes two references, and tells whether they are the same.
fn pop_same<I: Copy, L: Copy>(stack: &mut Stack<I, L>) -> Result<bool, Halt>
    ensures { Gives (λ same. (same, stack.new)) result (pop_same stack.old) }
{
    let second = stack.pop_reference()?;
    let first = stack.pop_reference()?;
    Ok(are_same(first, second))
}

/// Takes the references that a test looks at, and tells whether it holds.
fn tested<I: Copy, L: Copy>(test: ReferenceTest, stack: &mut Stack<I, L>) -> Result<bool, Halt>
    ensures { Gives (λ holds. (holds, stack.new)) result (tested test stack.old) }
{
    match test {
        ReferenceTest::Same => pop_same(stack),
        ReferenceTest::NotSame => Ok(!pop_same(stack)?),
        ReferenceTest::Null => Ok(stack.pop_reference()?.is_none()),
        ReferenceTest::NotNull => Ok(stack.pop_reference()?.is_some()),
    }
}

/// if_acmpeq, if_acmpne, ifnull, ifnonnull: the place where a run goes on.
pub fn branched<I: Copy, L: Copy>(
    test: ReferenceTest,
    branch: Branch,
    stack: &mut Stack<I, L>,
) -> Result<u32, Halt>
    requires { branch.pc + branch.size ≤ branch.length }
    ensures place { Gives (λ pc. (pc, stack.new)) result (branched test branch stack.old) }
    ensures within { IfOk result (λ pc. pc ≤ branch.length) }
{
    let taken = tested(test, stack)?;
    taken_if(taken, branch)
}
