ghost use Rattle.std.specs.Prelude.{◌≡◌, ◌<◌, ℕ, IfOk, Option, length};
ghost use Rattle.spec_meaning.specs.declared.value.Value.{Value as SpecValue};
ghost use Rattle.job_meaning.specs.declared.shown.Shown.{Shown as ShownThere};
ghost use Rattle.job_meaning.specs.Jobs.{Job as MeantJob, is_same, are_numbers};
ghost use Rattle.job_meaning.specs.Meant.{meant, IsJob};
ghost use Rattle.job_meaning.specs.Varying.{VaryingInputsDiffer};
ghost use Rattle.job_meaning.specs.Trying.{shown_by, compared, unless_same, value_or_shown, shown_at, tried, IsFound, ShownIsRight, TriedIsComplete};

use crate::job::Job;
use axe_io::{Budget, Input, inputs_are_counted};
use class_file::MethodId;
use jvm_run::Machine;
use jvm_state::{End, Reason, Seen};
use memory::Memory;
use spec_meaning::{SpecEnd, Value, Why, args_of, eval};
use std::alloc::Global;

/// What an input shows on which a method and a function don't agree.
#[derive(Debug, Drop)]
pub enum Shown {
    /// The run throws, or returns something else than the function's value.
    Differs {
        method: End,
        spec: Value,
    },
    /// The run is refused at this place.
    Refused {
        reason: Reason,
        method: MethodId,
        pc: u32,
    },
    /// The form at this offset has no value.
    Outside {
        at: u32,
        reason: Why,
    },
    /// The run passes its steps, frames or elements, or the evaluation its depth or work.
    Spends {
        budget: Budget,
    },
}

/// What an input shows, by a run of the machine; nothing exactly where method and function agree on it.
pub fn shown_at(
    alloc: Global,
    machine: &mut Machine,
    job: &Job<'_>,
    input: &Input,
) -> Result<Option<Shown>, Memory>
    requires { IsJob (meant job.now) }
    ensures { IfOk result (λ shown. shown ≡ shown_at (meant job.now) input.now) }
{
    let budgets = job.budgets;
    let end = machine.run(
        job.class,
        job.method,
        job.shape,
        input,
        budgets.steps,
        budgets.frames,
        budgets.elements,
    )?;
    let args = args_of(alloc, job.shape, input)?;
    let spec = eval(
        alloc,
        job.program,
        job.function,
        args.as_slice(),
        budgets.depth,
        budgets.work,
    )?;
    Ok(shown_by(end, spec))
}

/// What the two ends on an input show; the run comes before the evaluation, and both before the comparison.
fn shown_by(end: End, spec: SpecEnd) -> Option<Shown>
    ensures { result ≡ shown_by end spec }
{
    match end {
        End::Returned { seen } => match value_of(spec) {
            Ok(value) => unless_same(seen, value),
            Err(shown) => Some(shown),
        },
        End::Threw { kind, method, pc } => match value_of(spec) {
            Ok(spec) => Some(Shown::Differs {
                method: End::Threw { kind, method, pc },
                spec,
            }),
            Err(shown) => Some(shown),
        },
        End::Refused { reason, method, pc } => Some(Shown::Refused { reason, method, pc }),
        End::MoreSteps => Some(Shown::Spends {
            budget: Budget::Steps,
        }),
        End::MoreFrames => Some(Shown::Spends {
            budget: Budget::Frames,
        }),
        End::MoreElements => Some(Shown::Spends {
            budget: Budget::Elements,
        }),
    }
}

/// The value of an evaluation, or what it shows where it has none.
fn value_of(end: SpecEnd) -> Result<Value, Shown>
    ensures { (compare : SpecValue → Option ShownThere) → compared compare end ≡ value_or_shown compare result }
{
    match end {
        SpecEnd::Value(value) => Ok(value),
        SpecEnd::Outside { at, reason } => Err(Shown::Outside { at, reason }),
        SpecEnd::MoreDepth => Err(Shown::Spends {
            budget: Budget::Depth,
        }),
        SpecEnd::MoreWork => Err(Shown::Spends {
            budget: Budget::Work,
        }),
    }
}

fn unless_same(seen: Seen, value: Value) -> Option<Shown>
    ensures { result ≡ unless_same seen value }
{
    if is_same(&seen, &value) {
        return None;
    }
    Some(Shown::Differs {
        method: End::Returned { seen },
        spec: value,
    })
}

/// Whether what was observed is a value.
fn is_same(seen: &Seen, value: &Value) -> bool
    ensures { result ≡ is_same seen.now value.now }
{
    match (seen, value) {
        (Seen::Word(_, word), Value::Number(number)) => *number == i128::from(*word),
        (Seen::Items(_, words), Value::List(numbers)) => {
            are_numbers(words.as_slice(), numbers.as_slice())
        }
        _ => false,
    }
}

/// Whether words are the same numbers in order.
fn are_numbers(words: &[u64], numbers: &[i128]) -> bool
    ensures { result ≡ are_numbers words.now numbers.now }
{
    if words.len() != numbers.len() {
        return false;
    }
    for (at, word) in words.iter().enumerate() {
        if numbers[at] != i128::from(*word) {
            return false;
        }
    }
    true
}

/// What trying every input in counting order finds is right.
pub fn tried_is_right()
    ensures { (job : MeantJob) → IsFound job (tried job) }
{
    inputs_are_counted();
}

/// What one input shows is right: nothing exactly where method and function agree on it.
pub fn shown_is_right()
    ensures { ShownIsRight }
{}

/// Trying decides a job on each input of which the run has a result and the evaluation a value: all inputs agree, or
/// two results differ.
pub fn tried_is_complete()
    ensures { TriedIsComplete }
{
    inputs_are_counted();
}

/// Two inputs that vary in the method or in the specification aren't one input.
pub fn varying_inputs_differ()
    ensures { VaryingInputsDiffer }
{}
