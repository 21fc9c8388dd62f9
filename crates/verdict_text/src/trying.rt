ghost use Rattle.std.specs.Prelude.{◌≡◌, ℕ, ◌+◌, ◌≤◌, ◌<◌, ◌^◌, IfOk};
ghost use Rattle.axe_io.specs.Inputs.{bits_of};
ghost use Rattle.job_meaning.specs.Jobs.{widths_of};
ghost use Rattle.job_meaning.specs.Meant.{meant, IsJob};
ghost use Rattle.job_meaning.specs.Trying.{tried};
ghost use Rattle.verdict_text.specs.Verdicts.{limit_of, verdict_on, verdict_of};

use crate::verdict::{Refusal, Verdict};
use axe_io::{Budget, Budgets, Input, Spent, inputs_are_counted};
use job_meaning::{Job, Shown, shown_at};
use jvm_run::Machine;
use memory::Memory;
use sqlite_items::Items;
use std::alloc::Global;

/// Tries each input in counting order; the first on which method and function don't agree decides.
pub fn exhaust(alloc: Global, job: &Job<'_>) -> Result<Verdict, Memory>
    requires { IsJob (meant job.now) }
    ensures { IfOk result (λ verdict. verdict ≡ verdict_of job.now.budgets.now (bits_of (widths_of (meant job.now))) (tried (meant job.now))) }
{
    let mut machine = Machine::new(alloc);
    let mut input = Input::first(alloc, job.shape)?;
    inputs_are_counted();
    loop {
        if let Some(shown) = shown_at(alloc, &mut machine, job, &input)? {
            return verdict_on(alloc, job.budgets, input, shown);
        }
        if !input.next(job.shape) {
            return Ok(Verdict::Equal {
                bits: job.shape.bits(),
            });
        }
    }
}

/// The verdict on what an input shows.
fn verdict_on(
    alloc: Global,
    budgets: &Budgets,
    input: Input,
    shown: Shown,
) -> Result<Verdict, Memory>
    ensures { IfOk result (λ verdict. verdict ≡ verdict_on budgets.now input shown) }
{
    match shown {
        Shown::Differs { method, spec } => Ok(Verdict::Different {
            input,
            method,
            spec,
        }),
        Shown::Refused { reason, method, pc } => Ok(Verdict::Refused(Refusal::Instruction {
            reason,
            method,
            pc,
            input,
        })),
        Shown::Outside { at, reason } => Ok(Verdict::Refused(Refusal::Form { reason, at, input })),
        Shown::Spends { budget } => {
            let mut inputs = Items::new(alloc);
            inputs.push(input)?;
            Ok(Verdict::Unknown(Spent {
                budget,
                limit: limit_of(budgets, budget),
                inputs,
            }))
        }
    }
}

/// The number of a budget.
fn limit_of(budgets: &Budgets, budget: Budget) -> u64
    ensures { result ≡ limit_of budgets.now budget }
{
    match budget {
        Budget::Steps => budgets.steps,
        Budget::Paths => u64::from(budgets.paths),
        Budget::Frames => u64::from(budgets.frames),
        Budget::Elements => budgets.elements,
        Budget::Depth => u64::from(budgets.depth),
        Budget::Work => budgets.work,
        Budget::Nodes => u64::from(budgets.nodes),
        Budget::Variables => 16_777_216,
        Budget::Settle | Budget::Lines => budgets.lines,
        Budget::Total => budgets.total,
    }
}
