ghost use Rattle.std.specs.Prelude.{◌≡◌};
ghost use Rattle.axe_words.specs.Meaning.{HasRanges};
ghost use Rattle.job_parts.specs.Parts.{HasFewSizes, asked_of, meant};

use axe_io::{Budgets, OutPlace, Shape};
use axe_words::Job;
use class_file::{ClassFile, MethodId};
use spec_form::{FunId, Program};
use verdict_text::Refusal;

/// What a job was found to be made of.
#[derive(Drop)]
pub struct Parts {
    pub class: ClassFile,
    pub method: MethodId,
    pub program: Program,
    pub function: FunId,
    pub shape: Shape,
}

/// Why the parts of a job aren't found.
#[derive(Debug, Drop)]
pub enum Stop {
    /// The job is refused.
    Refused(Refusal),
    /// The store could not read.
    ReadFault,
    /// Want of memory.
    Memory,
}

/// What the words of a job name.
#[derive(Drop)]
pub struct Asked<'a> {
    pub class: &'a str,
    pub method: &'a str,
    pub spec: &'a str,
    pub function: &'a str,
    pub desc: Option<&'a str>,
    pub sizes: &'a [u32],
    pub out: OutPlace,
    pub budgets: &'a Budgets,
}

/// What a job names.
#[tactic(auto, using(crate::proofs::FewSizes::few_sizes))]
pub fn asked_of(job: &Job) -> Asked<'_>
    ensures asked { meant result ≡ asked_of job.now }
    ensures sizes { HasRanges job.now → HasFewSizes (meant result) }
{
    let Job::Prove {
        class,
        method,
        spec,
        function,
        desc,
        sizes,
        out,
        budgets,
    } = job;
    Asked {
        class: class.as_str(),
        method: method.as_str(),
        spec: spec.as_str(),
        function: function.as_str(),
        desc: desc.as_ref().map(|desc| desc.as_str()),
        sizes,
        out: *out,
        budgets,
    }
}
