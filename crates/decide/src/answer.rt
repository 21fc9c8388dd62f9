ghost use Rattle.std.specs.Prelude.{◌≡◌, ◌<◌, map, string_bytes, IfOk, MatchResult, Ok, length};
ghost use Rattle.job_meaning.specs.Meant.{IsJob, meant as meant_pair};
ghost use Rattle.job_parts.specs.Parts.{HasFewSizes, meant, parts as parts_there};
ghost use Rattle.decide.specs.Answers.{Answers, HasCause, HasJobCause, IsAnswer, IsJobAnswer, IsVerdict, refusal};
ghost use Rattle.decide.specs.Runs.{answer};

use axe_io::{Shape, Store};
use axe_words::{WordsError, read_words};
use class_file::ClassFile;
use job_meaning::{Job as Pair, tried_is_right};
use job_parts::{Asked, Parts, Stop, asked_of, find};
use memory::Memory;
use std::alloc::Global;
use verdict_text::{Refusal, Verdict, exhaust};

/// A verdict, with the shape and the class that its text is about.
#[derive(Drop)]
pub struct Answer {
    pub verdict: Verdict,
    pub shape: Option<Shape>,
    pub class: Option<ClassFile>,
}

/// Why words are not answered.
#[derive(Clone, Copy, Debug, PartialEq, Eq)]
pub enum NoAnswer {
    /// The store could not read.
    ReadFault,
    /// Want of memory.
    Memory,
}

/// The answer of a refusal.
pub fn refused(cause: Refusal) -> Answer
    ensures { answer result ≡ refusal cause }
{
    Answer {
        verdict: Verdict::Refused(cause),
        shape: None,
        class: None,
    }
}

/// The answer to the words of a job: what they mean, what the store holds for it, and the verdict by trying.
pub fn answer_to<S: Store>(
    alloc: Global,
    words: &[String],
    store: &mut S,
) -> Result<Answer, NoAnswer>
    ensures { MatchResult result
        (λ a. Answers (map string_bytes words.now) (S.holds store.old) (answer a) × (S.faults store.new ≡ S.faults store.old))
        (HasCause (map string_bytes words.now) (S.holds store.old) (S.faults store.old) (S.faults store.new)) }
{
    match read_words(alloc, words) {
        Ok(job) => answer_to_job(alloc, &asked_of(&job), store),
        Err(WordsError::Memory) => Err(NoAnswer::Memory),
        Err(error) => Ok(refused(Refusal::Words(error))),
    }
}

/// The answer to a job.
fn answer_to_job<S: Store>(
    alloc: Global,
    asked: &Asked<'_>,
    store: &mut S,
) -> Result<Answer, NoAnswer>
    requires { HasFewSizes (meant asked.now) }
    ensures { MatchResult result
        (λ a. IsJobAnswer (meant asked.now) (S.holds store.old) (answer a) × (S.faults store.new ≡ S.faults store.old))
        (HasJobCause (meant asked.now) (S.holds store.old) (S.faults store.old) (S.faults store.new)) }
{
    match find(alloc, asked, store) {
        Ok(parts) => match decide(alloc, asked, parts) {
            Ok(answer) => Ok(answer),
            Err(Memory) => Err(NoAnswer::Memory),
        },
        Err(Stop::Refused(cause)) => Ok(refused(cause)),
        Err(Stop::ReadFault) => Err(NoAnswer::ReadFault),
        Err(Stop::Memory) => Err(NoAnswer::Memory),
    }
}

/// The answer to a job of these parts.
fn decide(alloc: Global, asked: &Asked<'_>, parts: Parts) -> Result<Answer, Memory>
    requires { (parts.method.0 < length parts.class.methods) × (parts.function.0 < length parts.program.functions) }
    ensures { IfOk result (λ a. IsAnswer (meant asked.now) (Ok (parts_there parts)) (answer a)) }
{
    let pair = Pair {
        class: &parts.class,
        method: parts.method,
        program: &parts.program,
        function: parts.function,
        shape: &parts.shape,
        budgets: asked.budgets,
    };
    let verdict = verdict_on(alloc, &pair, asked.budgets.cases)?;
    Ok(Answer {
        verdict,
        shape: Some(parts.shape),
        class: Some(parts.class),
    })
}

/// The verdict on a pair: inputs of at most so many bits are tried.
#[tactic(auto, using(crate::proofs::Deciding::few_are_right, crate::proofs::Deciding::more_are_right))]
fn verdict_on(alloc: Global, pair: &Pair<'_>, cases: u32) -> Result<Verdict, Memory>
    requires job { IsJob (meant_pair pair.now) }
    requires limit { cases ≡ pair.now.budgets.now.cases }
    ensures { IfOk result (IsVerdict pair.now.budgets.now (meant_pair pair.now)) }
{
    if pair.shape.bits() > u64::from(cases) {
        return Ok(Verdict::UnknownCases { limit: cases });
    }
    tried_is_right();
    exhaust(alloc, pair)
}
