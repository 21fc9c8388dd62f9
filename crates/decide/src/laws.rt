//! What follows from the clause of `run`.

ghost use Rattle.decide.specs.Complete.{RunIsComplete};

use job_meaning::tried_is_complete;

/// Where the words mean a job whose class, method, specification, function and shape fit, of at most `--cases` bits, and
/// on each input the run has a result and the evaluation a value, a run without a fault ends Equal or Different.
pub fn run_is_complete()
    ensures { RunIsComplete }
{
    tried_is_complete();
}
