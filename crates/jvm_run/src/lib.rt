//! Runs of methods on numbers: the code of what `jvm_meaning` defines. `arithmetic`, `array_words`, `rows`, `conditions`,
//! `increments`, `loading` and `statics` have the instructions that look at numbers, one small function each a family;
//! `closing` returns, with what is observed at the end in `observed`; `step` makes one instruction, `run` a run, from
//! the `arguments` of an input. `walk` makes a run step by step, and `traces` compares where two runs go. `descriptor`
//! has the shape of a method.
#![tactic(auto)]

mod arguments;
mod arithmetic;
mod array_words;
mod closing;
mod conditions;
mod descriptor;
mod increments;
mod loading;
mod observed;
mod rows;
mod run;
mod statics;
mod step;
mod traces;
mod walk;

pub use descriptor::{ShapeError, shape_of};
pub use run::Machine;
pub use traces::{same_trace, same_trace_within};
