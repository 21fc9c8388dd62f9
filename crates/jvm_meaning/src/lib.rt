//! The meaning of a method: what each instruction of the profile does (JVM Specification SE 8, chapter 6), how a run
//! of a class's method on an input begins and ends, and where it goes. `specs/` has all of it as definitions, which
//! read in the order of `specs/Lib.antt`, from the look-ups to `Machine.step`, `Runs.run_end` and `Traces`.
//!
//! The code here is what reads no number: `table` reads instructions, which `operation` names, from the code; `types`,
//! `constants`, `fields` and `calls` look up what they name; `branches`, `array_use` and `returns` have the parts of
//! instructions that look at references alone; `moving` makes the steps that only move values, and `steps` those that
//! open and close frames; `ends` has the ends of a run. All of it is generic in what stands for numbers, so a run and
//! a symbolic state share it. `laws` has what follows for all runs, and
//! `beginning` whether a run has a first state.
#![tactic(auto)]

mod array_use;
mod beginning;
mod branches;
mod calls;
mod constants;
mod ends;
mod fields;
mod laws;
mod moving;
mod operation;
mod returns;
mod steps;
mod table;
mod types;

pub use array_use::{element, next_array, pop_array, pop_rows, present, reference_value, row};
pub use beginning::{begins, initialiser_of};
pub use branches::{Branch, branch_in, jump, taken_if};
pub use calls::{Callee, begin, callee_in, code_of, desc_of};
pub use constants::{array_class, number_in};
pub use ends::{end_of, refused_at, site_of};
pub use fields::{Place, fits, is_static, pop_static, pop_typed, static_field};
pub use laws::{
    ends_stay, goes_with, goes_with_fewer, marked_trace_is_what_runs_do,
    marks_are_all_that_is_made, marks_are_beside, run_ends_where_it_is, runs_both_ways,
    same_marks_is_same_deeds, same_trace_is_same_way, shorter_traces, steps_go_on,
    trace_is_where_runs_are,
};
pub use moving::move_on;
pub use operation::{
    ArrayOperation, Binary, Condition, Division, Instruction, Move, Operation, ReferenceTest,
    Shift, StackOperation, Test, Turn,
};
pub use returns::returned;
pub use steps::{call, resume, start};
pub use table::instruction_at;
pub use types::{
    DEEPEST, Letter, MethodType, field_type, kind_of, letter_of, method_type, return_type,
};
