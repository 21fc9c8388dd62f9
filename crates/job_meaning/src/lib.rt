//! What it means that a method and a function agree on an input, and what one input shows where they don't.
//!
//! `job` has jobs and `shown` what an input shows. `specs/Jobs.antt` says when a method and a function agree, and
//! `specs/Trying.antt` what trying every input in counting order finds, and that this is right. `specs/Varying.antt` says when two inputs
//! vary in the method or in the specification.
#![tactic(auto)]

mod job;
mod shown;

pub use job::Job;
pub use shown::{
    Shown, shown_at, shown_is_right, tried_is_complete, tried_is_right, varying_inputs_differ,
};
