//! What a specification means: the value of a function's body where its formals have given values.
//!
//! `value` has values and the ends of an evaluation, `operand` the values on the evaluator's stack, `checks` what is
//! asked of arguments, `table` the functions of the language by families (`words`, `arrays`, `numbers`, `sums`,
//! `lists`), `evaluation` the walk over forms with its limits on the `stack`, and `arguments` the arguments that an
//! input stands for. `varying` has what must be the same on all inputs, and `laws` what is true of the visits of every
//! evaluation.
#![tactic(auto)]

mod arguments;
mod arrays;
mod checks;
mod evaluation;
mod fault;
mod laws;
mod lists;
mod numbers;
mod operand;
mod stack;
mod stop;
mod sums;
mod table;
mod value;
mod varying;
mod words;

pub use arguments::args_of;
pub use arrays::{least_width, length_of, place_in};
pub use checks::{below, from_1_to, width_of};
pub use evaluation::eval;
pub use laws::{
    evaluates_by_kind, form_is_the_address, more_work_is_left_over, never_negative,
    stop_at_a_visit, visited_is_counted, visits_are_used,
};
pub use stop::Stop;
pub use table::call;
pub use value::{SpecEnd, Value, Why};
pub use varying::{are_alike, is_static};
pub use words::{amount_in, bits, places};
