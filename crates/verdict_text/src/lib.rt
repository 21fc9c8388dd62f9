//! Verdicts, their texts, and the verdict that trying every input gives.
//!
//! `verdict` has verdicts, `trying` the verdict by trying. The other modules make texts: `words` numbers and lists
//! of them, `names` names and methods, `inputs` an input's lines, `results` what method and function give, `causes`
//! the reasons of refusals, and `text` a verdict's whole text. No other crate prints anything.
#![tactic(auto)]

mod causes;
mod inputs;
mod names;
mod results;
mod text;
mod trying;
mod verdict;
mod words;

pub use text::verdict_text;
pub use trying::exhaust;
pub use verdict::{Refusal, Verdict};
