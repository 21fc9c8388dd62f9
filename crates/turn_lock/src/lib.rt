//! A ticket lock that knows what each worker did.
//!
//! A value goes into the lock with `TurnLock::new`. Workers take it out in turn, add entries to it
//! and put it back, and at the end `close` gives it back. The value's type says by `Kept` what of
//! it stays as it was, its opening, and which entries it has, each with the number of the seat that
//! added it. A `Pass` is the right to take turns. It has numbers of seats, and it knows of each
//! number which entries were added under it, and the histories that it has seen.
//!
//! So a worker that holds the value knows that its own entries are there, and that what it saw
//! before still stands. And whoever closes the lock knows that the entries of every worker are
//! there, each once, in that worker's order, and no others: whatever the schedule was.
//!
//! Nothing is claimed of waiting: not that a turn comes, nor who is first, nor that the lock is
//! fair or that anybody gets on. `enter` takes a `Wait` for that reason, and its clauses hold if it
//! returns.
//!
//! - `kept`: the trait of the values that a lock can hold.
//! - `pass`: passes, and holds, which a pass becomes while the value is out.
//! - `lock`: the lock, on a table of two words and one slot of `atomic_table`.
//! - `dealing`: a pass for each worker, and one pass of all at the end.
//! - `rule`, `view`: the rule of that table, its steps, and what a seat of it knows.
#![tactic(auto)]

mod dealing;
mod kept;
mod lock;
mod pass;
mod rule;
mod view;

pub use dealing::{deal, gather};
pub use kept::Kept;
pub use lock::TurnLock;
pub use memory::Memory;
pub use pass::{Held, Pass};
