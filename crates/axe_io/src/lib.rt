//! The ends of the program and what passes between its layers: stores that classes and specifications are read
//! from, sinks that texts are written to, gates that workers pass, the shapes of a method's parameters, the inputs
//! of a shape in counting order, and the budgets of a job.
#![tactic(auto)]

mod budgets;
mod files;
mod gate;
mod input;
mod output;
mod parameters;
mod shape;
mod sink;
mod store;

pub use budgets::{Budget, Budgets, Spent};
pub use files::FileStore;
pub use gate::{Gate, OpenGate, Point};
pub use input::{Input, inputs_are_counted};
pub use output::OutputSink;
pub use parameters::{Kind, OutPlace, Param};
pub use shape::Shape;
pub use sink::{MemorySink, Sink, SinkError, WriteEnd, write_all};
pub use store::{MemoryStore, Store, StoreError, Stored};
