use clause_log::log::Log;

/// What a search came to.
#[derive(Drop)]
pub enum Found {
    /// Values of the formula's variables, in their order, that meet every clause.
    Model(Vec<bool>),
    /// A log that refutes the formula.
    Refuted(Log),
    /// A log of all lines that were granted, which doesn't refute the formula.
    Spent(Log),
}
