use crate::value::Why;

/// Why an evaluation stops before it has a value.
#[derive(Clone, Copy, Debug, PartialEq, Eq)]
pub enum Stop {
    /// The form at this offset has no value.
    Outside { at: u32, reason: Why },
    /// More forms would be open at once than may be.
    MoreDepth,
    /// More forms would be visited than may be.
    MoreWork,
}
