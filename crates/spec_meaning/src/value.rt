use sqlite_items::Items;

/// A value of the language.
#[derive(Debug, Drop)]
pub enum Value {
    /// A whole number of 128 bits.
    Number(i128),
    /// The truth value `t`.
    T,
    /// A list of numbers; `nil` is the empty list.
    List(Items<i128>),
}

/// Why a form has no value.
#[derive(Clone, Copy, Debug, PartialEq, Eq)]
pub enum Why {
    /// A list or `t` where a number is wanted.
    NotANumber,
    /// A number or `t` where a list is wanted.
    NotAList,
    /// A width outside 1 to 64, or widths that don't fit together.
    BadWidth,
    /// A place outside a word or a list.
    BadPlace,
    /// A list of another length than was said.
    BadLength,
    /// A number outside 128 bits.
    TooWide,
}

/// How an evaluation ends.
#[derive(Debug, Drop)]
pub enum SpecEnd {
    /// The body has a value.
    Value(Value),
    /// The form at this offset has no value.
    Outside { at: u32, reason: Why },
    /// More forms would be open at once than may be.
    MoreDepth,
    /// More forms would be visited than may be.
    MoreWork,
}
