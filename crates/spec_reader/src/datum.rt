use sqlite_items::{Boxed, Items};

/// What a text spells at one place, with the offset of its first byte.
#[derive(Drop)]
pub enum Datum {
    /// A symbol, its letters in lower case.
    Word(u32, Items<u8>),
    /// A number from -2^127 to 2^127 - 1.
    Number(u32, i128),
    /// A string, unread.
    Text(u32),
    /// Apostrophes by their offsets, the first and the others, and what stands behind them: one datum, or nothing
    /// at the end of a list or of the text.
    Quote(u32, Boxed<Items<u32>>, Items<Datum>),
    /// What stands between two parentheses, with the offset of the closing one too.
    List(u32, u32, Items<Datum>),
}
