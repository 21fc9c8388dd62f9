ghost use Rattle.std.specs.Prelude.{◌≡◌, ℕ, ◌==◌, true, [], ◌∷◌, ◌++◌, if◌then◌else◌, map, find, MatchOption};
ghost use Rattle.std.specs.Option.{option_copied};
ghost use Rattle.case_tables.specs.Tables.{rise, rise_above};

/// A row of a table.
pub trait Row {
    ghost key_of: { Self → ℕ };

    /// The key of the row.
    fn key(&self) -> u16
        ensures { result ≡ key_of self.now };
}

/// Rows in the order in which they stand.
#[derive(Clone, Copy)]
pub struct Table<'a, R: Row> {
    /// The rows.
    pub rows: &'a [R],
}

impl<'a, R: Row> Table<'a, R> {
    /// The table of these rows.
    pub fn of(rows: &'a [R]) -> Table<'a, R>
        ensures { result.rows.now ≡ rows.entry.now }
    {
        Table { rows }
    }

    /// Whether the keys rise from row to row.
    pub fn is_ordered(&self) -> bool
        ensures { result ≡ rise (map R.key_of self.entry.now.rows.now) }
    {
        match self.rows.split_first() {
            Some((first, rest)) => rise_above(first.key(), rest),
            None => true,
        }
    }

    /// The row of a key, none exactly where no row has the key. The keys have to rise.
    pub fn find(&self, key: u16) -> Option<&'a R>
        requires { rise (map R.key_of self.now.rows.now) ≡ true }
        ensures { option_copied result ≡ find (λ r. R.key_of r == key) self.entry.now.rows.now }
    {
        find_in(self.rows, key)
    }
}

/// Whether the keys rise from one on.
fn rise_above<R: Row>(first: u16, rows: &[R]) -> bool
    ensures { result ≡ rise_above first (map R.key_of rows.now) }
{
    let mut last = first;
    for row in rows {
        let key = row.key();
        if key <= last {
            return false;
        }
        last = key;
    }
    true
}

/// The row of a key. The rows are halved until the middle one has it.
fn find_in<R: Row>(all: &[R], key: u16) -> Option<&R>
    requires { rise (map R.key_of all.now) ≡ true }
    ensures { option_copied result ≡ find (λ r. R.key_of r == key) all.entry.now }
{
    let mut rows = all;
    while let Some((before, row, after)) = middle(rows) {
        let here = row.key();
        if here == key {
            return Some(row);
        }
        rows = half(key < here, before, after);
    }
    None
}

/// The row in the middle, between the rows before it and those after it.
fn middle<R>(rows: &[R]) -> Option<(&[R], &R, &[R])>
    ensures { MatchOption result (rows.entry.now ≡ []) (λ m. rows.entry.now ≡ m.0.now ++ m.1.now ∷ m.2.now) }
{
    let (before, from) = rows.split_at(rows.len() / 2);
    match from.split_first() {
        Some((row, after)) => Some((before, row, after)),
        None => None,
    }
}

/// One of two halves.
fn half<'a, R>(first: bool, before: &'a [R], after: &'a [R]) -> &'a [R]
    ensures { result.now ≡ (if first then before.entry.now else after.entry.now) }
{
    if first { before } else { after }
}
