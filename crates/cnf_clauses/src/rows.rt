ghost use Rattle.std.specs.Prelude.{◌≡◌, ◌++◌, ◌∷◌, [], ◌<◌, ◌≤◌, ◌-◌, ◌^◌, OnOk, OnErr, length, take, slice_index_or};
ghost use Rattle.cnf_clauses.specs.Rows.{row_start, row_at, AreRows};

use std::alloc::{AllocError, Global};
use std::marker::Model;

/// A list of lists that lie end to end in one buffer, with ends of four bytes.
#[derive(Drop)]
pub struct Rows<T> {
    items: Vec<T>,
    ends: Vec<u32>,
}

impl<T> Model for Rows<T> {
    ghost use Rattle.std.specs.Prelude.{List};
    ghost use Rattle.cnf_clauses.specs.Rows.{rows_of, AreRows};

    ghost Value = { List (List T) };

    ghost view = { λ r. rows_of r.items.items r.ends.items };

    ghost invariant = { λ r. AreRows r.items.items r.ends.items };
}

/// The most items that all rows together may have.
const MOST_ITEMS: usize = 0xffff_ffff;

impl<T: Copy> Rows<T> {
    /// No rows. It takes no memory.
    pub fn new(alloc: Global) -> Rows<T>
        ensures { result ≡ [] }
    {
        Rows {
            items: Vec::new(alloc),
            ends: Vec::new(alloc),
        }
    }

    /// How many rows there are.
    pub fn len(&self) -> usize
        ensures { result ≡ length self.now }
    {
        self.ends.len()
    }

    /// The row at a place below `len`.
    pub fn row(&self, k: usize) -> &[T]
        requires { k < length self.now }
        ensures { result.now ≡ slice_index_or self.now k [] }
    {
        cut(&self.items, &self.ends, k)
    }

    /// Appends a row. It fails for want of memory, which here includes more than 2^32 - 1 items in all,
    /// and then changes nothing.
    pub fn push(&mut self, row: &[T]) -> Result<(), AllocError>
        ensures ok { OnOk result (self.new ≡ self.old ++ row.now ∷ []) }
        ensures err { OnErr result (self.new ≡ self.old) }
    {
        let had = self.items.len();
        if row.len() > MOST_ITEMS - had {
            return Err(AllocError);
        }
        self.items.extend_from_slice(row)?;
        let end = self.items.len() as u32;
        match self.ends.push(end) {
            Ok(()) => Ok(()),
            Err(e) => {
                self.items.truncate(had);
                Err(AllocError::from(e))
            }
        }
    }

    /// Takes away the last row.
    pub fn pop(&mut self)
        requires { 0 < length self.old }
        ensures { self.new ≡ take (length self.old - 1) self.old }
    {
        let last = self.ends.len() - 1;
        let begin = start(&self.ends, last);
        self.items.truncate(begin);
        self.ends.truncate(last);
    }
}

// Where a row begins.
fn start(ends: &[u32], k: usize) -> usize
    requires { k ≤ length ends.now }
    ensures { result ≡ row_start ends.now k }
{
    if k == 0 { 0 } else { ends[k - 1] as usize }
}

// The items of a row.
fn cut<'a, T>(items: &'a [T], ends: &[u32], k: usize) -> &'a [T]
    requires rows { AreRows items.now ends.now }
    requires inside { k < length ends.now }
    ensures { result.now ≡ row_at items.now ends.now k }
{
    let begin = start(ends, k);
    let end = ends[k] as usize;
    &items[begin..end]
}
