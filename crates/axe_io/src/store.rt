ghost use Rattle.std.specs.Prelude.{◌≡◌, ℕ, ◌≤◌, ◌<◌, List, Option, Some, None, option_map, IfOk, MatchResult, vec_len, Err, Contains};
ghost use Rattle.axe_io.specs.Ends.{Told, IsContent, HasReadCause};
ghost use Rattle.axe_io.specs.Contents.{content_of};
ghost use Rattle.axe_io.specs.Memories.{one_more, store_calls, store_failing, store_faults};
ghost use Rattle.axe_io.specs.declared.store.StoreError.TheVariants.{Failed};

use std::alloc::Global;

/// Why a read gave nothing.
#[derive(Clone, Copy, Debug, PartialEq, Eq)]
pub enum StoreError {
    /// The store could not read, or nothing stands under the name.
    Failed,
    /// The content has more bytes than the limit.
    TooLong { limit: usize },
    /// Want of memory.
    Memory,
}

/// Where a job's class and specification stand, under names.
pub trait Store {
    ghost use Rattle.axe_io.specs.Ends.{Told};

    /// What the store tells of a name.
    ghost holds: { Self → List ℕ → Told };

    /// How often it has failed, up to 2^64 - 1; a number that never falls.
    ghost faults: { Self → ℕ };

    /// Reads what stands under a name: at most `limit` bytes.
    ///
    /// Failed comes only where the count of faults rose, or where the store tells that nothing stands there, and then
    /// no other end does; TooLong only where the content is longer than `limit`, where that is told. The count rises
    /// only where a read has failed, and what is held stays.
    fn read(&mut self, alloc: Global, name: &str, limit: usize) -> Result<Vec<u8>, StoreError>
        ensures within { IfOk result (λ bytes. vec_len bytes ≤ limit) }
        ensures content { IfOk result (λ bytes. IsContent (holds self.old name.now) bytes.items) }
        ensures cause { MatchResult result
            (λ _. faults self.new ≡ faults self.old)
            (HasReadCause (holds self.old name.now) limit (faults self.old) (faults self.new)) }
        ensures kept { (other : List ℕ) → holds self.new other ≡ holds self.old other }
        ensures counts { faults self.old ≤ faults self.new };
}

/// One name with its bytes.
#[derive(Debug, Drop)]
pub struct Stored {
    pub name: String,
    pub bytes: Vec<u8>,
}

/// A store in memory, some of whose reads fail. It tells all that it holds; of two entries with one name the first
/// counts, and a name that isn't there is Failed and raises no count.
#[derive(Debug, Drop)]
pub struct MemoryStore {
    contents: Vec<Stored>,
    failing: Vec<u64>,
    calls: u64,
    faults: u64,
}

impl MemoryStore {
    ghost use Rattle.axe_io.specs.Memories.{store_contents, store_failing, store_calls, store_faults};

    /// A store of these contents, of whose calls of `read` those with the numbers in `failing` fail, counted from 1.
    pub fn new(contents: Vec<Stored>, failing: Vec<u64>) -> MemoryStore
        ensures contents { store_contents result ≡ contents.items }
        ensures failing { store_failing result ≡ failing.items }
        ensures calls { store_calls result ≡ 0 }
        ensures faults { store_faults result ≡ 0 }
    {
        MemoryStore {
            contents,
            failing,
            calls: 0,
            faults: 0,
        }
    }
}

// The bytes of the first entry with the name.
fn found<'a>(contents: &'a [Stored], name: &str) -> Option<&'a [u8]>
    ensures { option_map (λ bytes. bytes.now) result ≡ content_of contents.now name.now }
{
    for stored in contents {
        if stored.name.as_bytes() == name.as_bytes() {
            return Some(&stored.bytes);
        }
    }
    None
}

impl Store for MemoryStore {
    ghost holds = { λ s name. Some (content_of s.contents.items name) };

    ghost faults = { λ s. s.faults };

    /// Reads what stands under a name. A call with a number in `failing` is Failed, which alone is counted as a fault;
    /// any other gives the bytes of the first entry with the name, and is Failed where there is none.
    fn read(&mut self, alloc: Global, name: &str, limit: usize) -> Result<Vec<u8>, StoreError>
        ensures within { IfOk result (λ bytes. vec_len bytes ≤ limit) }
        ensures content { IfOk result (λ bytes. content_of self.old.contents.items name.now ≡ Some bytes.items) }
        ensures cause { MatchResult result
            (λ _. self.new.faults ≡ self.old.faults)
            (HasReadCause (Some (content_of self.old.contents.items name.now)) limit self.old.faults self.new.faults) }
        ensures kept { (other : List ℕ) → Some (content_of self.new.contents.items other) ≡ Some (content_of self.old.contents.items other) }
        ensures counts { self.old.faults ≤ self.new.faults }
        ensures calls { store_calls self.new ≡ one_more (store_calls self.old) }
        ensures failing { store_failing self.new ≡ store_failing self.old }
        ensures planned { Contains (store_failing self.old) (store_calls self.new) → (result ≡ Err Failed) × (store_faults self.new ≡ one_more (store_faults self.old)) }
        ensures others { (Contains (store_failing self.old) (store_calls self.new) → ⊥) → store_faults self.new ≡ store_faults self.old }
    {
        self.calls = self.calls.saturating_add(1);
        if self.failing.contains(&self.calls) {
            self.faults = self.faults.saturating_add(1);
            return Err(StoreError::Failed);
        }
        let Some(bytes) = found(&self.contents, name) else {
            return Err(StoreError::Failed);
        };
        if bytes.len() > limit {
            return Err(StoreError::TooLong { limit });
        }
        Vec::from_slice(alloc, bytes).map_err(|_| StoreError::Memory)
    }
}
