ghost use Rattle.std.specs.Prelude.{◌≡◌, ◌⊎◌, ℕ, ◌≤◌, ◌<◌, [], List, Option, Some, None, IfOk, OnOk, IfErr, OnErr, MatchResult, length, min, Err, Ok, Contains};
ghost use Rattle.axe_io.specs.Ends.{Appends, Rose, HasWriteCause, taken_of, written_by, written_count};
ghost use Rattle.axe_io.specs.Memories.{one_more, sink_piece, sink_failing, sink_calls};
ghost use Rattle.axe_io.specs.declared.sink.SinkError.TheVariants.{Failed};

use std::alloc::Global;

/// Why a write took nothing.
#[derive(Clone, Copy, Debug, PartialEq, Eq)]
pub enum SinkError {
    /// The sink could not write.
    Failed,
}

/// Why not all of a text was written; `written` is the number of its first bytes that were.
#[derive(Clone, Copy, Debug, PartialEq, Eq)]
pub enum WriteEnd {
    /// A write failed.
    Failed { written: usize },
    /// A write took 0 of a piece that isn't empty.
    TookNothing { written: usize },
}

/// Where a job's text goes.
pub trait Sink {
    /// What was written so far, where that is told.
    ghost written: { Self → Option (List ℕ) };

    /// How often it has failed, up to 2^64 - 1; a number that never falls.
    ghost faults: { Self → ℕ };

    /// How many of these faults were an answer Failed, and not 0 bytes taken, up to 2^64 - 1.
    ghost refusals: { Self → ℕ };

    /// Takes some first bytes and answers how many.
    ///
    /// Failed, and 0 for a piece that isn't empty, come only where the count of faults rose; where bytes are taken, or
    /// the piece is empty and none are, it stays. Failed takes nothing, and it alone raises the count of refusals.
    fn write(&mut self, bytes: &[u8]) -> Result<usize, SinkError>
        ensures within { IfOk result (λ n. n ≤ length bytes.now) }
        ensures grows { Appends (written self.old) (written self.new) (taken_of result bytes.now) }
        ensures nothing { result ≡ Ok 0 → (bytes.now ≡ []) ⊎ Rose (faults self.old) (faults self.new) }
        ensures taken { IfOk result (λ n. (0 < n) ⊎ (bytes.now ≡ []) → faults self.new ≡ faults self.old) }
        ensures failed { OnErr result (Rose (faults self.old) (faults self.new)) }
        ensures refused { MatchResult result
            (λ _. refusals self.new ≡ refusals self.old)
            (λ _. Rose (refusals self.old) (refusals self.new)) }
        ensures counts { faults self.old ≤ faults self.new };
}

/// Writes all the bytes, by as many writes as it takes.
///
/// Both refusals come only where the sink's count of faults rose, and tell how many first bytes were appended; where all
/// is written it stays. The count of refusals rose where the end is Failed, and stays where it is TookNothing.
pub fn write_all<K: Sink>(out: &mut K, bytes: &[u8]) -> Result<(), WriteEnd>
    ensures grows { Appends (K.written out.old) (K.written out.new) (written_by result bytes.now) }
    ensures within { IfErr result (λ end. written_count end < length bytes.now) }
    ensures whole { OnOk result (K.faults out.new ≡ K.faults out.old) }
    ensures failed { OnErr result (Rose (K.faults out.old) (K.faults out.new)) }
    ensures cause { IfErr result (HasWriteCause (K.refusals out.old) (K.refusals out.new)) }
    ensures counts { K.faults out.old ≤ K.faults out.new }
{
    let mut written = 0;
    while written < bytes.len() {
        match out.write(&bytes[written..]) {
            Ok(0) => return Err(WriteEnd::TookNothing { written }),
            Ok(n) => written += n,
            Err(SinkError::Failed) => return Err(WriteEnd::Failed { written }),
        }
    }
    Ok(())
}

/// A sink in memory, which takes so many bytes a call, and some of whose writes fail. It tells what was written.
#[derive(Debug, Drop)]
pub struct MemorySink {
    bytes: Vec<u8>,
    piece: usize,
    failing: Vec<u64>,
    calls: u64,
    faults: u64,
    refusals: u64,
}

impl MemorySink {
    ghost use Rattle.axe_io.specs.Memories.{sink_bytes, sink_piece, sink_failing, sink_calls, sink_faults, sink_refusals};

    /// A sink with no bytes written that takes at most `piece` bytes a call, and of whose writes those with the
    /// numbers in `failing` fail, counted from 1.
    pub fn new(alloc: Global, piece: usize, failing: Vec<u64>) -> MemorySink
        ensures bytes { sink_bytes result ≡ [] }
        ensures piece { sink_piece result ≡ piece }
        ensures failing { sink_failing result ≡ failing.items }
        ensures calls { sink_calls result ≡ 0 }
        ensures faults { sink_faults result ≡ 0 }
        ensures refusals { sink_refusals result ≡ 0 }
    {
        MemorySink {
            bytes: Vec::new(alloc),
            piece,
            failing,
            calls: 0,
            faults: 0,
            refusals: 0,
        }
    }

    /// The bytes that were written.
    pub fn bytes(&self) -> &[u8]
        ensures { result.now ≡ sink_bytes self.now }
    {
        &self.bytes
    }
}

impl Sink for MemorySink {
    ghost written = { λ s. Some s.bytes.items };

    ghost faults = { λ s. s.faults };

    ghost refusals = { λ s. s.refusals };

    /// Takes the first `piece` bytes, or all where there are fewer. A call with a number in `failing` is Failed, as is
    /// one for which memory is wanting; 0 taken of a piece that isn't empty is counted as a fault too.
    fn write(&mut self, bytes: &[u8]) -> Result<usize, SinkError>
        ensures within { IfOk result (λ n. n ≤ length bytes.now) }
        ensures grows { Appends (Some self.old.bytes.items) (Some self.new.bytes.items) (taken_of result bytes.now) }
        ensures nothing { result ≡ Ok 0 → (bytes.now ≡ []) ⊎ Rose self.old.faults self.new.faults }
        ensures taken { IfOk result (λ n. (0 < n) ⊎ (bytes.now ≡ []) → self.new.faults ≡ self.old.faults) }
        ensures failed { OnErr result (Rose self.old.faults self.new.faults) }
        ensures refused { MatchResult result
            (λ _. self.new.refusals ≡ self.old.refusals)
            (λ _. Rose self.old.refusals self.new.refusals) }
        ensures counts { self.old.faults ≤ self.new.faults }
        ensures piece { IfOk result (λ n. n ≡ min (length bytes.now) (sink_piece self.old)) }
        ensures calls { sink_calls self.new ≡ one_more (sink_calls self.old) }
        ensures pieces { sink_piece self.new ≡ sink_piece self.old }
        ensures failing { sink_failing self.new ≡ sink_failing self.old }
        ensures planned { Contains (sink_failing self.old) (sink_calls self.new) → result ≡ Err Failed }
    {
        self.calls = self.calls.saturating_add(1);
        let count = bytes.len().min(self.piece);
        if self.failing.contains(&self.calls)
            || self.bytes.extend_from_slice(&bytes[..count]).is_err()
        {
            self.faults = self.faults.saturating_add(1);
            self.refusals = self.refusals.saturating_add(1);
            return Err(SinkError::Failed);
        }
        if count == 0 && !bytes.is_empty() {
            self.faults = self.faults.saturating_add(1);
        }
        Ok(count)
    }
}
