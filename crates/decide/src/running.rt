ghost use Rattle.std.specs.Prelude.{◌≡◌, ℕ, map, string_bytes};
ghost use Rattle.decide.specs.Runs.{RunEnds, WroteAnswer, WroteWithoutWords, answer};

use crate::answer::{Answer, answer_to, refused};
use crate::status::Status;
use axe_io::{Gate, Sink, Store, write_all};
use axe_words::WordsError;
use clap::error::ErrorKind;
use std::alloc::Global;
use std::marker::Sync;
use std::sync::Wait;
use std::thread::Threads;
use verdict_text::{Refusal, verdict_text};

/// Why the system gave no words.
#[derive(Clone, Copy, Debug, PartialEq, Eq)]
pub enum NoWords {
    /// A word is no text in UTF-8.
    NotText,
    /// Memory is wanting.
    OutOfMemory,
}

/// Does the job of the words, which are those after the program's name, and writes the text of its verdict.
///
/// `out` grows by the text of a verdict that is right for the words and for what the store holds, and the status is
/// the verdict's. At WriteFault, which comes only where the sink's count of faults rose, it grows by a beginning of
/// that text; at ReadFault, which comes only where the store's count rose or where nothing stands under the class's
/// name or, once the class has the method, under the specification's, and at NoMemory it grows by nothing. Every input
/// is tried, on one thread: the runtime and the gate aren't used.
pub fn run<R: Threads + Wait + Sync, S: Store, K: Sink, G: Gate + Sync>(
    _rt: &R,
    alloc: Global,
    words: &[String],
    store: &mut S,
    out: &mut K,
    _gate: &G,
) -> Status
    ensures { RunEnds (map string_bytes words.now) (S.holds store.old) (S.faults store.old) (S.faults store.new)
        (K.written out.old) (K.written out.new) (K.faults out.old) (K.faults out.new) result }
{
    match answer_to(alloc, words, store) {
        Ok(answer) => put(alloc, &answer, out),
        Err(why) => Status::without(why),
    }
}

/// Does what is left to do where the system gave no words. Words of which one is no text are refused as not of the
/// command's form, and the text of that is written as by [`run`]; for want of memory nothing is written.
pub fn without_words<K: Sink>(alloc: Global, cause: NoWords, out: &mut K) -> Status
    ensures { WroteWithoutWords cause (K.written out.old) (K.written out.new) (K.faults out.old) (K.faults out.new) result }
{
    match cause {
        NoWords::NotText => {
            let error = WordsError::Refused {
                kind: ErrorKind::InvalidValue,
            };
            put(alloc, &refused(Refusal::Words(error)), out)
        }
        NoWords::OutOfMemory => Status::NoMemory,
    }
}

/// Writes the text of an answer.
fn put<K: Sink>(alloc: Global, decided: &Answer, out: &mut K) -> Status
    ensures { WroteAnswer (answer decided.now) (K.written out.old) (K.written out.new) (K.faults out.old) (K.faults out.new) result }
{
    let text = verdict_text(
        alloc,
        &decided.verdict,
        decided.shape.as_ref(),
        decided.class.as_ref(),
    );
    let Ok(text) = text else {
        return Status::NoMemory;
    };
    match write_all(out, &text) {
        Ok(()) => Status::of(&decided.verdict),
        Err(_) => Status::WriteFault,
    }
}
