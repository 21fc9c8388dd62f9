ghost use Rattle.std.specs.Prelude.{◌≡◌, None};

use crate::sink::{Sink, SinkError};
use std::io::{self, Write};

/// Standard output. It tells nothing of what was written, and counts each error and each 0 taken of a piece that
/// isn't empty.
pub struct OutputSink<'a, P: Print> {
    to: &'a P,
    faults: u64,
    refusals: u64,
}

impl<P: Print> Drop for OutputSink<'_, P> {
    fn drop(self) {
        let OutputSink {
            to: _,
            faults: _,
            refusals: _,
        } = self;
    }
}

impl<'a, P: Print> OutputSink<'a, P> {
    /// The output that the runtime prints to, with no error counted yet.
    pub fn new(to: &'a P) -> OutputSink<'a, P>
        ensures { result.faults ≡ 0 }
    {
        OutputSink {
            to,
            faults: 0,
            refusals: 0,
        }
    }
}

impl<P: Print> Sink for OutputSink<'_, P> {
    ghost written = { λ s. None };

    ghost faults = { λ s. s.faults };

    ghost refusals = { λ s. s.refusals };

    fn write(&mut self, bytes: &[u8]) -> Result<usize, SinkError> {
        match io::writer(self.to).write(bytes) {
            Ok(count) => {
                if count == 0 && !bytes.is_empty() {
                    self.faults = self.faults.saturating_add(1);
                }
                Ok(count)
            }
            Err(_error) => {
                self.faults = self.faults.saturating_add(1);
                self.refusals = self.refusals.saturating_add(1);
                Err(SinkError::Failed)
            }
        }
    }
}
