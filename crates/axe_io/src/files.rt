ghost use Rattle.std.specs.Prelude.{◌≡◌, ◌≤◌, None, IfOk, vec_len};

use crate::store::{Store, StoreError};
use std::alloc::Global;
use std::fs::File;
use std::io::{self, ErrorKind, Read};
use std::rt::Files;

/// The files of the machine. It tells nothing of their contents, and counts each error.
pub struct FileStore<'a, R: Files> {
    rt: &'a R,
    faults: u64,
}

impl<R: Files> Drop for FileStore<'_, R> {
    fn drop(self) {
        let FileStore { rt: _, faults: _ } = self;
    }
}

impl<'a, R: Files> FileStore<'a, R> {
    /// The files that the runtime reaches, with no error counted yet.
    pub fn new(rt: &'a R) -> FileStore<'a, R>
        ensures { result.faults ≡ 0 }
    {
        FileStore { rt, faults: 0 }
    }
}

/// At most `limit` + 1 bytes of a file.
fn read_some<R: Files>(rt: &R, alloc: Global, name: &str, limit: usize) -> io::Result<Vec<u8>> {
    let mut bytes = Vec::new(alloc);
    let file = File::open(rt, name)?;
    file.take((limit as u64).saturating_add(1))
        .read_to_end(&mut bytes)?;
    Ok(bytes)
}

impl<R: Files> Store for FileStore<'_, R> {
    ghost holds = { λ s name. None };

    ghost faults = { λ s. s.faults };

    fn read(&mut self, alloc: Global, name: &str, limit: usize) -> Result<Vec<u8>, StoreError> {
        match read_some(self.rt, alloc, name, limit) {
            Ok(bytes) => {
                if bytes.len() > limit {
                    return Err(StoreError::TooLong { limit });
                }
                Ok(bytes)
            }
            Err(error) => {
                if error.kind() == ErrorKind::OutOfMemory {
                    return Err(StoreError::Memory);
                }
                self.faults = self.faults.saturating_add(1);
                Err(StoreError::Failed)
            }
        }
    }
}
