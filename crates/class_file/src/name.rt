ghost use Rattle.std.specs.Prelude.{◌≡◌, IfOk};

use std::alloc::{AllocError, Global};
use std::marker::Model;
use std::sync::Arc;

/// The bytes of a name or descriptor, as they stand in a Utf8 entry of the constant pool (JVM
/// Specification SE 8, 4.4.7). Contracts see them as a list of bytes. Names that come from one entry share
/// its bytes, so that a name costs the same however long it is.
#[derive(Drop)]
pub struct Name {
    bytes: Arc<Vec<u8>>,
}

impl Model for Name {
    ghost use Rattle.std.specs.Prelude.{List, ℕ};
    ghost use Rattle.std.specs.Arc.{arc_value};

    ghost Value = { List ℕ };

    ghost view = { λ n. (arc_value n.bytes).items };
}

impl Name {
    /// The name of these bytes.
    pub fn new(alloc: Global, bytes: Vec<u8>) -> Result<Name, AllocError>
        ensures { IfOk result (λ name. name ≡ bytes.items) }
    {
        Ok(Name {
            bytes: Arc::new(alloc, bytes)?,
        })
    }

    /// The bytes of the name.
    pub fn as_slice(&self) -> &[u8]
        ensures { result.now ≡ self.now }
    {
        self.bytes.as_slice()
    }

    /// The same name once more.
    pub fn share(&self) -> Result<Name, AllocError>
        ensures { IfOk result (λ name. name ≡ self.now) }
    {
        Ok(Name {
            bytes: self.bytes.clone()?,
        })
    }
}
