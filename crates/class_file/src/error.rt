ghost use Rattle.std.specs.Prelude.{◌≡◌};
ghost use Rattle.class_file.specs.declared.error.ClassError.TheVariants.{Memory};

use std::alloc::{AllocError, AllocFailed};
use thiserror::Error;

/// The first fault of a class file, in the order in which a class is read. Each `at` is an offset in bytes
/// from the start of the file.
#[derive(Clone, Copy, Debug, PartialEq, Eq, Error)]
pub enum ClassError {
    /// The file ends, at its length `at`, inside something.
    #[error("truncated at {at}")]
    Truncated {
        /// The length of the file.
        at: u32,
    },
    /// The file doesn't begin with the bytes ca fe ba be.
    #[error("bad magic")]
    BadMagic,
    /// The major version isn't one from 45 to 52.
    #[error("bad version {major}")]
    BadVersion {
        /// The major version of the file.
        major: u16,
    },
    /// No entry of the constant pool begins with this tag.
    #[error("bad tag {tag} at {at}")]
    BadTag {
        /// Where the tag stands.
        at: u32,
        /// The tag.
        tag: u8,
    },
    /// A number that has to be that of an entry of another kind.
    #[error("bad index {index} at {at}")]
    BadIndex {
        /// Where the number stands.
        at: u32,
        /// The number.
        index: u16,
    },
    /// A length or a count that doesn't fit what it counts: a count of no entries, at 8; a long or double
    /// without room for its second number, at its tag; the length of a Code or a ConstantValue, or a code's
    /// own length, at the attribute's length.
    #[error("bad length at {at}")]
    BadLength {
        /// Where it stands.
        at: u32,
    },
    /// Bytes stand behind the class.
    #[error("trailing bytes at {at}")]
    Trailing {
        /// Where the first of them stands.
        at: u32,
    },
    /// Memory ran out.
    #[error("no memory")]
    Memory,
}

impl From<AllocError> for ClassError {
    ghost from_gives = { λ _ e. e ≡ Memory };

    fn from(_e: AllocError) -> ClassError {
        ClassError::Memory
    }
}

impl<T: Drop> From<AllocFailed<T>> for ClassError {
    ghost from_gives = { λ _ e. e ≡ Memory };

    fn from(_e: AllocFailed<T>) -> ClassError {
        ClassError::Memory
    }
}
