//! What can be wrong with a transfer text.
use std::alloc::{AllocError, AllocFailed};

/// The first fault of a transfer text, or want of memory.
#[derive(Clone, Copy, Debug, PartialEq, Eq)]
pub enum CodecFault {
    /// The text ends before a field's last byte.
    Short { len: u64 },
    /// It begins with other bytes than the mark.
    BadMark,
    /// It is of another number of dimensions than the hierarchy.
    BadCount { told: u8, dims: u8 },
    /// The id at this offset is not a leaf concept of its dimension.
    BadConcept { at: u64, id: u32 },
    /// Bytes follow the last row, from this offset on.
    Trailing { at: u64 },
    /// No memory was found.
    NoMemory,
}

impl From<AllocError> for CodecFault {
    ghost use Rattle.std.specs.Prelude.{◌≡◌};
    ghost use Rattle.shard_codec.specs.declared.fault.CodecFault.TheVariants.{NoMemory};

    ghost from_gives = { λ _ e. e ≡ NoMemory };

    fn from(_: AllocError) -> Self {
        CodecFault::NoMemory
    }
}

impl<T: Drop> From<AllocFailed<T>> for CodecFault {
    ghost use Rattle.std.specs.Prelude.{◌≡◌};
    ghost use Rattle.shard_codec.specs.declared.fault.CodecFault.TheVariants.{NoMemory};

    ghost from_gives = { λ _ e. e ≡ NoMemory };

    fn from(_: AllocFailed<T>) -> Self {
        CodecFault::NoMemory
    }
}
