//! Bytes that come in.
ghost use Rattle.std.specs.Prelude.{◌≡◌, ◌+◌, ◌≤◌, List, ℕ, Option, vec_len, IfOk, IsErrOf};
ghost use Rattle.std.specs.Io.{ReadsAtMost};
ghost use Rattle.std.specs.Io.KnownBytes.{Consumes, IsAtEnd, ReadConsumes};
ghost use Rattle.volap_io.specs.Failing.{HasCause};
ghost use Rattle.volap_io.specs.Causes.{Rose, Gave};

use crate::Failed;
use std::alloc::{AllocError, Global};

/// A source of bytes.
pub trait Source {
    /// The bytes that are left, where the source tells them.
    ghost left: { Self → Option (List ℕ) };

    /// How often a read has failed, in a count that may stay at the last value of a u64.
    ghost faults: { Self → ℕ };

    /// Gives the first of the bytes that are left, and none only at the end or into an empty buffer.
    /// Where it fails, all of them are left.
    fn read(&mut self, buf: &mut [u8]) -> Result<usize, Failed>
        ensures bound { ReadsAtMost result buf.new }
        ensures bytes { ReadConsumes (left self.old) (left self.new) result buf.new }
        ensures cause { HasCause (faults self.old) (faults self.new) result };
}

/// Why a source was not read to its end.
#[derive(Clone, Copy, Debug, PartialEq, Eq)]
pub enum ReadEnd {
    /// A read failed.
    ReadFault,
    /// A byte more came than there may be.
    TooLarge,
    /// No memory was found.
    NoMemory,
}

impl From<AllocError> for ReadEnd {
    ghost use Rattle.std.specs.Prelude.{◌≡◌};
    ghost use Rattle.volap_io.specs.declared.source.ReadEnd.TheVariants.{NoMemory};

    ghost from_gives = { λ _ e. e ≡ NoMemory };

    fn from(_: AllocError) -> Self {
        ReadEnd::NoMemory
    }
}

/// How long a buffer a read is lent at most, in bytes.
const PIECE: usize = 4096;

/// All the bytes of a source, of which there may be `limit`. It asks for at most one byte more.
pub fn read_all<S: Source>(alloc: Global, source: &mut S, limit: u64) -> Result<Vec<u8>, ReadEnd>
    ensures all { IfOk result (λ v. Consumes (S.left source.old) (S.left source.new) v.items
        × IsAtEnd (S.left source.new)) }
    ensures within { IfOk result (λ v. vec_len v ≤ limit) }
    ensures later { S.faults source.old ≤ S.faults source.new }

    // It is too large where that byte came, and only there.
    ensures large { IsErrOf result ReadEnd.TooLarge
        → Gave (S.left source.old) (S.left source.new) (λ count. count ≡ limit + 1) }
    ensures fault { IsErrOf result ReadEnd.ReadFault
        → Rose (S.faults source.old) (S.faults source.new) }
    ensures fault_within { IsErrOf result ReadEnd.ReadFault
        → Gave (S.left source.old) (S.left source.new) (λ count. count ≤ limit) }
    ensures no_memory_within { IsErrOf result ReadEnd.NoMemory
        → Gave (S.left source.old) (S.left source.new) (λ count. count ≤ limit) }
{
    let limit = limit as usize;
    let mut bytes = Vec::new(alloc);
    let mut buf = [0u8; PIECE];
    'pieces: loop {
        let room = limit - bytes.len();
        let lent = room.saturating_add(1).min(PIECE);
        let Ok(count) = source.read(&mut buf[..lent]) else {
            return Err(ReadEnd::ReadFault);
        };
        if count == 0 {
            return Ok(bytes);
        }
        if count > room {
            return Err(ReadEnd::TooLarge);
        }
        bytes.extend_from_slice(&buf[..count])?;
    }
}
