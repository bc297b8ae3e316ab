//! Bytes that go out.
ghost use Rattle.std.specs.Prelude.{◌<◌, List, ℕ, Option, length, take, IfOk, OnOk, OnErr};
ghost use Rattle.std.specs.Io.{WritesAtMost};
ghost use Rattle.std.specs.Io.KnownBytes.{Appends, WriteAppends};
ghost use Rattle.volap_io.specs.Failing.{HasCause};

use crate::Failed;

/// A sink for bytes.
pub trait Sink {
    /// The bytes that were taken, where the sink tells them.
    ghost taken: { Self → Option (List ℕ) };

    /// How often a write has failed, in a count that may stay at the last value of a u64.
    ghost faults: { Self → ℕ };

    /// Takes the first bytes of a piece, at least one if it has any. Where it fails, it takes none.
    fn write(&mut self, piece: &[u8]) -> Result<usize, Failed>
        ensures bound { WritesAtMost result piece.now }
        ensures some { IfOk result (λ n. 0 < length piece.now → 0 < n) }
        ensures bytes { WriteAppends (taken self.old) (taken self.new) result piece.now }
        ensures cause { HasCause (faults self.old) (faults self.new) result };
}

/// Hands all the bytes to a sink, the whole rest at each write.
/// Where a write fails, the sink has taken some of the first of them, and not all.
pub fn write_all<K: Sink>(sink: &mut K, bytes: &[u8]) -> Result<(), Failed>
    ensures all { OnOk result (Appends (K.taken sink.old) (K.taken sink.new) bytes.now) }
    ensures part { OnErr result ((n : ℕ) × (n < length bytes.now)
        × Appends (K.taken sink.old) (K.taken sink.new) (take n bytes.now)) }
    ensures cause { HasCause (K.faults sink.old) (K.faults sink.new) result }
{
    let mut done = 0;
    'rest: while done < bytes.len() {
        done += sink.write(&bytes[done..])?;
    }
    Ok(())
}
