//! A place that bytes are written to.
ghost use Rattle.std.specs.Prelude.{◌≡◌, ◌≤◌, ◌<◌, List, ℕ, Option, length, IfOk, OnOk, OnErr, IsOk, []};
ghost use Rattle.std.specs.Io.KnownBytes.{Appends, WriteAppends};
ghost use Rattle.outage_ports.specs.Causes.{HasCause};
ghost use Rattle.outage_ports.specs.Bytes.{AppendsPrefix};

use crate::Failed;

/// A place that bytes are written to, one behind the other.
pub trait Sink {
    /// The bytes that were written, where they are told.
    ghost written: { Self → Option (List ℕ) };

    /// The count of faults, of which 2^64 - 1 is the last value.
    ghost faults: { Self → ℕ };

    /// Writes the first bytes of the piece, and answers how many: at least one. Where it fails, it
    /// writes nothing.
    fn write(&mut self, piece: &[u8]) -> Result<usize, Failed>
        requires { 0 < length piece.now }
        ensures some { IfOk result (λ n. 0 < n) }
        ensures bound { IfOk result (λ n. n ≤ length piece.now) }
        ensures bytes { WriteAppends (written self.old) (written self.new) result piece.now }
        ensures cause { HasCause (faults self.old) (faults self.new) result };

    /// Hands on what was written to whoever reads it, where the object holds it back. It appends
    /// nothing, whether it fails or not.
    fn flush(&mut self) -> Result<(), Failed>
        ensures bytes { written self.new ≡ written self.old }
        ensures cause { HasCause (faults self.old) (faults self.new) result };
}

/// Writes the whole piece: an empty one with no call. Where it fails, it has written a prefix of it.
pub fn put_all<K: Sink>(out: &mut K, piece: &[u8]) -> Result<(), Failed>
    ensures whole { OnOk result (Appends (K.written out.old) (K.written out.new) piece.now) }
    ensures empty { piece.now ≡ [] → IsOk result × (out.new ≡ out.old) }
    ensures part { OnErr result (AppendsPrefix (K.written out.old) (K.written out.new) piece.now) }
    ensures cause { HasCause (K.faults out.old) (K.faults out.new) result }
{
    let mut done = 0;
    while done < piece.len() {
        done += out.write(&piece[done..])?;
    }
    Ok(())
}
