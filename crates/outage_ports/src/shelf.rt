//! A place that files are read from by name.
ghost use Rattle.std.specs.Prelude.{◌≡◌, ◌≤◌, ◌<◌, List, ℕ, Bool, true, Option, length, IfOk, OnOk, OnErr};
ghost use Rattle.outage_ports.specs.Causes.{HasCause};
ghost use Rattle.outage_ports.specs.Bytes.{Files, Starts, Takes};

use crate::Failed;

/// Files that are started by name and then read from the front, one at a time.
pub trait Shelf {
    /// The test of names: whether a file of this name may be started.
    ghost allows: { List ℕ → Type 0 };

    /// The files by name, where they are told.
    ghost files: { Self → Option Files };

    /// The bytes that are left of the started file, where they are told.
    ghost left: { Self → Option (List ℕ) };

    /// Whether some start has succeeded.
    ghost started: { Self → Bool };

    /// The count of faults, of which 2^64 - 1 is the last value.
    ghost faults: { Self → ℕ };

    /// Starts the file of this name from its front. Where it fails, the file that was started
    /// before is read on.
    fn start(&mut self, name: &str) -> Result<(), Failed>
        requires { allows name.now }
        ensures files { files self.new ≡ files self.old }
        ensures whole { OnOk result (Starts (files self.old) (left self.new) name.now) }
        ensures begun { OnOk result (started self.new ≡ true) }
        ensures same_left { OnErr result (left self.new ≡ left self.old) }
        ensures same_started { OnErr result (started self.new ≡ started self.old) }
        ensures cause { HasCause (faults self.old) (faults self.new) result };

    /// Reads the next bytes of the started file into the front of the buffer, and answers how
    /// many: none exactly at the end. What the rest of the buffer then holds is left open, as is all
    /// of it where the read fails; no byte of the file is passed over then.
    fn read(&mut self, into: &mut [u8]) -> Result<usize, Failed>
        requires room { 0 < length into.old }
        requires begun { started self.old ≡ true }
        ensures files { files self.new ≡ files self.old }
        ensures begun { started self.new ≡ true }
        ensures bound { IfOk result (λ n. n ≤ length into.old) }
        ensures bytes { IfOk result (λ n. Takes (left self.old) (left self.new) n into.new) }
        ensures same_left { OnErr result (left self.new ≡ left self.old) }
        ensures cause { HasCause (faults self.old) (faults self.new) result };
}
