//! What takes bytes.
ghost use Rattle.std.specs.Prelude.{◌≤◌, ◌<◌, List, ℕ, length, Option, IfOk};
ghost use Rattle.std.specs.Io.KnownBytes.{WriteAppends};
ghost use Rattle.device_faults.specs.Faults.{HasCause};

use device_faults::Failed;

/// An output that is written once, from its beginning on.
pub trait Sink {
    /// The bytes that were written, where the sink tells them.
    ghost written: { Self → Option (List ℕ) };

    /// How often the sink has failed.
    ghost faults: { Self → ℕ };

    /// Writes the first of these bytes, and answers how many: at least one where there is one.
    ///
    /// A sink that tells its bytes tells them after the call too.
    ///
    /// # Errors
    ///
    /// `Failed` where the sink failed. It has counted a fault then, and taken no byte.
    fn write(&mut self, bytes: &[u8]) -> Result<usize, Failed>
        ensures count { IfOk result (λ n. n ≤ length bytes.now) }
        ensures some { IfOk result (λ n. 0 < length bytes.now → 0 < n) }
        ensures bytes { WriteAppends (written self.old) (written self.new) result bytes.now }
        ensures cause { HasCause (faults self.old) (faults self.new) result };
}
