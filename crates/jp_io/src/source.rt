//! What gives bytes.
ghost use Rattle.std.specs.Prelude.{◌≤◌, List, ℕ, length, Option, IfOk};
ghost use Rattle.std.specs.Io.KnownBytes.{ReadConsumes};
ghost use Rattle.device_faults.specs.Faults.{HasCause};

use device_faults::Failed;

/// An input that is read once, from its beginning to its end.
pub trait Source {
    /// The bytes still to come, where the source tells them.
    ghost left: { Self → Option (List ℕ) };

    /// How often the source has failed.
    ghost faults: { Self → ℕ };

    /// Reads at most as many bytes as the buffer has into its front, and answers how many.
    ///
    /// 0 for a buffer that is not empty is the end of the input. A source that tells its bytes tells them
    /// after the call too.
    ///
    /// # Errors
    ///
    /// `Failed` where the source failed. It has counted a fault then, and given no byte.
    fn read(&mut self, buf: &mut [u8]) -> Result<usize, Failed>
        ensures count { IfOk result (λ n. n ≤ length buf.new) }
        ensures bytes { ReadConsumes (left self.old) (left self.new) result buf.new }
        ensures cause { HasCause (faults self.old) (faults self.new) result };
}
