//! Where input comes from.

ghost use Rattle.std.specs.Prelude.{◌≡◌, ℕ, ◌≤◌, List, Option, IfOk, OnOk, OnErr, length};
ghost use Rattle.std.specs.Io.KnownBytes.{ReadConsumes};
ghost use Rattle.dp_base.specs.Counts.{one_more};

use thiserror::Error;

/// A call on the outside that did not do its work.
#[derive(Clone, Copy, Debug, PartialEq, Eq, Error)]
#[error("the call failed")]
pub struct Failed;

/// A source of bytes. It counts its faults.
pub trait Source {
    // The bytes left, where they are told.
    ghost left: { Self → Option (List ℕ) };

    // How many calls failed, up to the greatest `u64`.
    ghost faults: { Self → ℕ };

    /// Puts bytes at the front of the buffer, and answers how many. 0 for a buffer that isn't empty
    /// is the end of input.
    fn read(&mut self, buffer: &mut [u8]) -> Result<usize, Failed>
        ensures bound { IfOk result (λ n. n ≤ length buffer.new) }

        // The bytes are the next of those left, and a failure takes none.
        ensures bytes { ReadConsumes (left self.old) (left self.new) result buffer.new }

        ensures no_fault { OnOk result (faults self.new ≡ faults self.old) }
        ensures fault { OnErr result (faults self.new ≡ one_more (faults self.old)) };
}
