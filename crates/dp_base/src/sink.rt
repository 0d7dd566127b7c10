//! Where output goes.

ghost use Rattle.std.specs.Prelude.{◌≡◌, ℕ, ◌≤◌, ◌<◌, List, Option, IfOk, OnOk, OnErr, length};
ghost use Rattle.std.specs.Io.KnownBytes.{WriteAppends};
ghost use Rattle.dp_base.specs.Counts.{one_more};

use crate::source::Failed;

/// A sink of bytes. It counts its faults.
pub trait Sink {
    // The bytes written, where they are told.
    ghost written: { Self → Option (List ℕ) };

    // How many calls failed, up to the greatest `u64`.
    ghost faults: { Self → ℕ };

    /// Takes bytes from the front of the piece, and answers how many: at least one where the piece
    /// isn't empty.
    fn write(&mut self, piece: &[u8]) -> Result<usize, Failed>
        ensures bound { IfOk result (λ n. n ≤ length piece.now) }
        ensures some { IfOk result (λ n. 0 < length piece.now → 0 < n) }

        // The front of the piece stands behind what was written, and a failure adds nothing.
        ensures bytes { WriteAppends (written self.old) (written self.new) result piece.now }

        ensures no_fault { OnOk result (faults self.new ≡ faults self.old) }
        ensures fault { OnErr result (faults self.new ≡ one_more (faults self.old)) };
}
