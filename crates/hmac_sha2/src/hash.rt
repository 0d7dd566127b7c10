//! Hash functions that work through a message in blocks.

ghost use Rattle.std.specs.Prelude.{◌≡◌, ℕ, ◌≤◌, List, length};

use sha2::{Digest, Sha256, Sha512};

/// A hash function that works through its message in blocks, as HMAC needs it.
pub trait BlockHash: Digest {
    // The digest of a message.
    ghost hash: { List ℕ → List ℕ };

    // The bytes of a block, the standard's B.
    ghost block: { ℕ };

    /// The bytes of a block.
    fn block_size() -> usize
        ensures { result ≡ block };

    /// Ends the message, and writes its digest.
    fn finish_into(self, out: &mut [u8])
        requires { length out.old ≡ Self.size }
        ensures { (m : List ℕ) → Self.holds self m → out.new ≡ hash m };

    // A digest has bytes, fits a block, and a block has at most 128.
    ghost some: { 1 ≤ Self.size };

    ghost at_most: { Self.size ≤ 64 };

    ghost fits_block: { Self.size ≤ block };

    ghost block_at_most: { block ≤ 128 };

    ghost has_len: { (m : List ℕ) → length (hash m) ≡ Self.size };
}

impl BlockHash for Sha256 {
    ghost use Rattle.sha2.specs.Sha256.{sha256};
    ghost use Rattle.sha2.proofs.Facts256.{length-sha256};
    ghost use Rattle.std.proofs.Common.{lit≤};

    ghost hash = { sha256 };

    ghost block = { 64 };

    ghost some = { lit≤ tt };

    ghost at_most = { lit≤ tt };

    ghost fits_block = { lit≤ tt };

    ghost block_at_most = { lit≤ tt };

    ghost has_len = { length-sha256 };

    fn block_size() -> usize {
        64
    }

    fn finish_into(self, out: &mut [u8]) {
        out.copy_from_slice(&self.finalize());
    }
}

impl BlockHash for Sha512 {
    ghost use Rattle.sha2.specs.Sha512.{sha512};
    ghost use Rattle.sha2.proofs.Facts512.{length-sha512};
    ghost use Rattle.std.proofs.Common.{lit≤};

    ghost hash = { sha512 };

    ghost block = { 128 };

    ghost some = { lit≤ tt };

    ghost at_most = { lit≤ tt };

    ghost fits_block = { lit≤ tt };

    ghost block_at_most = { lit≤ tt };

    ghost has_len = { length-sha512 };

    fn block_size() -> usize {
        128
    }

    fn finish_into(self, out: &mut [u8]) {
        out.copy_from_slice(&self.finalize());
    }
}
