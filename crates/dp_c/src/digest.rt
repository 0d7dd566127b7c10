//! The hash functions under the keyed hashes, alone.

ghost use Rattle.std.specs.Prelude.{◌≡◌};
ghost use Rattle.sha2.specs.Sha256.{sha256};
ghost use Rattle.sha2.specs.Sha512.{sha512};

use sha2::{Digest, Sha256, Sha512};

/// Writes the SHA-256 digest of the bytes.
#[unsafe(no_mangle)]
pub extern "C" fn dp_sha256(bytes: &[u8], out: &mut [u8; 32])
    ensures { out.new ≡ sha256 bytes.now }
{
    *out = Sha256::digest(bytes);
}

/// Writes the SHA-512 digest of the bytes.
#[unsafe(no_mangle)]
pub extern "C" fn dp_sha512(bytes: &[u8], out: &mut [u8; 64])
    ensures { out.new ≡ sha512 bytes.now }
{
    *out = Sha512::digest(bytes);
}
