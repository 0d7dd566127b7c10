//! HMAC of a text that is fed in two pieces.

ghost use Rattle.std.specs.Prelude.{◌≡◌, ◌++◌, List, ℕ};
ghost use Rattle.sha2.specs.Sha256.{sha256};
ghost use Rattle.sha2.specs.Sha512.{sha512};
ghost use Rattle.hmac_sha2.specs.Hmac.{hmac};

use dp_base::Prf;
use hmac_sha2::{HmacSha256, HmacSha512};

/// Writes HMAC-SHA-256 of the two pieces as one text.
#[unsafe(no_mangle)]
pub extern "C" fn dp_hmac_sha256(key: &[u8], first: &[u8], second: &[u8], out: &mut [u8; 32])
    ensures { out.new ≡ hmac sha256 64 key.now (first.now ++ second.now) }
{
    let mut keyed = HmacSha256::new(key);
    keyed.update(first);
    keyed.update(second);
    keyed.finish(out);
}

/// Writes HMAC-SHA-512 of the two pieces as one text.
#[unsafe(no_mangle)]
pub extern "C" fn dp_hmac_sha512(key: &[u8], first: &[u8], second: &[u8], out: &mut [u8; 64])
    ensures { out.new ≡ hmac sha512 128 key.now (first.now ++ second.now) }
{
    let mut keyed = HmacSha512::new(key);
    keyed.update(first);
    keyed.update(second);
    keyed.finish(out);
}
