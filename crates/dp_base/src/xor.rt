//! The sum of bytes in place, as modes of block ciphers take it.

ghost use Rattle.std.specs.Prelude.{◌≡◌, ◌≤◌, length};
ghost use Rattle.dp_base.specs.Blocks.{xor_bytes};

/// Each byte xor the one at its place in the other, of which bytes may be left over.
#[inline]
pub fn xor_into(bytes: &mut [u8], other: &[u8])
    requires { length bytes.old ≤ length other.now }
    ensures { bytes.new ≡ xor_bytes bytes.old other.now }
{
    for i in 0..bytes.len() {
        bytes[i] ^= other[i];
    }
}
