//! GHASH (SP 800-38D, 6.4): a hash of blocks, keyed by a block.

ghost use Rattle.std.specs.Prelude.{◌≡◌, ◌*◌, ◌-◌, ◌<◌, ◌≤◌, ◌^◌, ◌++◌, length, replicate};
ghost use Rattle.std.specs.Int.{w64, to_be_bytes};
ghost use Rattle.dp_base.specs.Split.{blocks};
ghost use Rattle.gcm_mode.specs.Ghash.{ghash, hash_blocks, zero_filled};

use crate::key::GhashKey;
use crate::product::{block_of, number_of};
use dp_base::be64;

/// The hash under `h` of additional data and a text, each filled with zeros to whole blocks of 16
/// bytes, and of their lengths in bits. Takes no memory. It works by a table, and not in constant
/// time.
pub fn ghash(h: &[u8; 16], aad: &[u8], text: &[u8]) -> [u8; 16]
    requires aad { length aad.now < 2 ^ 32 }
    requires text { length text.now < 2 ^ 32 }
    ensures { result ≡ ghash h.now aad.now text.now }
{
    let key = GhashKey::new(h);
    let state = absorbed(&key, absorbed(&key, 0, aad), text);
    let lengths = length_block(aad.len(), text.len());
    block_of(key.product(state ^ number_of(&lengths)))
}

// The state after the bytes, filled with zeros to whole blocks.
fn absorbed(key: &GhashKey, state: u128, bytes: &[u8]) -> u128
    ensures { result ≡ hash_blocks key.now state (blocks (zero_filled bytes.now)) }
{
    let (whole, rest) = bytes.as_chunks::<16>();
    let y = absorbed_blocks(key, state, whole);
    if rest.is_empty() {
        y
    } else {
        key.product(y ^ number_of(&filled(rest)))
    }
}

// The state after the blocks.
fn absorbed_blocks(key: &GhashKey, state: u128, blocks: &[[u8; 16]]) -> u128
    ensures { result ≡ hash_blocks key.now state blocks.now }
{
    let mut y = state;
    for block in blocks {
        y = key.product(y ^ number_of(block));
    }
    y
}

// The block that begins with the piece, and has zeros behind it.
fn filled(piece: &[u8]) -> [u8; 16]
    requires { length piece.now ≤ 16 }
    ensures { result ≡ piece.now ++ replicate (16 - length piece.now) 0 }
{
    let mut block = [0; 16];
    block[..piece.len()].copy_from_slice(piece);
    block
}

// Two lengths in bytes, as numbers of bits.
fn length_block(aad: usize, text: usize) -> [u8; 16]
    requires aad { aad < 2 ^ 32 }
    requires text { text < 2 ^ 32 }
    ensures { result ≡ to_be_bytes w64 (8 * aad) ++ to_be_bytes w64 (8 * text) }
{
    let mut block = [0; 16];
    block[..8].copy_from_slice(&be64(8 * aad as u64));
    block[8..].copy_from_slice(&be64(8 * text as u64));
    block
}
