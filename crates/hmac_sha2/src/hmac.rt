//! The keyed hash (FIPS 198-1, 4). Section and step numbers are the standard's.

ghost use Rattle.std.specs.Prelude.{◌≡◌, ◌≤◌, List, ℕ, length, replicate};
ghost use Rattle.sha2.specs.Sha256.{sha256};
ghost use Rattle.sha2.specs.Sha512.{sha512};
ghost use Rattle.hmac_sha2.specs.Hmac.{block_key, hmac, xor_pad};

use crate::hash::BlockHash;
use dp_base::Prf;
use sha2::{Digest, Sha256, Sha512};

// The bytes of the longest block that a `BlockHash` has.
const MAX_BLOCK: usize = 128;

// ipad and opad (2.3).
const INNER_PAD: u8 = 0x36;

const OUTER_PAD: u8 = 0x5c;

/// HMAC under one key, with SHA-256: a value has 32 bytes.
pub type HmacSha256 = Hmac<Sha256>;

/// HMAC under one key, with SHA-512: a value has 64 bytes.
pub type HmacSha512 = Hmac<Sha512>;

/// HMAC under one key (FIPS 198-1), over the hash function `H`.
#[derive(Drop)]
pub struct Hmac<H> {
    // Begun with K0 xor ipad, and then fed the message.
    inner: H,
    // Begun with K0 xor opad.
    outer: H,
}

impl<H: BlockHash> Prf for Hmac<H> {
    ghost use Rattle.hmac_sha2.specs.Hmac.{HoldsText};

    ghost value = { hmac H.hash H.block };

    ghost value_len = { H.size };

    ghost holds = { λ s k m. HoldsText H.holds (block_key H.hash H.block k) m s.inner s.outer };

    ghost some = { H.some };

    ghost at_most = { H.at_most };

    ghost has_len = { λ k m. H.has_len _ };

    fn size() -> usize {
        H::output_size()
    }

    fn new(key: &[u8]) -> Hmac<H> {
        let mut room = [0; MAX_BLOCK];
        let k0 = &mut room[..H::block_size()];
        write_block_key::<H>(key, k0);
        Hmac {
            inner: begun(k0, INNER_PAD),
            outer: begun(k0, OUTER_PAD),
        }
    }

    fn update(&mut self, piece: &[u8]) {
        self.inner.update(piece);
    }

    fn finish(self, out: &mut [u8]) {
        let Hmac { inner, mut outer } = self;
        inner.finish_into(out);
        outer.update(&*out);
        outer.finish_into(out);
    }
}

/// What the values of the two are: the definition over SHA-256 with blocks of 64 bytes, and over
/// SHA-512 with blocks of 128.
pub fn values_are_hmac()
    ensures sha256 { (key text : List ℕ)
        → ⟦<HmacSha256 as Prf>⟧.value key text ≡ hmac sha256 64 key text }
    ensures sha512 { (key text : List ℕ)
        → ⟦<HmacSha512 as Prf>⟧.value key text ≡ hmac sha512 128 key text }
{}

// K0 of the key (4, steps 1 to 3), over a block of zeros.
fn write_block_key<H: BlockHash>(key: &[u8], block: &mut [u8])
    requires { block.old ≡ replicate H.block 0 }
    ensures { block.new ≡ block_key H.hash H.block key.now }
{
    if key.len() <= H::block_size() {
        block[..key.len()].copy_from_slice(key);
    } else {
        let mut hasher = H::new();
        hasher.update(key);
        hasher.finish_into(&mut block[..H::output_size()]);
    }
}

// A hasher that was fed K0 xor the pad (4, steps 4 and 7).
fn begun<H: BlockHash>(k0: &[u8], pad: u8) -> H
    requires { length k0.now ≤ 128 }
    ensures { H.holds result (xor_pad k0.now pad) }
{
    let mut room = [0; MAX_BLOCK];
    let block = &mut room[..k0.len()];
    block.copy_from_slice(k0);
    xor_each(block, pad);
    let mut hasher = H::new();
    hasher.update(&*block);
    hasher
}

// Each byte xor the pad.
fn xor_each(bytes: &mut [u8], pad: u8)
    ensures { bytes.new ≡ xor_pad bytes.old pad }
{
    for byte in bytes.iter_mut() {
        *byte ^= pad;
    }
}
