//! The keys that are derived for an algorithm (docs/FORMATS.md, "Derivation").

ghost use Rattle.std.specs.Prelude.{◌≡◌, ◌≤◌, length, take};
ghost use Rattle.sha2.specs.Sha512.{sha512};
ghost use Rattle.hmac_sha2.specs.Hmac.{hmac};
ghost use Rattle.kdf_ctr.specs.Kdf.{kdf};
ghost use Rattle.context_header.specs.Algorithms.{key_len, mac_len, size_len};
ghost use Rattle.context_header.specs.Keys.{key_pair};

use aes_block::Aes;
use dp_base::{AesSize, Alg};
use hmac_sha2::HmacSha512;
use kdf_ctr::derive;
use std::marker::Model;

// The most bytes that both keys have together: 32 and 64.
const MOST: usize = 96;

/// A key of the cipher, which is expanded once, and a key of the keyed hash.
#[derive(Drop)]
pub struct Keys {
    cipher: Aes,
    // The bytes of both keys.
    bytes: [u8; 96],
    // The key of the hash lies between these places.
    from: usize,
    to: usize,
}

impl Model for Keys {
    ghost use Rattle.std.specs.Prelude.{take, drop, ◌-◌, ◌≤◌};
    ghost use Rattle.context_header.specs.Keys.{KeyPair};

    ghost Value = { KeyPair };

    ghost view = { λ k. record {
      encryption = k.cipher;
      validation = take (k.to - k.from) (drop k.from k.bytes);
    } };

    ghost invariant = { λ k. (k.from ≤ k.to) × (k.to ≤ 96) };
}

impl Keys {
    /// Derives both keys (SP 800-108, over HMAC with SHA-512) from a key, a label and a context. Takes
    /// no memory.
    pub fn derive(alg: Alg, key: &[u8], label: &[u8], context: &[u8]) -> Keys
        ensures { result ≡ key_pair alg key.now label.now context.now }
    {
        let from = key_len(alg);
        let to = from + mac_len(alg);
        let bytes = derived_bytes(key, label, context, to);
        let Ok(cipher) = Aes::new(&bytes[..from]) else {
            unreachable!()
        };
        Keys {
            cipher,
            bytes,
            from,
            to,
        }
    }

    /// The cipher under its key.
    pub fn cipher(&self) -> &Aes
        ensures { result.now ≡ self.now.encryption }
    {
        &self.cipher
    }

    /// The key of the hash; none under GCM.
    pub fn validation(&self) -> &[u8]
        ensures { result.now ≡ self.now.validation }
    {
        &self.bytes[self.from..self.to]
    }
}

// So many derived bytes, in front of zeros.
fn derived_bytes(key: &[u8], label: &[u8], context: &[u8], len: usize) -> [u8; 96]
    requires { len ≤ 96 }
    ensures { take len result ≡ kdf (hmac sha512 128) 64 key.now label.now context.now len }
{
    let mut bytes = [0; MOST];
    write_derived(key, label, context, &mut bytes[..len]);
    bytes
}

// Fills `out` with derived bytes, of which there are few enough.
fn write_derived(key: &[u8], label: &[u8], context: &[u8], out: &mut [u8])
    requires { length out.old ≤ 96 }
    ensures { out.new
        ≡ kdf (hmac sha512 128) 64 key.now label.now context.now (length out.old) }
{
    let Ok(()) = derive::<HmacSha512>(key, label, context, out) else {
        unreachable!()
    };
}

/// The bytes of the cipher's key.
pub fn key_len(alg: Alg) -> usize
    ensures { result ≡ key_len alg }
{
    match alg {
        Alg::Cbc256(size) | Alg::Cbc512(size) | Alg::Gcm(size) => size_len(size),
    }
}

/// The bytes of the key of the keyed hash, and of its value; 0 under GCM.
pub fn mac_len(alg: Alg) -> usize
    ensures { result ≡ mac_len alg }
{
    match alg {
        Alg::Cbc256(_) => 32,
        Alg::Cbc512(_) => 64,
        Alg::Gcm(_) => 0,
    }
}

// The bytes of a key of this size.
fn size_len(size: AesSize) -> usize
    ensures { result ≡ size_len size }
{
    match size {
        AesSize::A128 => 16,
        AesSize::A192 => 24,
        AesSize::A256 => 32,
    }
}
