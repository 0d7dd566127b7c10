//! Context headers (docs/FORMATS.md, "Context header").

ghost use Rattle.std.specs.Prelude.{◌≡◌, ◌+◌, ◌≤◌, ◌<◌, ◌^◌, [], ◌∷◌, ◌++◌, length, take, replicate};
ghost use Rattle.aes_block.specs.Cipher.{aes_cipher};
ghost use Rattle.cbc_mode.specs.Cbc.{ciphertext};
ghost use Rattle.cbc_mode.specs.Pad.{pad};
ghost use Rattle.gcm_mode.specs.Gcm.{gcm_tag};
ghost use Rattle.context_header.specs.Header.{context_header, counts};
ghost use Rattle.context_header.specs.Keys.{key_pair};

use crate::keys::{Keys, key_len, mac_len};
use dp_base::{Alg, BlockCipher, Prf, be32};
use gcm_mode::gcm_tag;
use hmac_sha2::{HmacSha256, HmacSha512};
use std::marker::Model;

// The bytes of the longest header.
const MOST: usize = 98;

// The bytes of the longest header and of a modifier.
const MOST_CONTEXT: usize = 114;

// The bytes of the kind and of four counts.
const FRONT_LEN: usize = 18;

// The bytes of a block, and of GCM's tag.
const BLOCK_LEN: usize = 16;

/// The context header of one algorithm: 66 bytes for CBC with SHA-256, 98 for CBC with SHA-512, and 34
/// for GCM.
#[derive(Drop)]
pub struct Header {
    alg: Alg,
    bytes: [u8; 98],
    len: usize,
}

// Clauses see the algorithm, which determines the bytes.
impl Model for Header {
    ghost use Rattle.std.specs.Prelude.{◌≡◌, ◌≤◌, take};
    ghost use Rattle.dp_base.specs.declared.alg.Alg.{Alg};
    ghost use Rattle.context_header.specs.Header.{context_header};

    ghost Value = { Alg };

    ghost view = { λ h. h.alg };

    ghost invariant = { λ h. (h.len ≤ 98) × (take h.len h.bytes ≡ context_header h.alg) };
}

impl Header {
    /// The algorithm.
    pub fn alg(&self) -> Alg
        ensures { result ≡ self.now }
    {
        self.alg
    }

    /// The bytes.
    pub fn bytes(&self) -> &[u8]
        ensures { result.now ≡ context_header self.now }
    {
        &self.bytes[..self.len]
    }

    /// The keys that a key and a label give under this header and a modifier, which are the context of
    /// the derivation. Takes no memory.
    pub fn keys(&self, key: &[u8], label: &[u8], modifier: &[u8]) -> Keys
        requires { length modifier.now ≤ 16 }
        ensures { result
            ≡ key_pair self.now key.now label.now (context_header self.now ++ modifier.now) }
    {
        let end = self.len + modifier.len();
        let mut context = [0; MOST_CONTEXT];
        put(&mut context, 0, &self.bytes[..self.len]);
        put(&mut context, self.len, modifier);
        Keys::derive(self.alg, key, label, &context[..end])
    }

    /// The same header once more. Takes no memory.
    pub fn copied(&self) -> Header
        ensures { result ≡ self.now }
    {
        Header {
            alg: self.alg,
            bytes: self.bytes,
            len: self.len,
        }
    }
}

/// Works out the header of the algorithm: a derivation, and a few blocks of its cipher. Takes no
/// memory.
pub fn header_of(alg: Alg) -> Header
    ensures { result ≡ alg }
{
    let keys = Keys::derive(alg, &[], &[], &[]);
    let mut bytes = [0; MOST];
    match alg {
        Alg::Cbc256(_) => write_cbc::<HmacSha256>(key_len(alg), &keys, &mut bytes),
        Alg::Cbc512(_) => write_cbc::<HmacSha512>(key_len(alg), &keys, &mut bytes),
        Alg::Gcm(_) => write_gcm(key_len(alg), &keys, &mut bytes),
    }
    let len = FRONT_LEN + BLOCK_LEN + mac_len(alg);
    Header { alg, bytes, len }
}

// The header of CBC with this keyed hash: counts, the empty text enciphered, and its value.
fn write_cbc<P: Prf>(key_len: usize, keys: &Keys, bytes: &mut [u8; 98])
    requires { key_len < 2 ^ 32 }
    ensures { take (34 + P.value_len) bytes.new
        ≡ (0 ∷ 0 ∷ counts key_len 16 P.value_len P.value_len)
        ++ ciphertext (aes_cipher keys.now.encryption) (replicate 16 0) (pad [])
        ++ P.value keys.now.validation [] }
{
    // The empty text is padded by 16 bytes of 16, to which the vector of zeros adds nothing.
    let mut block = [16; BLOCK_LEN];
    keys.cipher().encrypt_block(&mut block);
    let mut room = [0; 64];
    let value = &mut room[..P::size()];
    P::new(keys.validation()).finish(value);
    let digest = P::size() as u32;
    put(bytes, 0, &front(0, key_len as u32, 16, digest, digest));
    put(bytes, FRONT_LEN, &block);
    put(bytes, FRONT_LEN + BLOCK_LEN, value);
}

// The header of GCM: counts, and the tag of the empty text under a nonce of zeros.
fn write_gcm(key_len: usize, keys: &Keys, bytes: &mut [u8; 98])
    requires { key_len < 2 ^ 32 }
    ensures { take 34 bytes.new
        ≡ (0 ∷ 1 ∷ counts key_len 12 16 16)
        ++ gcm_tag (aes_cipher keys.now.encryption) (replicate 12 0) [] [] }
{
    let tag = gcm_tag(keys.cipher(), &[0; 12], &[], &[]);
    put(bytes, 0, &front(1, key_len as u32, 12, 16, 16));
    put(bytes, FRONT_LEN, &tag);
}

// The kind in two bytes, and four counts.
fn front(kind: u8, a: u32, b: u32, c: u32, d: u32) -> [u8; 18]
    ensures { result ≡ 0 ∷ kind ∷ counts a b c d }
{
    let [a0, a1, a2, a3] = be32(a);
    let [b0, b1, b2, b3] = be32(b);
    let [c0, c1, c2, c3] = be32(c);
    let [d0, d1, d2, d3] = be32(d);
    [
        0, kind, a0, a1, a2, a3, b0, b1, b2, b3, c0, c1, c2, c3, d0, d1, d2, d3,
    ]
}

// Writes the piece at the place.
fn put(bytes: &mut [u8], at: usize, piece: &[u8])
    requires { at + length piece.now ≤ length bytes.old }
    ensures { take (at + length piece.now) bytes.new ≡ take at bytes.old ++ piece.now }
{
    bytes[at..at + piece.len()].copy_from_slice(piece);
}
