//! Sealing and opening of texts: counter mode and the tag together (SP 800-38D, 7).

ghost use Rattle.std.specs.Prelude.{◌≡◌, ◌≢◌, ◌↔◌, ◌<◌, ◌≤◌, ◌^◌, ℕ, List, length, IfOk, MatchResult};
ghost use Rattle.dp_base.specs.Blocks.{AreBytes};
ghost use Rattle.gcm_mode.specs.Ctr.{ctr};
ghost use Rattle.gcm_mode.specs.Gcm.{gcm_tag, sealed};

use crate::counter::{encipher, stream_block};
use crate::hash::ghash;
use dp_base::{BlockCipher, Memory, xor_into};
use std::alloc::{AllocError, Global};
use thiserror::Error;

/// Why a text isn't opened.
#[derive(Clone, Copy, Debug, PartialEq, Eq, Error)]
pub enum GcmRefused {
    /// The tag is another than that of the data and the enciphered text.
    #[error("the tag differs")]
    BadTag,
    /// No memory was found for the text.
    #[error("no memory")]
    Memory,
}

impl From<AllocError> for GcmRefused {
    ghost use Rattle.gcm_mode.specs.declared.seal.GcmRefused.{GcmRefused};

    ghost from_gives = { λ _ refused. refused ≡ GcmRefused.Memory };

    fn from(_: AllocError) -> Self {
        GcmRefused::Memory
    }
}

/// Enciphers the text under a nonce that no other text of the key may have, and appends the tag of 16
/// bytes over the data and the enciphered bytes. A nonce that comes twice under one key gives the key
/// of the hash away.
pub fn gcm_seal<B: BlockCipher>(
    alloc: Global,
    cipher: &B,
    nonce: &[u8; 12],
    aad: &[u8],
    plain: &[u8],
) -> Result<Vec<u8>, Memory>
    requires aad { length aad.now < 2 ^ 32 }
    requires text { length plain.now < 2 ^ 32 }
    ensures { IfOk result (λ v.
        v.items ≡ sealed (B.cipher cipher.now) nonce.now aad.now plain.now) }
{
    let mut text = copy_enciphered(alloc, cipher, nonce, plain, 16)?;
    let tag = gcm_tag(cipher, nonce, aad, &text);
    text.extend_from_slice(&tag)?;
    Ok(text)
}

/// Compares the tag of the data and the enciphered bytes, and then deciphers them. The comparison
/// doesn't run in constant time.
pub fn gcm_open<B: BlockCipher>(
    alloc: Global,
    cipher: &B,
    nonce: &[u8; 12],
    aad: &[u8],
    enciphered: &[u8],
    tag: &[u8; 16],
) -> Result<Vec<u8>, GcmRefused>
    requires aad { length aad.now < 2 ^ 32 }
    requires text { length enciphered.now < 2 ^ 32 }

    // The text is the one that is enciphered so.
    ensures found { IfOk result (λ v.
        enciphered.now ≡ ctr (B.cipher cipher.now) nonce.now v.items) }
    ensures bytes { IfOk result (λ v. AreBytes v.items) }
    ensures only { (text : List ℕ)
        → enciphered.now ≡ ctr (B.cipher cipher.now) nonce.now text
        → tag.now ≡ gcm_tag (B.cipher cipher.now) nonce.now aad.now enciphered.now
        → MatchResult result (λ v. v.items ≡ text) (λ e. e ≡ GcmRefused.Memory) }

    // The tag is compared before memory is asked for.
    ensures bad_tag { (result ≡ Err GcmRefused.BadTag)
        ↔ (tag.now ≢ gcm_tag (B.cipher cipher.now) nonce.now aad.now enciphered.now) }
{
    if *tag != gcm_tag(cipher, nonce, aad, enciphered) {
        return Err(GcmRefused::BadTag);
    }
    Ok(copy_enciphered(alloc, cipher, nonce, enciphered, 0)?)
}

// A copy of the bytes, enciphered or deciphered, with room for so many more.
fn copy_enciphered<B: BlockCipher>(
    alloc: Global,
    cipher: &B,
    nonce: &[u8; 12],
    bytes: &[u8],
    more: usize,
) -> Result<Vec<u8>, AllocError>
    requires few { more ≤ 16 }
    requires text { length bytes.now < 2 ^ 32 }
    ensures { IfOk result (λ v. v.items ≡ ctr (B.cipher cipher.now) nonce.now bytes.now) }
{
    let mut text = Vec::with_capacity(alloc, bytes.len() + more)?;
    text.extend_from_slice(bytes)?;
    encipher(cipher, nonce, &mut text);
    Ok(text)
}

/// The tag of the data and of enciphered bytes. Takes no memory.
pub fn gcm_tag<B: BlockCipher>(
    cipher: &B,
    nonce: &[u8; 12],
    aad: &[u8],
    enciphered: &[u8],
) -> [u8; 16]
    requires aad { length aad.now < 2 ^ 32 }
    requires text { length enciphered.now < 2 ^ 32 }
    ensures { result ≡ gcm_tag (B.cipher cipher.now) nonce.now aad.now enciphered.now }
{
    let mut key = [0; 16];
    cipher.encrypt_block(&mut key);
    let mut tag = ghash(&key, aad, enciphered);
    xor_into(&mut tag, &stream_block(cipher, nonce, 1));
    tag
}
