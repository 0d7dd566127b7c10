//! AES in Galois/Counter Mode, with nonces of 96 bits and tags of 128.

ghost use Rattle.std.specs.Prelude.{◌≡◌, ◌≢◌, ℕ, ◌<◌, ◌≤◌, ◌+◌, ◌-◌, ◌^◌, ◌⊎◌, ◌↔◌, List, length, take, drop};
ghost use Rattle.aes_block.specs.Cipher.{aes_cipher};
ghost use Rattle.aes_block.specs.KeyExpansion.{IsKeyLength};
ghost use Rattle.gcm_mode.specs.Gcm.{gcm_tag, sealed};
ghost use Rattle.dp_c.specs.Limits.{FitsGcm};
ghost use Rattle.dp_c.specs.declared.answer.TheConstants.{BAD_KEY_LENGTH, BAD_LENGTH, BAD_TAG, DONE, NO_MEMORY, NO_ROOM, TOO_LONG};

use crate::answer::{BAD_KEY_LENGTH, BAD_LENGTH, BAD_TAG, NO_MEMORY, TOO_LONG};
use crate::room::{hand_out, is_long};
use aes_block::Aes;
use gcm_mode::{GcmRefused, gcm_open, gcm_seal};
use std::alloc::Global;

// The bytes of a tag.
const TAG_LEN: usize = 16;

/// Enciphers the text into the front of `out`, writes the tag of the data and the enciphered text behind
/// it, and tells how many bytes it wrote. It writes only where it is done. No two texts of one key may
/// have the same nonce.
#[unsafe(no_mangle)]
pub extern "C" fn dp_gcm_seal(
    alloc: Global,
    key: &[u8],
    nonce: &[u8; 12],
    aad: &[u8],
    plain: &[u8],
    out: &mut [u8],
    written: &mut usize,
) -> u32
    ensures done { result ≡ DONE → (written.new ≤ length out.new)
        × (take written.new out.new ≡ sealed (aes_cipher key.now) nonce.now aad.now plain.now) }
    ensures behind { result ≡ DONE → drop written.new out.new ≡ drop written.new out.old }
    ensures bad_key_length { (result ≡ BAD_KEY_LENGTH) ↔ ¬ (IsKeyLength (length key.now)) }
    ensures too_long { (result ≡ TOO_LONG) ↔ (IsKeyLength (length key.now)
        × ((2 ^ 32 ≤ length aad.now) ⊎ (2 ^ 32 ≤ length plain.now))) }
    ensures no_room { result ≡ NO_ROOM
        → length out.old < length (sealed (aes_cipher key.now) nonce.now aad.now plain.now) }
    ensures unchanged { result ≢ DONE → (out.new ≡ out.old) × (written.new ≡ written.old) }
    ensures others { (result ≡ DONE) ⊎ (result ≡ BAD_KEY_LENGTH) ⊎ (result ≡ TOO_LONG)
        ⊎ (result ≡ NO_MEMORY) ⊎ (result ≡ NO_ROOM) }
{
    let Ok(aes) = Aes::new(key) else {
        return BAD_KEY_LENGTH;
    };
    if is_long(aad) || is_long(plain) {
        return TOO_LONG;
    }
    match gcm_seal(alloc, &aes, nonce, aad, plain) {
        Ok(body) => hand_out(&body, out, written),
        Err(_) => NO_MEMORY,
    }
}

/// Compares the tag at the end of the body, and then deciphers what is before it into the front of
/// `out`, and tells how many bytes it wrote. It writes only where it is done.
#[unsafe(no_mangle)]
pub extern "C" fn dp_gcm_open(
    alloc: Global,
    key: &[u8],
    nonce: &[u8; 12],
    aad: &[u8],
    body: &[u8],
    out: &mut [u8],
    written: &mut usize,
) -> u32
    ensures done { result ≡ DONE → (written.new ≤ length out.new)
        × (body.now ≡ sealed (aes_cipher key.now) nonce.now aad.now (take written.new out.new)) }
    ensures behind { result ≡ DONE → drop written.new out.new ≡ drop written.new out.old }
    ensures bad_key_length { (result ≡ BAD_KEY_LENGTH) ↔ ¬ (IsKeyLength (length key.now)) }
    ensures bad_length { (result ≡ BAD_LENGTH)
        ↔ (IsKeyLength (length key.now) × (length body.now < 16)) }
    ensures too_long { (result ≡ TOO_LONG) ↔ (IsKeyLength (length key.now)
        × (16 ≤ length body.now) × ((2 ^ 32 ≤ length aad.now) ⊎ (2 ^ 32 ≤ length body.now - 16))) }

    // A wrong tag is told before memory is asked for.
    ensures bad_tag { (result ≡ BAD_TAG) ↔ (IsKeyLength (length key.now) × FitsGcm aad.now body.now
        × (drop (length body.now - 16) body.now ≢ gcm_tag (aes_cipher key.now) nonce.now aad.now
        (take (length body.now - 16) body.now))) }
    ensures no_room { result ≡ NO_ROOM → (text : List ℕ) × (length out.old < length text)
        × (body.now ≡ sealed (aes_cipher key.now) nonce.now aad.now text) }
    ensures only { (text : List ℕ) → IsKeyLength (length key.now) → FitsGcm aad.now body.now
        → body.now ≡ sealed (aes_cipher key.now) nonce.now aad.now text
        → (result ≡ NO_MEMORY) ⊎ ((result ≡ DONE) × (take written.new out.new ≡ text))
        ⊎ ((result ≡ NO_ROOM) × (length out.old < length text)) }
    ensures unchanged { result ≢ DONE → (out.new ≡ out.old) × (written.new ≡ written.old) }
    ensures others { (result ≡ DONE) ⊎ (result ≡ BAD_KEY_LENGTH) ⊎ (result ≡ BAD_LENGTH)
        ⊎ (result ≡ TOO_LONG) ⊎ (result ≡ BAD_TAG) ⊎ (result ≡ NO_MEMORY) ⊎ (result ≡ NO_ROOM) }
{
    let Ok(aes) = Aes::new(key) else {
        return BAD_KEY_LENGTH;
    };
    if body.len() < TAG_LEN {
        return BAD_LENGTH;
    }
    let (text, end) = body.split_at(body.len() - TAG_LEN);
    if is_long(aad) || is_long(text) {
        return TOO_LONG;
    }
    let mut tag = [0; TAG_LEN];
    tag.copy_from_slice(end);
    match gcm_open(alloc, &aes, nonce, aad, text, &tag) {
        Ok(text) => hand_out(&text, out, written),
        Err(GcmRefused::BadTag) => BAD_TAG,
        Err(GcmRefused::Memory) => NO_MEMORY,
    }
}
