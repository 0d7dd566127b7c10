//! AES in cipher block chaining, with padding.

ghost use Rattle.std.specs.Prelude.{◌≡◌, ◌≢◌, ℕ, ◌<◌, ◌≤◌, ◌⊎◌, ◌↔◌, ◌%◌, List, length, take, drop};
ghost use Rattle.dp_base.specs.Blocks.{AreBytes};
ghost use Rattle.aes_block.specs.Cipher.{aes_cipher, aes_decipher};
ghost use Rattle.aes_block.specs.KeyExpansion.{IsKeyLength};
ghost use Rattle.cbc_mode.specs.Cbc.{ciphertext, plaintext, HasWholeBlocks};
ghost use Rattle.cbc_mode.specs.Pad.{pad, IsPadded};
ghost use Rattle.dp_c.specs.declared.answer.TheConstants.{BAD_KEY_LENGTH, BAD_LENGTH, BAD_PADDING, DONE, NO_MEMORY, NO_ROOM};

use crate::answer::{BAD_KEY_LENGTH, BAD_LENGTH, BAD_PADDING, NO_MEMORY};
use crate::room::hand_out;
use aes_block::Aes;
use cbc_mode::{CbcRefused, cbc_open, cbc_seal};
use std::alloc::Global;

/// Pads and enciphers the text into the front of `out`, and tells how many bytes it wrote. It writes
/// only where it is done.
#[unsafe(no_mangle)]
pub extern "C" fn dp_cbc_seal(
    alloc: Global,
    key: &[u8],
    iv: &[u8; 16],
    plain: &[u8],
    out: &mut [u8],
    written: &mut usize,
) -> u32
    ensures done { result ≡ DONE → (written.new ≤ length out.new)
        × (take written.new out.new ≡ ciphertext (aes_cipher key.now) iv.now (pad plain.now)) }
    ensures behind { result ≡ DONE → drop written.new out.new ≡ drop written.new out.old }
    ensures bad_key_length { (result ≡ BAD_KEY_LENGTH) ↔ ¬ (IsKeyLength (length key.now)) }
    ensures no_room { result ≡ NO_ROOM
        → length out.old < length (ciphertext (aes_cipher key.now) iv.now (pad plain.now)) }
    ensures unchanged { result ≢ DONE → (out.new ≡ out.old) × (written.new ≡ written.old) }
    ensures others { (result ≢ BAD_LENGTH) × (result ≢ BAD_PADDING) × (result ≤ NO_ROOM) }
{
    let Ok(aes) = Aes::new(key) else {
        return BAD_KEY_LENGTH;
    };
    match cbc_seal(alloc, &aes, iv, plain) {
        Ok(body) => hand_out(&body, out, written),
        Err(_) => NO_MEMORY,
    }
}

/// Deciphers the body into the front of `out` without its padding, and tells how many bytes it wrote.
/// It writes only where it is done. Who tells a peer that padding was wrong gives texts away.
#[unsafe(no_mangle)]
pub extern "C" fn dp_cbc_open(
    alloc: Global,
    key: &[u8],
    iv: &[u8; 16],
    body: &[u8],
    out: &mut [u8],
    written: &mut usize,
) -> u32
    ensures done { result ≡ DONE → (written.new ≤ length out.new)
        × (body.now ≡ ciphertext (aes_cipher key.now) iv.now (pad (take written.new out.new))) }
    ensures behind { result ≡ DONE → drop written.new out.new ≡ drop written.new out.old }
    ensures bad_key_length { (result ≡ BAD_KEY_LENGTH) ↔ ¬ (IsKeyLength (length key.now)) }
    ensures bad_length { (result ≡ BAD_LENGTH) ↔ (IsKeyLength (length key.now)
        × ((length body.now ≡ 0) ⊎ (length body.now % 16 ≢ 0))) }
    ensures bad_padding { result ≡ BAD_PADDING → HasWholeBlocks body.now
        × ¬ (IsPadded (plaintext (aes_decipher key.now) iv.now body.now)) }
    ensures no_room { result ≡ NO_ROOM → (text : List ℕ) × AreBytes text
        × (length out.old < length text)
        × (body.now ≡ ciphertext (aes_cipher key.now) iv.now (pad text)) }
    ensures only { (text : List ℕ) → AreBytes text → IsKeyLength (length key.now)
        → body.now ≡ ciphertext (aes_cipher key.now) iv.now (pad text)
        → (result ≡ NO_MEMORY) ⊎ ((result ≡ DONE) × (take written.new out.new ≡ text))
        ⊎ ((result ≡ NO_ROOM) × (length out.old < length text)) }
    ensures unchanged { result ≢ DONE → (out.new ≡ out.old) × (written.new ≡ written.old) }
    ensures others { result ≤ NO_ROOM }
{
    let Ok(aes) = Aes::new(key) else {
        return BAD_KEY_LENGTH;
    };
    match cbc_open(alloc, &aes, iv, body) {
        Ok(text) => hand_out(&text, out, written),
        Err(CbcRefused::BadLength) => BAD_LENGTH,
        Err(CbcRefused::BadPadding) => BAD_PADDING,
        Err(CbcRefused::Memory) => NO_MEMORY,
    }
}
