//! Bodies of payloads, sealed and opened under the material of a key (docs/FORMATS.md, "Payload").

ghost use Rattle.std.specs.Prelude.{◌≡◌, ◌≢◌, ℕ, ◌<◌, ◌≤◌, ◌^◌, ◌⊎◌, ◌↔◌, List, length, take, drop};
ghost use Rattle.dp_base.specs.Blocks.{AreBytes};
ghost use Rattle.dp_base.specs.Codes.{IsCode, code_of};
ghost use Rattle.dp_base.specs.Lengths.{iv_len};
ghost use Rattle.dp_base.specs.declared.alg.Alg.{Alg};
ghost use Rattle.payload_view.specs.Payload.{joined, parts_of, plain_len};
ghost use Rattle.dp_encryptor.specs.Body.{HasTag, Opens, Unpads, sealed};
ghost use Rattle.dp_c.specs.Bodies.{body_keys, secret, FitsBody};
ghost use Rattle.dp_c.specs.declared.answer.TheConstants.{BAD_CODE, BAD_LENGTH, BAD_VECTOR, DONE, NO_MEMORY, NO_ROOM, TAMPERED, TOO_LONG};

use crate::answer::{BAD_CODE, BAD_LENGTH, BAD_VECTOR, NO_MEMORY, TAMPERED, TOO_LONG};
use crate::room::{hand_out, is_long};
use dp_base::{Alg, alg_of, iv_len};
use dp_encryptor::{BodyRefused, Encryptor, HeaderTable};
use payload_view::BodyView;
use std::alloc::Global;

/// Seals the text under the algorithm of the code into the front of `out`: modifier, vector, enciphered
/// text and tag; and tells how many bytes it wrote. It writes only where it is done. No two bodies of
/// one material and one `aad` may have the same modifier and vector.
#[unsafe(no_mangle)]
pub extern "C" fn dp_body_seal(
    alloc: Global,
    code: u8,
    material: &[u8; 64],
    aad: &[u8],
    modifier: &[u8; 16],
    iv: &[u8],
    plain: &[u8],
    out: &mut [u8],
    written: &mut usize,
) -> u32
    ensures done { (alg : Alg) → code_of alg ≡ code → result ≡ DONE → (written.new ≤ length out.new)
        × (take written.new out.new
        ≡ joined (sealed (secret alg material.now) aad.now modifier.now iv.now plain.now)) }
    ensures behind { result ≡ DONE → drop written.new out.new ≡ drop written.new out.old }
    ensures bad_code { (result ≡ BAD_CODE) ↔ ¬ (IsCode code) }
    ensures bad_vector { (alg : Alg) → code_of alg ≡ code
        → (result ≡ BAD_VECTOR) ↔ (length iv.now ≢ iv_len alg) }
    ensures too_long { (alg : Alg) → code_of alg ≡ code
        → (result ≡ TOO_LONG) ↔ ((length iv.now ≡ iv_len alg) × (2 ^ 32 ≤ length plain.now)) }
    ensures no_room { (alg : Alg) → code_of alg ≡ code → result ≡ NO_ROOM → length out.old
        < length (joined (sealed (secret alg material.now) aad.now modifier.now iv.now plain.now)) }
    ensures unchanged { result ≢ DONE → (out.new ≡ out.old) × (written.new ≡ written.old) }
    ensures others { (result ≡ DONE) ⊎ (result ≡ BAD_CODE) ⊎ (result ≡ BAD_VECTOR)
        ⊎ (result ≡ TOO_LONG) ⊎ (result ≡ NO_MEMORY) ⊎ (result ≡ NO_ROOM) }
{
    let Some(alg) = alg_of(code) else {
        return BAD_CODE;
    };
    if iv.len() != iv_len(alg) {
        return BAD_VECTOR;
    }
    if is_long(plain) {
        return TOO_LONG;
    }
    let encryptor = Encryptor::new(alloc, alg, material, &HeaderTable::new(alloc));
    match encryptor.seal(alloc, aad, modifier, iv, plain) {
        Ok(body) => hand_out(&body, out, written),
        Err(_) => NO_MEMORY,
    }
}

/// Compares the tag of the body under the algorithm of the code, and then deciphers its text into the
/// front of `out`, and tells how many bytes it wrote. It writes only where it is done.
#[unsafe(no_mangle)]
pub extern "C" fn dp_body_open(
    alloc: Global,
    code: u8,
    material: &[u8; 64],
    aad: &[u8],
    body: &[u8],
    out: &mut [u8],
    written: &mut usize,
) -> u32
    ensures done { (alg : Alg) → code_of alg ≡ code → result ≡ DONE → (written.new ≤ length out.new)
        × Opens alg (body_keys alg material.now aad.now body.now) (parts_of alg body.now)
        (take written.new out.new) }
    ensures behind { result ≡ DONE → drop written.new out.new ≡ drop written.new out.old }
    ensures bad_code { (result ≡ BAD_CODE) ↔ ¬ (IsCode code) }
    ensures bad_length { (alg : Alg) → code_of alg ≡ code
        → (result ≡ BAD_LENGTH) ↔ (length body.now < plain_len alg) }
    ensures too_long { (result ≡ TOO_LONG) ↔ (IsCode code × (2 ^ 32 ≤ length body.now)) }

    // A wrong tag is told whether or not memory is found.
    ensures wrong_tag { (alg : Alg) → FitsBody alg code body.now
        → (¬ HasTag alg (body_keys alg material.now aad.now body.now) (parts_of alg body.now))
        → result ≡ TAMPERED }
    ensures not_padded { (alg : Alg) → FitsBody alg code body.now
        → (¬ Unpads alg (body_keys alg material.now aad.now body.now) (parts_of alg body.now))
        → (result ≡ TAMPERED) ⊎ (result ≡ NO_MEMORY) }
    ensures tampered { (alg : Alg) → code_of alg ≡ code → result ≡ TAMPERED
        → (¬ HasTag alg (body_keys alg material.now aad.now body.now) (parts_of alg body.now))
        ⊎ (¬ Unpads alg (body_keys alg material.now aad.now body.now) (parts_of alg body.now)) }
    ensures only { (alg : Alg) (text : List ℕ) → AreBytes text → FitsBody alg code body.now
        → Opens alg (body_keys alg material.now aad.now body.now) (parts_of alg body.now) text
        → (result ≡ NO_MEMORY) ⊎ ((result ≡ DONE) × (take written.new out.new ≡ text))
        ⊎ ((result ≡ NO_ROOM) × (length out.old < length text)) }
    ensures no_room { (alg : Alg) → code_of alg ≡ code → result ≡ NO_ROOM → (text : List ℕ)
        × AreBytes text × (length out.old < length text)
        × Opens alg (body_keys alg material.now aad.now body.now) (parts_of alg body.now) text }
    ensures unchanged { result ≢ DONE → (out.new ≡ out.old) × (written.new ≡ written.old) }
    ensures others { (result ≡ DONE) ⊎ (result ≡ BAD_CODE) ⊎ (result ≡ BAD_LENGTH)
        ⊎ (result ≡ TOO_LONG) ⊎ (result ≡ TAMPERED) ⊎ (result ≡ NO_MEMORY) ⊎ (result ≡ NO_ROOM) }
{
    let Some(alg) = alg_of(code) else {
        return BAD_CODE;
    };
    if is_long(body) {
        return TOO_LONG;
    }
    let Some(view) = BodyView::split(body, alg) else {
        return BAD_LENGTH;
    };
    let encryptor = Encryptor::new(alloc, alg, material, &HeaderTable::new(alloc));
    match encryptor.open_body(alloc, aad, view) {
        Ok(text) => hand_out(&text, out, written),
        Err(BodyRefused::Tampered) => TAMPERED,
        Err(BodyRefused::Memory) => NO_MEMORY,
    }
}
