//! The two forms of a body: CBC with a keyed hash, and GCM.

ghost use Rattle.std.specs.Prelude.{◌≡◌, ◌≢◌, ◌⊎◌, ◌↔◌, ◌<◌, ◌≤◌, ◌^◌, ℕ, List, [], ◌++◌, length, IfOk, MatchResult};
ghost use Rattle.dp_base.specs.Blocks.{AreBytes};
ghost use Rattle.aes_block.specs.Cipher.{aes_cipher, aes_decipher};
ghost use Rattle.cbc_mode.specs.Cbc.{ciphertext, plaintext, HasWholeBlocks};
ghost use Rattle.cbc_mode.specs.Pad.{pad, IsPadded};
ghost use Rattle.gcm_mode.specs.Ctr.{ctr};
ghost use Rattle.gcm_mode.specs.Gcm.{gcm_tag};

use crate::encryptor::BodyRefused;
use cbc_mode::{CbcRefused, cbc_open, cbc_seal};
use context_header::Keys;
use dp_base::{Memory, Prf};
use gcm_mode::{GcmRefused, gcm_open, gcm_seal};
use payload_view::BodyView;
use std::alloc::{AllocError, Global};

// The body of a text in CBC: modifier, vector, enciphered text, and the keyed hash of the last two.
pub fn seal_cbc<P: Prf>(
    alloc: Global,
    keys: &Keys,
    modifier: &[u8; 16],
    iv: &[u8],
    plain: &[u8],
) -> Result<Vec<u8>, Memory>
    requires { length iv.now ≡ 16 }
    ensures { IfOk result (λ v. v.items
        ≡ modifier.now ++ iv.now
        ++ ciphertext (aes_cipher keys.now.encryption) iv.now (pad plain.now)
        ++ P.value keys.now.validation
        (iv.now ++ ciphertext (aes_cipher keys.now.encryption) iv.now (pad plain.now))) }
{
    let enciphered = cbc_seal(alloc, keys.cipher(), &vector_of(iv), plain)?;
    let mut room = [0; 64];
    let tag = &mut room[..P::size()];
    write_mac::<P>(keys.validation(), iv, &enciphered, tag);
    Ok(joined(alloc, modifier, iv, &enciphered, tag)?)
}

// The body of a text in GCM.
pub fn seal_gcm(
    alloc: Global,
    keys: &Keys,
    modifier: &[u8; 16],
    iv: &[u8],
    plain: &[u8],
) -> Result<Vec<u8>, Memory>
    requires iv { length iv.now ≡ 12 }
    requires text { length plain.now < 2 ^ 32 }
    ensures { IfOk result (λ v. v.items
        ≡ modifier.now ++ iv.now ++ ctr (aes_cipher keys.now.encryption) iv.now plain.now
        ++ gcm_tag (aes_cipher keys.now.encryption) iv.now []
        (ctr (aes_cipher keys.now.encryption) iv.now plain.now)) }
{
    let sealed = gcm_seal(alloc, keys.cipher(), &nonce_of(iv), &[], plain)?;
    Ok(joined(alloc, modifier, iv, &sealed, &[])?)
}

// The text of a body in CBC. The keyed hash is compared before anything is deciphered.
pub fn open_cbc<P: Prf>(
    alloc: Global,
    keys: &Keys,
    body: &BodyView<'_>,
) -> Result<Vec<u8>, BodyRefused>
    requires { length body.now.iv ≡ 16 }
    ensures tag { IfOk result (λ _.
        body.now.tag ≡ P.value keys.now.validation (body.now.iv ++ body.now.enciphered)) }
    ensures found { IfOk result (λ v. body.now.enciphered
        ≡ ciphertext (aes_cipher keys.now.encryption) body.now.iv (pad v.items)) }
    ensures bytes { IfOk result (λ v. AreBytes v.items) }
    ensures only { (text : List ℕ) → AreBytes text
        → body.now.tag ≡ P.value keys.now.validation (body.now.iv ++ body.now.enciphered)
        → body.now.enciphered
        ≡ ciphertext (aes_cipher keys.now.encryption) body.now.iv (pad text)
        → MatchResult result (λ v. v.items ≡ text) (λ e. e ≡ BodyRefused.Memory) }
    ensures wrong_tag { body.now.tag
        ≢ P.value keys.now.validation (body.now.iv ++ body.now.enciphered)
        → result ≡ Err BodyRefused.Tampered }
    ensures not_padded { ¬ (HasWholeBlocks body.now.enciphered × IsPadded
        (plaintext (aes_decipher keys.now.encryption) body.now.iv body.now.enciphered))
        → (result ≡ Err BodyRefused.Tampered) ⊎ (result ≡ Err BodyRefused.Memory) }
    ensures tampered { result ≡ Err BodyRefused.Tampered
        → (body.now.tag ≢ P.value keys.now.validation (body.now.iv ++ body.now.enciphered))
        ⊎ ¬ (HasWholeBlocks body.now.enciphered × IsPadded
        (plaintext (aes_decipher keys.now.encryption) body.now.iv body.now.enciphered)) }
{
    let mut room = [0; 64];
    let tag = &mut room[..P::size()];
    write_mac::<P>(keys.validation(), body.iv(), body.enciphered(), tag);
    if *body.tag() != *tag {
        return Err(BodyRefused::Tampered);
    }
    match cbc_open(
        alloc,
        keys.cipher(),
        &vector_of(body.iv()),
        body.enciphered(),
    ) {
        Ok(text) => Ok(text),
        Err(CbcRefused::Memory) => Err(BodyRefused::Memory),
        Err(CbcRefused::BadLength | CbcRefused::BadPadding) => Err(BodyRefused::Tampered),
    }
}

// The text of a body in GCM.
pub fn open_gcm(alloc: Global, keys: &Keys, body: &BodyView<'_>) -> Result<Vec<u8>, BodyRefused>
    requires iv { length body.now.iv ≡ 12 }
    requires tag { length body.now.tag ≡ 16 }
    requires text { length body.now.enciphered < 2 ^ 32 }
    ensures tag { IfOk result (λ _. body.now.tag
        ≡ gcm_tag (aes_cipher keys.now.encryption) body.now.iv [] body.now.enciphered) }
    ensures found { IfOk result (λ v. body.now.enciphered
        ≡ ctr (aes_cipher keys.now.encryption) body.now.iv v.items) }
    ensures bytes { IfOk result (λ v. AreBytes v.items) }
    ensures only { (text : List ℕ)
        → body.now.tag ≡ gcm_tag (aes_cipher keys.now.encryption) body.now.iv [] body.now.enciphered
        → body.now.enciphered ≡ ctr (aes_cipher keys.now.encryption) body.now.iv text
        → MatchResult result (λ v. v.items ≡ text) (λ e. e ≡ BodyRefused.Memory) }
    ensures tampered { (result ≡ Err BodyRefused.Tampered) ↔ (body.now.tag
        ≢ gcm_tag (aes_cipher keys.now.encryption) body.now.iv [] body.now.enciphered) }
{
    let mut tag = [0; 16];
    tag.copy_from_slice(body.tag());
    match gcm_open(
        alloc,
        keys.cipher(),
        &nonce_of(body.iv()),
        &[],
        body.enciphered(),
        &tag,
    ) {
        Ok(text) => Ok(text),
        Err(GcmRefused::Memory) => Err(BodyRefused::Memory),
        Err(GcmRefused::BadTag) => Err(BodyRefused::Tampered),
    }
}

// Writes the keyed hash of the vector and the enciphered text.
fn write_mac<P: Prf>(key: &[u8], iv: &[u8], enciphered: &[u8], out: &mut [u8])
    requires { length out.old ≡ P.value_len }
    ensures { out.new ≡ P.value key.now (iv.now ++ enciphered.now) }
{
    let mut prf = P::new(key);
    prf.update(iv);
    prf.update(enciphered);
    prf.finish(out);
}

// Four parts, one behind the other.
fn joined(
    alloc: Global,
    modifier: &[u8; 16],
    iv: &[u8],
    enciphered: &[u8],
    tag: &[u8],
) -> Result<Vec<u8>, AllocError>
    ensures { IfOk result (λ v. v.items ≡ modifier.now ++ iv.now ++ enciphered.now ++ tag.now) }
{
    let mut body = Vec::from_slice(alloc, modifier)?;
    body.extend_from_slice(iv)?;
    body.extend_from_slice(enciphered)?;
    body.extend_from_slice(tag)?;
    Ok(body)
}

// A vector as a block.
fn vector_of(iv: &[u8]) -> [u8; 16]
    requires { length iv.now ≡ 16 }
    ensures { result ≡ iv.now }
{
    let mut vector = [0; 16];
    vector.copy_from_slice(iv);
    vector
}

// A vector as a nonce.
fn nonce_of(iv: &[u8]) -> [u8; 12]
    requires { length iv.now ≡ 12 }
    ensures { result ≡ iv.now }
{
    let mut nonce = [0; 12];
    nonce.copy_from_slice(iv);
    nonce
}
