//! Sealing and opening of texts: padding and chaining together.

ghost use Rattle.std.specs.Prelude.{◌≡◌, ◌≢◌, ◌⊎◌, ◌↔◌, ◌%◌, ℕ, List, length, IfOk, MatchResult};
ghost use Rattle.dp_base.specs.Blocks.{AreBytes};
ghost use Rattle.cbc_mode.specs.Cbc.{ciphertext, plaintext, HasWholeBlocks};
ghost use Rattle.cbc_mode.specs.Pad.{pad, IsPadded};

use crate::chain::{decrypt_blocks, encrypt_blocks};
use crate::pad::{padded, padding_len};
use dp_base::{BlockCipher, Memory};
use std::alloc::{AllocError, Global};
use thiserror::Error;

/// Why a body isn't opened.
#[derive(Clone, Copy, Debug, PartialEq, Eq, Error)]
pub enum CbcRefused {
    /// The body is empty, or its length is no multiple of 16 bytes.
    #[error("a body has no whole blocks")]
    BadLength,
    /// The deciphered bytes don't end in padding.
    #[error("a text has no padding")]
    BadPadding,
    /// No memory was found for the text.
    #[error("no memory")]
    Memory,
}

impl From<AllocError> for CbcRefused {
    ghost use Rattle.cbc_mode.specs.declared.seal.CbcRefused.{CbcRefused};

    ghost from_gives = { λ _ refused. refused ≡ CbcRefused.Memory };

    fn from(_: AllocError) -> Self {
        CbcRefused::Memory
    }
}

/// Pads the text (RFC 5652, 6.3) and enciphers it (SP 800-38A, 6.2) after the vector `iv`. The body
/// has 1 to 16 bytes more than the text, and whole blocks.
pub fn cbc_seal<B: BlockCipher>(
    alloc: Global,
    cipher: &B,
    iv: &[u8; 16],
    plain: &[u8],
) -> Result<Vec<u8>, Memory>
    ensures { IfOk result (λ v. v.items ≡ ciphertext (B.cipher cipher.now) iv.now (pad plain.now)) }
{
    let mut text = padded(alloc, plain)?;
    encrypt_blocks(cipher, iv, &mut text);
    Ok(text)
}

/// Deciphers a body (SP 800-38A, 6.2) after the vector `iv`, and takes the padding off (RFC 5652,
/// 6.3).
///
/// A peer that is told, or can time, whether the padding was wrong can have texts deciphered by asking
/// often enough. Open only bodies whose tag was found right, and tell a peer one refusal for all.
pub fn cbc_open<B: BlockCipher>(
    alloc: Global,
    cipher: &B,
    iv: &[u8; 16],
    body: &[u8],
) -> Result<Vec<u8>, CbcRefused>
    // The text is the one that has this body.
    ensures found { IfOk result (λ v.
        body.now ≡ ciphertext (B.cipher cipher.now) iv.now (pad v.items)) }
    ensures bytes { IfOk result (λ v. AreBytes v.items) }
    ensures only { (text : List ℕ) → AreBytes text
        → body.now ≡ ciphertext (B.cipher cipher.now) iv.now (pad text)
        → MatchResult result (λ v. v.items ≡ text) (λ e. e ≡ CbcRefused.Memory) }

    // The length is tested before memory is asked for, and padding after it.
    ensures bad_length { (result ≡ Err CbcRefused.BadLength)
        ↔ ((length body.now ≡ 0) ⊎ (length body.now % 16 ≢ 0)) }
    ensures bad_padding { result ≡ Err CbcRefused.BadPadding → HasWholeBlocks body.now
        × ¬ (IsPadded (plaintext (B.decipher cipher.now) iv.now body.now)) }
    ensures unpadded { HasWholeBlocks body.now
        → ¬ (IsPadded (plaintext (B.decipher cipher.now) iv.now body.now))
        → (result ≡ Err CbcRefused.BadPadding) ⊎ (result ≡ Err CbcRefused.Memory) }
{
    if body.is_empty() || body.len() % 16 != 0 {
        return Err(CbcRefused::BadLength);
    }
    let mut text = deciphered(alloc, cipher, iv, body)?;
    let Some(count) = padding_len(&text) else {
        return Err(CbcRefused::BadPadding);
    };
    text.truncate(text.len() - count);
    Ok(text)
}

// A deciphered copy of the body.
fn deciphered<B: BlockCipher>(
    alloc: Global,
    cipher: &B,
    iv: &[u8; 16],
    body: &[u8],
) -> Result<Vec<u8>, AllocError>
    requires { length body.now % 16 ≡ 0 }
    ensures { IfOk result (λ v. v.items ≡ plaintext (B.decipher cipher.now) iv.now body.now) }
{
    let mut text = Vec::from_slice(alloc, body)?;
    decrypt_blocks(cipher, iv, &mut text);
    Ok(text)
}
