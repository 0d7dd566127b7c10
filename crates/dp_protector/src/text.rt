//! Texts, protected as texts: base64url (RFC 4648, 5) without padding (3.2), in canonical form (3.5).

ghost use Rattle.std.specs.Prelude.{◌≡◌, ◌↔◌, ◌⊎◌, ◌<◌, ◌≤◌, ◌^◌, ℕ, [], length, None, Some, Err, IfOk, IfErr, string_bytes};
ghost use Rattle.dp_base.specs.Draws.{Draws};
ghost use Rattle.key_ring.specs.Ring.{default_key};
ghost use Rattle.dp_protector.specs.Protect.{Drew, IsEarly, Sealed, draw_len};
ghost use Rattle.dp_protector.specs.Opening.{opened};
ghost use Rattle.dp_protector.specs.Text.{TextAnswers, as_text, opened_text, payload_of, protects_text, text_of};
ghost use Rattle.dp_protector.specs.declared.refused.ProtectRefused.TheVariants as refused;
ghost use Rattle.dp_protector.specs.declared.refused.TextRefused.TheVariants as texts;

use crate::opened::OpenedText;
use crate::refused::{ProtectRefused, TextRefused};
use crate::seal::sealed;
use crate::unprotect::unprotect_with;
use base64::engine::general_purpose::URL_SAFE_NO_PAD;
use dp_base::Draw;
use dp_encryptor::HeaderTable;
use key_ring::Ring;
use purpose_chain::Chain;
use std::alloc::Global;

/// The most bytes of a text that are protected.
pub const MAX_TEXT: usize = 750_000;

const _: () = prove!(MAX_TEXT == 750_000);

/// The payload of a text under the ring's default key, for a chain of purposes, as a text. Calls of the
/// draw give the 16 bytes of its modifier and then its vector.
pub fn protect_text<D: Draw>(
    alloc: Global,
    ring: &Ring,
    headers: &HeaderTable,
    chain: &Chain,
    draw: &mut D,
    text: &str,
) -> Result<String, ProtectRefused>
    ensures made { IfOk result (λ t. Sealed (draw_len ring.now)
        (λ drawn. protects_text ring.now chain.now drawn text.now)
        (D.draws draw.old) (D.draws draw.new) (string_bytes t)) }

    // What is too long is told first, and both before anything is drawn.
    ensures too_long { (len : ℕ) → (result ≡ Err (refused.TooLong len))
        ↔ ((MAX_TEXT < length text.now) × (len ≡ length text.now)) }
    ensures no_default_key { (result ≡ Err refused.NoDefaultKey)
        ↔ ((length text.now ≤ MAX_TEXT)
        × (default_key ring.now.list ring.now.made_at ≡ None)) }
    ensures untouched { IsEarly result → draw.new ≡ draw.old }

    // A draw that failed gave nothing; where no memory was found it wasn't asked, or gave its bytes.
    ensures draw_fault { result ≡ Err refused.DrawFault
        → Draws 1 [] (D.draws draw.old) (D.draws draw.new) }
    ensures memory { result ≡ Err refused.Memory → (draw.new ≡ draw.old)
        ⊎ Drew (draw_len ring.now) (D.draws draw.old) (D.draws draw.new) }
{
    if text.len() > MAX_TEXT {
        return Err(ProtectRefused::TooLong {
            len: text.len() as u64,
        });
    }
    let payload = sealed(alloc, ring, headers, chain, draw, text.as_bytes())?;
    Ok(URL_SAFE_NO_PAD.encode(alloc, &payload)?)
}

/// The payload that a text is of, each in one way: what `unprotect_text` opens.
pub fn payload_of(alloc: Global, text: &[u8]) -> Result<Vec<u8>, TextRefused>
    ensures found { IfOk result (λ v. payload_of text.now ≡ Some v.items) }
    ensures short { IfOk result (λ v. length v.items ≤ length text.now) }
    ensures none { IfErr result (λ why. (why ≡ texts.Memory)
        ⊎ ((why ≡ texts.BadText) × (payload_of text.now ≡ None))) }
{
    Ok(URL_SAFE_NO_PAD.decode(alloc, text)?)
}

/// What a payload opens to by the ring, for a chain of purposes, where its plaintext is to be a text:
/// `unprotect_text` behind `payload_of`. A revoked key opens where `allow_revoked` is set.
pub fn open_text(
    alloc: Global,
    ring: &Ring,
    headers: &HeaderTable,
    chain: &Chain,
    payload: &[u8],
    allow_revoked: bool,
) -> Result<OpenedText, TextRefused>
    requires { length payload.now < 2 ^ 32 }
    ensures { TextAnswers result
        (as_text (opened ring.now chain.now payload.now allow_revoked)) }
{
    let opened = unprotect_with(alloc, ring, headers, chain, payload, allow_revoked)?;
    match String::from_utf8(opened.plain) {
        Ok(text) => Ok(OpenedText {
            text,
            revoked: opened.revoked,
            default_changed: opened.default_changed,
        }),
        Err(_) => Err(TextRefused::NotText),
    }
}

/// What a text opens to by the ring, for a chain of purposes: the text that was protected. A revoked key
/// opens where `allow_revoked` is set.
pub fn unprotect_text(
    alloc: Global,
    ring: &Ring,
    headers: &HeaderTable,
    chain: &Chain,
    text: &[u8],
    allow_revoked: bool,
) -> Result<OpenedText, TextRefused>
    requires { length text.now < 2 ^ 32 }
    ensures { TextAnswers result (opened_text ring.now chain.now text.now allow_revoked) }
{
    let payload = payload_of(alloc, text)?;
    open_text(alloc, ring, headers, chain, &payload, allow_revoked)
}
