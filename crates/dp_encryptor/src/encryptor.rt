//! Sealing and opening under one key (docs/FORMATS.md, "Payload").

ghost use Rattle.std.specs.Prelude.{◌≡◌, ◌⊎◌, ◌<◌, ◌^◌, ℕ, List, length, IfOk, MatchResult};
ghost use Rattle.dp_base.specs.Blocks.{AreBytes};
ghost use Rattle.dp_base.specs.Lengths.{iv_len};
ghost use Rattle.payload_view.specs.Payload.{AreFor, joined};
ghost use Rattle.dp_encryptor.specs.Body.{HasTag, Opens, Secret, Unpads, sealed, subkeys};

use crate::forms::{open_cbc, open_gcm, seal_cbc, seal_gcm};
use crate::table::HeaderTable;
use context_header::Header;
use dp_base::{Alg, Memory};
use hmac_sha2::{HmacSha256, HmacSha512};
use payload_view::BodyView;
use std::alloc::Global;
use std::marker::Model;
use thiserror::Error;

/// Why a body isn't opened.
#[derive(Clone, Copy, Debug, PartialEq, Eq, Error)]
pub enum BodyRefused {
    /// The tag is another, or the deciphered text isn't padded.
    #[error("the body was altered, or was sealed otherwise")]
    Tampered,
    /// No memory was found for the text.
    #[error("no memory")]
    Memory,
}

/// What seals and opens bodies under the material of one key.
#[derive(Drop)]
pub struct Encryptor {
    header: Header,
    material: [u8; 64],
}

// Clauses see the algorithm and the material.
impl Model for Encryptor {
    ghost use Rattle.dp_encryptor.specs.Body.{Secret};

    ghost Value = { Secret };

    ghost view = { λ e. record { alg = e.header; material = e.material } };
}

impl Encryptor {
    /// An encryptor of the algorithm, whose header the table may hold already.
    pub fn new(alloc: Global, alg: Alg, material: &[u8; 64], headers: &HeaderTable) -> Encryptor
        ensures { result ≡ record { alg = alg; material = material.now } }
    {
        Encryptor {
            header: headers.get(alloc, alg),
            material: *material,
        }
    }

    /// The body of the text: modifier, vector, enciphered text and tag. No two bodies of one secret and
    /// one `aad` may have the same modifier and vector.
    pub fn seal(
        &self,
        alloc: Global,
        aad: &[u8],
        modifier: &[u8; 16],
        iv: &[u8],
        plain: &[u8],
    ) -> Result<Vec<u8>, Memory>
        requires iv { length iv.now ≡ iv_len self.now.alg }
        requires text { length plain.now < 2 ^ 32 }
        ensures { IfOk result (λ v.
            v.items ≡ joined (sealed self.now aad.now modifier.now iv.now plain.now)) }
    {
        let keys = self.header.keys(&self.material, aad, modifier);
        match self.header.alg() {
            Alg::Cbc256(_) => seal_cbc::<HmacSha256>(alloc, &keys, modifier, iv, plain),
            Alg::Cbc512(_) => seal_cbc::<HmacSha512>(alloc, &keys, modifier, iv, plain),
            Alg::Gcm(_) => seal_gcm(alloc, &keys, modifier, iv, plain),
        }
    }

    /// The text of a body. The tag is compared, not in constant time, before anything is deciphered and
    /// before memory is asked for. Don't tell a peer more than `Tampered`.
    pub fn open_body(
        &self,
        alloc: Global,
        aad: &[u8],
        body: BodyView<'_>,
    ) -> Result<Vec<u8>, BodyRefused>
        requires made { AreFor self.now.alg body }
        requires short { length (joined body) < 2 ^ 32 }

        // The text is the one that has this body.
        ensures found { IfOk result (λ v.
            Opens self.now.alg (subkeys self.now aad.now body.entry.modifier) body.entry v.items) }
        ensures bytes { IfOk result (λ v. AreBytes v.items) }
        ensures only { (text : List ℕ) → AreBytes text
            → Opens self.now.alg (subkeys self.now aad.now body.entry.modifier) body.entry text
            → MatchResult result (λ v. v.items ≡ text) (λ e. e ≡ BodyRefused.Memory) }

        // A wrong tag is told before memory is asked for.
        ensures wrong_tag { ¬ HasTag self.now.alg
            (subkeys self.now aad.now body.entry.modifier) body.entry
            → result ≡ Err BodyRefused.Tampered }
        ensures not_padded { ¬ Unpads self.now.alg
            (subkeys self.now aad.now body.entry.modifier) body.entry
            → (result ≡ Err BodyRefused.Tampered) ⊎ (result ≡ Err BodyRefused.Memory) }
        ensures tampered { result ≡ Err BodyRefused.Tampered
            → (¬ HasTag self.now.alg (subkeys self.now aad.now body.entry.modifier) body.entry)
            ⊎ (¬ Unpads self.now.alg (subkeys self.now aad.now body.entry.modifier) body.entry) }
    {
        let keys = self.header.keys(&self.material, aad, body.modifier());
        match self.header.alg() {
            Alg::Cbc256(_) => open_cbc::<HmacSha256>(alloc, &keys, &body),
            Alg::Cbc512(_) => open_cbc::<HmacSha512>(alloc, &keys, &body),
            Alg::Gcm(_) => open_gcm(alloc, &keys, &body),
        }
    }
}
