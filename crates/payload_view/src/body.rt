//! The body of a payload: modifier, vector, enciphered text and tag (docs/FORMATS.md, "Payload").

ghost use Rattle.std.specs.Prelude.{◌≡◌, ◌↔◌, ◌<◌, length, IfSome, IsNone};
ghost use Rattle.payload_view.specs.Payload.{AreFor, Parts, joined, parts_of, plain_len};

use dp_base::{Alg, iv_len, tag_len};
use std::marker::Model;

// The bytes of a modifier.
const MODIFIER_LEN: usize = 16;

/// The parts of a body.
#[derive(Drop)]
pub struct BodyView<'a> {
    modifier: &'a [u8],
    iv: &'a [u8],
    enciphered: &'a [u8],
    tag: &'a [u8],
}

impl<'a> Model for BodyView<'a> {
    ghost use Rattle.payload_view.specs.Payload.{Parts};

    ghost Value = { Parts };

    ghost view = { λ v. record {
      modifier = v.modifier.now;
      iv = v.iv.now;
      enciphered = v.enciphered.now;
      tag = v.tag.now;
    } };
}

impl<'a> BodyView<'a> {
    /// Splits a body of the algorithm; none where it is shorter than modifier, vector and tag
    /// together.
    pub fn split(body: &'a [u8], alg: Alg) -> Option<BodyView<'a>>
        ensures none { IsNone result ↔ (length body.now < plain_len alg) }
        ensures parts { IfSome result (λ view. view ≡ parts_of alg body.now) }

        // The parts in order are the body, and have their lengths.
        ensures whole { IfSome result (λ view. joined view ≡ body.now) }
        ensures made { IfSome result (λ view. AreFor alg view) }
    {
        let front = MODIFIER_LEN + iv_len(alg);
        if body.len() < front + tag_len(alg) {
            return None;
        }
        let end = body.len() - tag_len(alg);
        Some(BodyView {
            modifier: &body[..MODIFIER_LEN],
            iv: &body[MODIFIER_LEN..front],
            enciphered: &body[front..end],
            tag: &body[end..],
        })
    }

    /// The modifier of the subkeys: 16 bytes.
    pub fn modifier(&self) -> &'a [u8]
        ensures { result.now ≡ self.now.modifier }
    {
        self.modifier
    }

    /// The vector of the cipher, or the nonce.
    pub fn iv(&self) -> &'a [u8]
        ensures { result.now ≡ self.now.iv }
    {
        self.iv
    }

    /// The enciphered text.
    pub fn enciphered(&self) -> &'a [u8]
        ensures { result.now ≡ self.now.enciphered }
    {
        self.enciphered
    }

    /// The tag.
    pub fn tag(&self) -> &'a [u8]
        ensures { result.now ≡ self.now.tag }
    {
        self.tag
    }
}
