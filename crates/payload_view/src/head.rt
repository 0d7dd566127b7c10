//! The head of a payload: a first word and the id of a key (docs/FORMATS.md, "Payload").

ghost use Rattle.std.specs.Prelude.{◌≡◌, ◌≢◌, ◌↔◌, ◌<◌, ◌%◌, length, take, drop, IfOk, IfSome, IsNone};
ghost use Rattle.dp_base.specs.Guid.{guid, id_of_guid};
ghost use Rattle.payload_view.specs.Payload.{AreFor, HasHead, first_word, joined, parts_of, plain_len};

use crate::body::BodyView;
use dp_base::{Alg, KeyId, key_id_from_guid, take_be32};
use std::marker::Model;
use thiserror::Error;

// The first word of every payload: 28 bits, and 4 of a version of 0.
const MAGIC: u32 = 0x09f0_c9f0;

// The bytes of the first word and of an id.
const HEAD_LEN: usize = 20;

/// Why bytes are no payload.
#[derive(Clone, Copy, Debug, PartialEq, Eq, Error)]
pub enum HeadRefused {
    /// There are fewer than 20 bytes, or the upper 28 bits of the first word are others.
    #[error("no payload: the first bytes are others")]
    BadHeader,
    /// The version, in the low 4 bits of the first word, isn't 0.
    #[error("a payload of an unknown version")]
    BadVersion,
}

/// A payload: the id of its key, and a body.
#[derive(Drop)]
pub struct PayloadView<'a> {
    payload: &'a [u8],
}

// Clauses see the whole payload.
impl<'a> Model for PayloadView<'a> {
    ghost use Rattle.std.specs.Prelude.{List, ℕ, length, ◌≤◌};

    ghost Value = { List ℕ };

    ghost view = { λ v. v.payload.now };

    ghost invariant = { λ v. 20 ≤ length v.payload.now };
}

impl<'a> PayloadView<'a> {
    /// Tests the first bytes. A wrong header is told before a wrong version.
    pub fn split(payload: &'a [u8]) -> Result<PayloadView<'a>, HeadRefused>
        ensures ok { IfOk result (λ view. view ≡ payload.now) }
        ensures bad_header { (result ≡ Err HeadRefused.BadHeader) ↔ ¬ HasHead payload.now }
        ensures bad_version { (result ≡ Err HeadRefused.BadVersion)
            ↔ (HasHead payload.now × (first_word payload.now % 16 ≢ 0)) }
    {
        match take_be32(payload) {
            Some(first) if HEAD_LEN <= payload.len() && first / 16 == MAGIC / 16 => {
                if first % 16 == 0 {
                    Ok(PayloadView { payload })
                } else {
                    Err(HeadRefused::BadVersion)
                }
            }
            _ => Err(HeadRefused::BadHeader),
        }
    }

    /// The id of the key that sealed the body.
    pub fn key_id(&self) -> KeyId
        ensures value { result.0 ≡ id_of_guid (take 16 (drop 4 self.now)) }
        ensures layout { guid result.0 ≡ take 16 (drop 4 self.now) }
    {
        let mut bytes = [0; 16];
        bytes.copy_from_slice(&self.payload[4..HEAD_LEN]);
        key_id_from_guid(&bytes)
    }

    /// What follows the head.
    pub fn rest(&self) -> &'a [u8]
        ensures { result.now ≡ drop 20 self.now }
    {
        &self.payload[HEAD_LEN..]
    }

    /// The parts of the rest, under the algorithm of the key; none where it is shorter than modifier,
    /// vector and tag together.
    pub fn body(&self, alg: Alg) -> Option<BodyView<'a>>
        ensures none { IsNone result ↔ (length (drop 20 self.now) < plain_len alg) }
        ensures parts { IfSome result (λ view. view ≡ parts_of alg (drop 20 self.now)) }
        ensures whole { IfSome result (λ view. joined view ≡ drop 20 self.now) }
        ensures made { IfSome result (λ view. AreFor alg view) }
    {
        BodyView::split(self.rest(), alg)
    }
}
