//! Requests.

ghost use Rattle.std.specs.Prelude.{◌≡◌, ◌≤◌, ℕ, List, length, Ok, IfOk, MatchResult};
ghost use Rattle.dp_base.specs.Readers.{seen};
ghost use Rattle.dp_wire.specs.declared.frame.TheConstants.{MAX_BODY};
ghost use Rattle.dp_wire.specs.Chains.{chain_of};
ghost use Rattle.dp_wire.specs.Purposes.{purposes_left};
ghost use Rattle.dp_wire.specs.Request.{Request, request_of, purposes_in, IsBody};
ghost use Rattle.dp_wire.specs.Reading.{request_at};

use crate::chain::ChainView;
use crate::kinds::request_at;
use crate::purposes::PurposeIter;
use dp_base::KeyId;
use thiserror::Error;

/// A request, whose chain, texts and rest lie in the body that it was read from. `need` is how many
/// elements at least the ring has that serves it; revoked keys open a payload where `allow_revoked`.
#[derive(Clone, Copy, Debug, PartialEq, Eq)]
pub enum RequestView<'a> {
    /// Asks for the listing of a ring of at least `need` elements.
    Ring {
        need: u64,
    },
    /// Asks for a new key of these dates, in ticks, with the algorithm of a code of 1 to 9.
    Roll {
        activation: u64,
        expiration: u64,
        alg: u8,
    },
    /// Asks that the key with the id be revoked.
    Revoke {
        id: KeyId,
        reason: &'a str,
    },
    /// Asks that every key made before the date, in ticks, be revoked.
    RevokeBefore {
        date: u64,
        reason: &'a str,
    },
    /// Asks for a payload of the plaintext.
    Protect {
        need: u64,
        chain: ChainView<'a>,
        plain: &'a [u8],
    },
    /// Asks for the plaintext of a payload.
    Unprotect {
        need: u64,
        allow_revoked: bool,
        chain: ChainView<'a>,
        payload: &'a [u8],
    },
    /// Asks for a payload of the text, as text itself.
    ProtectText {
        need: u64,
        chain: ChainView<'a>,
        text: &'a str,
    },
    /// Asks for the text of a payload, which is text itself.
    UnprotectText {
        need: u64,
        allow_revoked: bool,
        chain: ChainView<'a>,
        text: &'a [u8],
    },
    /// Asks for a payload of the plaintext that expires at a moment, in ticks.
    ProtectTimed {
        need: u64,
        chain: ChainView<'a>,
        expiry: u64,
        plain: &'a [u8],
    },
    /// Asks for the plaintext of a payload that expires.
    UnprotectTimed {
        need: u64,
        allow_revoked: bool,
        chain: ChainView<'a>,
        payload: &'a [u8],
    },
}

/// Bytes that are no request's body.
#[derive(Clone, Copy, Debug, PartialEq, Eq, Error)]
#[error("a request is wrong at byte {place}")]
pub struct BadRequest {
    /// The offset of the first byte of the first field that is wrong.
    pub place: u32,
}

impl<'a> RequestView<'a> {
    /// Reads a whole body.
    pub fn read(body: &'a [u8]) -> Result<RequestView<'a>, BadRequest>
        requires { length body.now ≤ MAX_BODY }
        ensures found { IfOk result (λ view. IsBody body.now (request_of view)) }
        ensures only { (q : Request) → IsBody body.now q → seen request_of result ≡ Ok q }

        // Else the first field that is wrong is told by its place.
        ensures exact { seen request_of result ≡ request_at body.now }
    {
        request_at(body)
    }

    /// The purposes of the chain, from the general one to the special one. A kind without a chain
    /// has none.
    pub fn purposes(&self) -> PurposeIter<'a>
        ensures { purposes_left result ≡ purposes_in (request_of self.now) }
    {
        match self {
            RequestView::Ring { .. }
            | RequestView::Roll { .. }
            | RequestView::Revoke { .. }
            | RequestView::RevokeBefore { .. } => PurposeIter::none(),
            RequestView::Protect { chain, .. }
            | RequestView::Unprotect { chain, .. }
            | RequestView::ProtectText { chain, .. }
            | RequestView::UnprotectText { chain, .. }
            | RequestView::ProtectTimed { chain, .. }
            | RequestView::UnprotectTimed { chain, .. } => chain.purposes(),
        }
    }
}
