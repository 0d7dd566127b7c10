//! Reading the fields of each kind of request in order.

ghost use Rattle.std.specs.Prelude.{◌≡◌, ◌≤◌, length};
ghost use Rattle.dp_base.specs.Readers.{seen};
ghost use Rattle.dp_wire.specs.declared.frame.TheConstants.{MAX_BODY};
ghost use Rattle.dp_wire.specs.Chains.{chain_of};
ghost use Rattle.dp_wire.specs.Request.{request_of};
ghost use Rattle.dp_wire.specs.Reading.{ring_at, roll_at, revoke_at, revoke_before_at, sealing_at, opening_at, protect_at, unprotect_at, protect_text_at, unprotect_text_at, protect_timed_at, unprotect_timed_at, request_at};

use crate::chain::ChainView;
use crate::frame::MAX_BODY;
use crate::reading::{
    bytes_at, chain_at, code_at, ends, flag_at, number_at, text_at, whole_text_at,
};
use crate::request::{BadRequest, RequestView};
use dp_base::key_id_from_guid;

#[tactic(auto, unfolding(crate::specs::Reading::ring_at))]
fn ring_at<'a>(len: u32, rest: &'a [u8]) -> Result<RequestView<'a>, BadRequest>
    ensures { seen request_of result ≡ ring_at len rest.now }
{
    let (need, rest) = number_at(len, rest)?;
    ends(len, RequestView::Ring { need }, rest)
}

#[tactic(auto, unfolding(crate::specs::Reading::roll_at))]
fn roll_at<'a>(len: u32, rest: &'a [u8]) -> Result<RequestView<'a>, BadRequest>
    ensures { seen request_of result ≡ roll_at len rest.now }
{
    let (activation, rest) = number_at(len, rest)?;
    let (expiration, rest) = number_at(len, rest)?;
    let (alg, rest) = code_at(len, rest)?;
    let view = RequestView::Roll {
        activation,
        expiration,
        alg,
    };
    ends(len, view, rest)
}

#[tactic(auto, unfolding(crate::specs::Reading::revoke_at))]
fn revoke_at<'a>(len: u32, rest: &'a [u8]) -> Result<RequestView<'a>, BadRequest>
    ensures { seen request_of result ≡ revoke_at len rest.now }
{
    let (id, rest) = bytes_at::<16>(len, rest)?;
    let (reason, rest) = text_at(len, rest)?;
    let id = key_id_from_guid(&id);
    ends(len, RequestView::Revoke { id, reason }, rest)
}

#[tactic(auto, unfolding(crate::specs::Reading::revoke_before_at))]
fn revoke_before_at<'a>(len: u32, rest: &'a [u8]) -> Result<RequestView<'a>, BadRequest>
    ensures { seen request_of result ≡ revoke_before_at len rest.now }
{
    let (date, rest) = number_at(len, rest)?;
    let (reason, rest) = text_at(len, rest)?;
    ends(len, RequestView::RevokeBefore { date, reason }, rest)
}

// A need and a chain, and the rest.
#[tactic(auto, unfolding(crate::specs::Reading::sealing_at))]
fn sealing_at<'a>(len: u32, rest: &'a [u8]) -> Result<(u64, ChainView<'a>, &'a [u8]), BadRequest>
    ensures { seen (λ x. (x.0, chain_of x.1.bytes.now, x.2.now)) result ≡ sealing_at len rest.now }
{
    let (need, rest) = number_at(len, rest)?;
    let (chain, rest) = chain_at(len, rest)?;
    Ok((need, chain, rest))
}

// A need, whether revoked keys are allowed, and a chain, and the rest.
#[tactic(auto, unfolding(crate::specs::Reading::opening_at))]
fn opening_at<'a>(
    len: u32,
    rest: &'a [u8],
) -> Result<(u64, bool, ChainView<'a>, &'a [u8]), BadRequest>
    ensures { seen (λ x. (x.0, x.1, chain_of x.2.bytes.now, x.3.now)) result
        ≡ opening_at len rest.now }
{
    let (need, rest) = number_at(len, rest)?;
    let (allow_revoked, rest) = flag_at(len, rest)?;
    let (chain, rest) = chain_at(len, rest)?;
    Ok((need, allow_revoked, chain, rest))
}

#[tactic(auto, unfolding(crate::specs::Reading::protect_at))]
fn protect_at<'a>(len: u32, rest: &'a [u8]) -> Result<RequestView<'a>, BadRequest>
    ensures { seen request_of result ≡ protect_at len rest.now }
{
    let (need, chain, plain) = sealing_at(len, rest)?;
    Ok(RequestView::Protect { need, chain, plain })
}

#[tactic(auto, unfolding(crate::specs::Reading::unprotect_at))]
fn unprotect_at<'a>(len: u32, rest: &'a [u8]) -> Result<RequestView<'a>, BadRequest>
    ensures { seen request_of result ≡ unprotect_at len rest.now }
{
    let (need, allow_revoked, chain, payload) = opening_at(len, rest)?;
    Ok(RequestView::Unprotect {
        need,
        allow_revoked,
        chain,
        payload,
    })
}

#[tactic(auto, unfolding(crate::specs::Reading::protect_text_at))]
fn protect_text_at<'a>(len: u32, rest: &'a [u8]) -> Result<RequestView<'a>, BadRequest>
    ensures { seen request_of result ≡ protect_text_at len rest.now }
{
    let (need, chain, rest) = sealing_at(len, rest)?;
    let text = whole_text_at(len, rest)?;
    Ok(RequestView::ProtectText { need, chain, text })
}

#[tactic(auto, unfolding(crate::specs::Reading::unprotect_text_at))]
fn unprotect_text_at<'a>(len: u32, rest: &'a [u8]) -> Result<RequestView<'a>, BadRequest>
    ensures { seen request_of result ≡ unprotect_text_at len rest.now }
{
    let (need, allow_revoked, chain, text) = opening_at(len, rest)?;
    Ok(RequestView::UnprotectText {
        need,
        allow_revoked,
        chain,
        text,
    })
}

#[tactic(auto, unfolding(crate::specs::Reading::protect_timed_at))]
fn protect_timed_at<'a>(len: u32, rest: &'a [u8]) -> Result<RequestView<'a>, BadRequest>
    ensures { seen request_of result ≡ protect_timed_at len rest.now }
{
    let (need, chain, rest) = sealing_at(len, rest)?;
    let (expiry, plain) = number_at(len, rest)?;
    Ok(RequestView::ProtectTimed {
        need,
        chain,
        expiry,
        plain,
    })
}

#[tactic(auto, unfolding(crate::specs::Reading::unprotect_timed_at))]
fn unprotect_timed_at<'a>(len: u32, rest: &'a [u8]) -> Result<RequestView<'a>, BadRequest>
    ensures { seen request_of result ≡ unprotect_timed_at len rest.now }
{
    let (need, allow_revoked, chain, payload) = opening_at(len, rest)?;
    Ok(RequestView::UnprotectTimed {
        need,
        allow_revoked,
        chain,
        payload,
    })
}

/// The request of a whole body.
#[tactic(auto, unfolding(crate::specs::Reading::request_at))]
pub fn request_at<'a>(body: &'a [u8]) -> Result<RequestView<'a>, BadRequest>
    requires { length body.now ≤ MAX_BODY }
    ensures { seen request_of result ≡ request_at body.now }
{
    let len = body.len() as u32;
    match body {
        [1, rest @ ..] => ring_at(len, rest),
        [2, rest @ ..] => roll_at(len, rest),
        [3, rest @ ..] => revoke_at(len, rest),
        [4, rest @ ..] => revoke_before_at(len, rest),
        [5, rest @ ..] => protect_at(len, rest),
        [6, rest @ ..] => unprotect_at(len, rest),
        [7, rest @ ..] => protect_text_at(len, rest),
        [8, rest @ ..] => unprotect_text_at(len, rest),
        [9, rest @ ..] => protect_timed_at(len, rest),
        [10, rest @ ..] => unprotect_timed_at(len, rest),
        _ => Err(BadRequest { place: 0 }),
    }
}
