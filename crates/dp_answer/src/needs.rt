//! What a request needs of its node.

ghost use Rattle.std.specs.Prelude.{◌≡◌, ◌<◌, ◌≤◌, ◌^◌, IfOk, IfSome, length};
ghost use Rattle.dp_base.specs.Readers.{seen};
ghost use Rattle.dp_protector.specs.Text.{payload_of};
ghost use Rattle.dp_wire.specs.Request.{request_of};
ghost use Rattle.dp_answer.specs.Needs.{IsShort, named_by, named_in, need_of};
ghost use Rattle.dp_answer.specs.Sought.{IsSought, kept};

use dp_base::{KeyId, Memory};
use dp_protector::{TextRefused, payload_of};
use dp_wire::{BadRequest, RequestView};
use payload_view::PayloadView;
use std::alloc::Global;

/// How many elements a request asks for.
pub fn need_of(request: Result<RequestView<'_>, BadRequest>) -> u64
    ensures { result ≡ need_of (seen request_of request.entry) }
{
    match request {
        Ok(
            RequestView::Ring { need }
            | RequestView::Protect { need, .. }
            | RequestView::Unprotect { need, .. }
            | RequestView::ProtectText { need, .. }
            | RequestView::UnprotectText { need, .. }
            | RequestView::ProtectTimed { need, .. }
            | RequestView::UnprotectTimed { need, .. },
        ) => need,
        Ok(RequestView::Roll { .. } | RequestView::Revoke { .. } | RequestView::RevokeBefore { .. })
        | Err(_) => 0,
    }
}

/// The id of the key that a payload names, where it has the head of one.
pub(crate) fn named_in(payload: &[u8]) -> Option<KeyId>
    ensures { result ≡ named_in payload.now }
{
    match PayloadView::split(payload) {
        Ok(view) => Some(view.key_id()),
        Err(_) => None,
    }
}

/// What is known of a request before its ring is there: the key without which the node tries once
/// more, and the payload that its text is of, where it has one.
#[derive(Debug, Drop)]
pub(crate) struct Sought {
    pub missing: Option<KeyId>,
    pub payload: Option<Vec<u8>>,
}

// What is known of a text.
fn sought_by_text(alloc: Global, text: &[u8]) -> Result<Sought, Memory>
    ensures missing { IfOk result (λ s. s.missing ≡ named_by (payload_of text.now)) }
    ensures payload { IfOk result (λ s. kept s.payload ≡ payload_of text.now) }
    ensures short { IfOk result (λ s. IfSome s.payload (λ v. length v.items ≤ length text.now)) }
{
    match payload_of(alloc, text) {
        Ok(payload) => Ok(Sought {
            missing: named_in(payload.as_slice()),
            payload: Some(payload),
        }),
        Err(TextRefused::Memory) => Err(Memory),
        Err(_) => Ok(Sought {
            missing: None,
            payload: None,
        }),
    }
}

/// What is known of a request. A text is decoded before the ring is asked for, so that the node can miss
/// the key that its payload names.
pub(crate) fn seek(alloc: Global, view: RequestView<'_>) -> Result<Sought, Memory>
    requires { IsShort (request_of view) }
    ensures sought { IfOk result (IsSought (request_of view.entry)) }
    ensures short { IfOk result (λ s. IfSome s.payload (λ v. length v.items < 2 ^ 32)) }
{
    let missing = match view {
        RequestView::UnprotectText { text, .. } => return sought_by_text(alloc, text),
        RequestView::Unprotect { payload, .. } | RequestView::UnprotectTimed { payload, .. } => {
            named_in(payload)
        }
        _ => None,
    };
    Ok(Sought {
        missing,
        payload: None,
    })
}
