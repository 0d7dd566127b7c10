//! What a request is answered by, and the frames of replies.

ghost use Rattle.std.specs.Prelude.{◌≡◌, ◌≢◌, ◌<◌, None, Some, IfOk, OnOk, MatchOption};
ghost use Rattle.node_calls.specs.declared.error.NodeError.TheVariants as errors;
ghost use Rattle.dp_wire.specs.declared.reply.Reply.TheVariants as replies;
ghost use Rattle.dp_wire.specs.Frame.{frame};
ghost use Rattle.dp_wire.specs.Replies.{reply_body};
ghost use Rattle.dp_answer.specs.declared.trace.Used.TheVariants as used;
ghost use Rattle.dp_answer.specs.Replies.{FitsFrame, refusal_reply};
ghost use Rattle.dp_answer.specs.Responding.{IsByRing};
ghost use Rattle.dp_answer.specs.Serving.{IsAnswer};

use crate::trace::Used;
use dp_base::{Grows, Memory};
use dp_wire::{BadRequest, Reply, put_reply};
use key_elements::ElementList;
use key_ring::Ring;
use node_calls::NodeError;
use std::alloc::Global;

/// What a request was answered by, its reply's frame, and the list that it brings to the trace.
#[derive(Debug, Drop)]
pub struct Response {
    pub used: Used,
    pub reply: Vec<u8>,
    pub list: Option<ElementList>,
}

/// The frame of a reply.
pub(crate) fn framed(alloc: Global, reply: &Reply<'_>) -> Result<Vec<u8>, Memory>
    requires { FitsFrame reply.now }
    ensures { IfOk result (λ bytes. bytes.items ≡ frame (reply_body reply.now)) }
{
    let mut bytes = Vec::new(alloc);
    put_reply(alloc, reply, &mut bytes)?;
    Ok(bytes)
}

// The reply that a call was refused; none where it wanted memory.
fn reply_of(why: &NodeError) -> Option<Reply<'static>>
    ensures { MatchOption result (why.now ≡ errors.Memory) (λ reply. FitsFrame reply
        × (reply_body reply ≡ refusal_reply why.now) × (why.now ≢ errors.Memory)) }
{
    match why {
        NodeError::StoreFault => Some(Reply::StoreFault),
        NodeError::DrawFault => Some(Reply::DrawFault),
        NodeError::WentBack { had, got } => Some(Reply::WentBack {
            had: *had,
            got: *got,
        }),
        NodeError::Behind { have, need } => Some(Reply::Behind {
            have: *have,
            need: *need,
        }),
        NodeError::Forked(fork) => Some(Reply::Forked { at: fork.at }),
        NodeError::Full { count } => Some(Reply::Full { count: *count }),
        NodeError::BadDates => Some(Reply::BadDates),
        NodeError::Memory => None,
    }
}

/// The answer that a call was refused.
pub(crate) fn refused(alloc: Global, why: NodeError) -> Result<Response, Memory>
    ensures answer { IsAnswer (used.Refused why) (refusal_reply why) None result }
    ensures known { OnOk result (why ≢ errors.Memory) }
{
    let reply = match reply_of(&why) {
        Some(reply) => framed(alloc, &reply)?,
        None => return Err(Memory),
    };
    Ok(Response {
        used: Used::Refused(why),
        reply,
        list: None,
    })
}

/// The answer to a body that is no request's.
pub(crate) fn bad_request(alloc: Global, why: BadRequest) -> Result<Response, Memory>
    ensures { IsAnswer (used.BadRequest why.place) (reply_body (replies.BadRequest why.place))
        None result }
{
    let reply = framed(alloc, &Reply::BadRequest { place: why.place })?;
    Ok(Response {
        used: Used::BadRequest { place: why.place },
        reply,
        list: None,
    })
}

/// An answer by the ring, whose list goes to the trace.
pub(crate) fn by_ring(alloc: Global, ring: &Ring, reply: &Reply<'_>) -> Result<Response, Memory>
    requires { FitsFrame reply.now }
    ensures { IsByRing ring.now (reply_body reply.now) result }
{
    let reply = framed(alloc, reply)?;
    Ok(Response {
        used: Used::Ring {
            front: ring.list().len(),
            made_at: ring.made_at(),
        },
        reply,
        list: Some(ring.list().share()?),
    })
}
