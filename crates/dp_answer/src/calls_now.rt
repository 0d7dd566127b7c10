//! Calls that protect and unprotect at a node without waiting: by the ring of one look, or not at all.

ghost use Rattle.std.specs.Prelude.{◌≡◌, ◌<◌, ◌≤◌, ◌^◌, length, Result};
ghost use Rattle.dp_base.specs.declared.ticks.TheConstants.{LAST};
ghost use Rattle.key_elements.specs.Lists.{Extends};
ghost use Rattle.key_ring.specs.Ring.{RingOf};
ghost use Rattle.node_calls.specs.declared.now.NowRefused.{NowRefused};
ghost use Rattle.node_calls.specs.Now.{GivesNow};
ghost use Rattle.dp_answer.specs.CallsNow.{ProtectsNow, UnprotectsNow, refused_now};

use crate::calls::{Answered, CallRefused, opened_by, sealed_by};
use dp_base::Draw;
use dp_encryptor::HeaderTable;
use dp_protector::Opened;
use node_calls::{At, HostView, NodeError, NowRefused, ring_now};
use purpose_chain::Chain;
use std::alloc::Global;

// How it is told that a look gave no ring to use.
fn refused_now(why: NowRefused) -> CallRefused
    ensures { result ≡ refused_now why }
{
    match why {
        NowRefused::Due(why) => CallRefused::Due(why),
        NowRefused::Forked(fork) => CallRefused::Node(NodeError::Forked(fork)),
        NowRefused::Memory => CallRefused::Node(NodeError::Memory),
    }
}

/// The payload of a plaintext under the default key of the ring of one look, for a chain of purposes:
/// `ring_now` and then `protect_with`. Where the ring isn't used, nothing is drawn, and the pass has
/// seen no more than before.
pub fn protect_now<H: HostView, D: Draw>(
    alloc: Global,
    host: &mut H,
    draw: &mut D,
    headers: &HeaderTable,
    at: At,
    chain: &Chain,
    plain: &[u8],
) -> Result<Answered<Vec<u8>>, CallRefused>
    requires moment { at.now ≤ LAST }
    ensures protects { (r : Result RingOf NowRefused)
        × GivesNow at (H.state host.old) r (H.state host.new)
        × ProtectsNow chain.now plain.now r result (D.draws draw.old) (D.draws draw.new) }
    ensures grows { Extends (H.state host.new).own (H.state host.old).own }
{
    match ring_now(host, at) {
        Ok(ring) => sealed_by(alloc, &ring, headers, chain, draw, plain),
        Err(why) => Err(refused_now(why)),
    }
}

/// What a payload opens to by the ring of one look, for a chain of purposes: `ring_now` and then
/// `unprotect_with`. There is no further try where the ring lacks the key that the payload names.
pub fn unprotect_now<H: HostView>(
    alloc: Global,
    host: &mut H,
    headers: &HeaderTable,
    at: At,
    chain: &Chain,
    payload: &[u8],
    allow_revoked: bool,
) -> Result<Answered<Opened>, CallRefused>
    requires moment { at.now ≤ LAST }
    requires short { length payload.now < 2 ^ 32 }
    ensures unprotects { (r : Result RingOf NowRefused)
        × GivesNow at (H.state host.old) r (H.state host.new)
        × UnprotectsNow chain.now payload.now allow_revoked r result }
    ensures grows { Extends (H.state host.new).own (H.state host.old).own }
{
    match ring_now(host, at) {
        Ok(ring) => opened_by(alloc, &ring, headers, chain, payload, allow_revoked),
        Err(why) => Err(refused_now(why)),
    }
}
