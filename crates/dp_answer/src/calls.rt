//! Calls that protect and unprotect at a node: a ring is found by a lawful path, and answers.

ghost use Rattle.std.specs.Prelude.{◌≡◌, ◌<◌, ◌≤◌, ◌^◌, false, [], length, None, Result, Ok};
ghost use Rattle.dp_base.specs.declared.ticks.TheConstants.{LAST};
ghost use Rattle.dp_base.specs.Draws.{DrawState};
ghost use Rattle.key_elements.specs.Lists.{Extends};
ghost use Rattle.key_ring.specs.Ring.{RingOf};
ghost use Rattle.ring_world.specs.Flight.{Refusal};
ghost use Rattle.ring_world.specs.Way.{CallPath};
ghost use Rattle.node_calls.specs.Books.{books, Does};
ghost use Rattle.node_calls.specs.Calls.{call};
ghost use Rattle.dp_answer.specs.Calls.{Protects, Unprotects};
ghost use Rattle.dp_answer.specs.Needs.{named_in};

use crate::needs::named_in;
use dp_base::Draw;
use dp_encryptor::HeaderTable;
use dp_protector::{Opened, ProtectRefused, UnprotectRefused, protect_with, unprotect_with};
use key_ring::{Ring, Why};
use node_calls::{At, Host, HostView, NodeError, ring_for};
use purpose_chain::Chain;
use repo_keeper::Repo;
use ring_world::StepList;
use std::alloc::Global;
use thiserror::Error;

/// What a call answers by a ring: how many elements its list has, the moment at which it was made, in
/// ticks, and the value.
#[derive(Debug, Drop)]
pub struct Answered<T> {
    pub front: u64,
    pub made_at: u64,
    pub value: T,
}

/// Why a call isn't answered; `front` is how many elements the list of the ring has.
#[derive(Debug, Drop, Error)]
pub enum CallRefused {
    /// No ring was found.
    #[error("{0}")]
    Node(NodeError),
    /// The ring of the one look of a call that doesn't wait is due, or its list is too short.
    #[error("the ring is due")]
    Due(Why),
    /// By the ring nothing is protected.
    #[error("{why}")]
    Protect { front: u64, why: ProtectRefused },
    /// By the ring the payload isn't opened.
    #[error("{why}")]
    Unprotect { front: u64, why: UnprotectRefused },
}

// An answer by the ring.
fn by<T>(ring: &Ring, value: T) -> Answered<T>
    ensures { result ≡ record {
      front = length ring.now.list;
      made_at = ring.now.made_at;
      value = value;
    } }
{
    Answered {
        front: ring.list().len(),
        made_at: ring.made_at(),
        value,
    }
}

/// The payload of a plaintext under the default key of the ring, or why there is none.
pub(crate) fn sealed_by<D: Draw>(
    alloc: Global,
    ring: &Ring,
    headers: &HeaderTable,
    chain: &Chain,
    draw: &mut D,
    plain: &[u8],
) -> Result<Answered<Vec<u8>>, CallRefused>
    ensures { Protects chain.now plain.now (Ok ring.now) result (D.draws draw.old)
        (D.draws draw.new) }
{
    match protect_with(alloc, ring, headers, chain, draw, plain) {
        Ok(payload) => Ok(by(ring, payload)),
        Err(why) => Err(CallRefused::Protect {
            front: ring.list().len(),
            why,
        }),
    }
}

/// What a payload opens to by the ring, or why it doesn't.
pub(crate) fn opened_by(
    alloc: Global,
    ring: &Ring,
    headers: &HeaderTable,
    chain: &Chain,
    payload: &[u8],
    allow_revoked: bool,
) -> Result<Answered<Opened>, CallRefused>
    requires { length payload.now < 2 ^ 32 }
    ensures { Unprotects chain.now payload.now allow_revoked (Ok ring.now) result }
{
    match unprotect_with(alloc, ring, headers, chain, payload, allow_revoked) {
        Ok(opened) => Ok(by(ring, opened)),
        Err(why) => Err(CallRefused::Unprotect {
            front: ring.list().len(),
            why,
        }),
    }
}

/// The payload of a plaintext under the default key of a ring of at least `at.need` elements, for a
/// chain of purposes: `ring_for` and then `protect_with`.
pub fn protect<W, H: Host<W>, R: Repo<W>, D: Draw>(
    w: &mut W,
    alloc: Global,
    host: &mut H,
    repo: &mut R,
    draw: &mut D,
    headers: &HeaderTable,
    at: At,
    chain: &Chain,
    plain: &[u8],
    steps: &mut StepList,
) -> Result<Answered<Vec<u8>>, CallRefused>
    requires moment { at.now ≤ LAST }
    requires free { (H.state host.old).held ≡ false }
    requires room { steps.old ≡ [] }
    ensures protects { (between : DrawState) × (r : Result RingOf Refusal)
        × Does (CallPath (call at None (H.state host.old) (R.store repo.old).list
        (R.store repo.new).list) r (H.state host.new).own)
        (books [] (H.state host.old) (R.store repo.old) (D.draws draw.old))
        (books steps.new (H.state host.new) (R.store repo.new) between)
        × Protects chain.now plain.now r result between (D.draws draw.new) }
    ensures free { (H.state host.new).held ≡ false }
    ensures grows { Extends (H.state host.new).own (H.state host.old).own }
{
    match ring_for(w, alloc, host, repo, draw, at, None, steps) {
        Ok(ring) => sealed_by(alloc, &ring, headers, chain, draw, plain),
        Err(why) => Err(CallRefused::Node(why)),
    }
}

/// What a payload opens to by a ring of at least `at.need` elements, for a chain of purposes: `ring_for`,
/// which tries once more where the ring lacks the key that the payload names, and then
/// `unprotect_with`.
pub fn unprotect<W, H: Host<W>, R: Repo<W>, D: Draw>(
    w: &mut W,
    alloc: Global,
    host: &mut H,
    repo: &mut R,
    draw: &mut D,
    headers: &HeaderTable,
    at: At,
    chain: &Chain,
    payload: &[u8],
    allow_revoked: bool,
    steps: &mut StepList,
) -> Result<Answered<Opened>, CallRefused>
    requires moment { at.now ≤ LAST }
    requires short { length payload.now < 2 ^ 32 }
    requires free { (H.state host.old).held ≡ false }
    requires room { steps.old ≡ [] }
    ensures unprotects { (r : Result RingOf Refusal)
        × Does (CallPath (call at (named_in payload.now) (H.state host.old)
        (R.store repo.old).list (R.store repo.new).list) r (H.state host.new).own)
        (books [] (H.state host.old) (R.store repo.old) (D.draws draw.old))
        (books steps.new (H.state host.new) (R.store repo.new) (D.draws draw.new))
        × Unprotects chain.now payload.now allow_revoked r result }
    ensures free { (H.state host.new).held ≡ false }
    ensures grows { Extends (H.state host.new).own (H.state host.old).own }
{
    let missing = named_in(payload);
    match ring_for(w, alloc, host, repo, draw, at, missing, steps) {
        Ok(ring) => opened_by(alloc, &ring, headers, chain, payload, allow_revoked),
        Err(why) => Err(CallRefused::Node(why)),
    }
}
