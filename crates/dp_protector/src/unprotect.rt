//! Unprotecting by a ring.

ghost use Rattle.std.specs.Prelude.{◌≡◌, ◌⊎◌, ◌<◌, ◌^◌, ◌&&◌, not, length, None, Some, MatchResult};
ghost use Rattle.key_ring.specs.State.{key_state};
ghost use Rattle.dp_protector.specs.Opening.{IsDueAnswer, open_body, opened, opened_under, opening};
ghost use Rattle.dp_protector.specs.declared.refused.UnprotectRefused.TheVariants as refused;

use crate::opened::Opened;
use crate::refused::UnprotectRefused;
use crate::seal::alg_of;
use dp_base::{Alg, KeyId};
use dp_encryptor::{Encryptor, HeaderTable};
use key_elements::KeyRecord;
use key_ring::{KeyState, Ring};
use payload_view::{BodyView, PayloadView};
use purpose_chain::Chain;
use std::alloc::Global;

// The text of a body under a key, for a chain.
fn open_body(
    alloc: Global,
    headers: &HeaderTable,
    key: &KeyRecord,
    alg: Alg,
    chain: &Chain,
    body: &[u8],
) -> Result<Vec<u8>, UnprotectRefused>
    requires { length body.now < 2 ^ 32 }
    ensures { MatchResult result (λ v. open_body alg key.now chain.now body.now ≡ Some v.items)
        (λ why. (why ≡ refused.Memory)
        ⊎ ((why ≡ refused.Tampered) × (open_body alg key.now chain.now body.now ≡ None))) }
{
    let Some(body) = BodyView::split(body, alg) else {
        return Err(UnprotectRefused::Tampered);
    };
    let encryptor = Encryptor::new(alloc, alg, &key.material, headers);
    let aad = chain.aad(alloc, &key.id)?;
    Ok(encryptor.open_body(alloc, &aad, body)?)
}

// Whether a key is kept from opening.
fn is_barred(revoked: bool, allow_revoked: bool) -> bool
    ensures { result ≡ (revoked && not allow_revoked) }
{
    revoked && !allow_revoked
}

// What a body opens to under a key of the ring.
fn open_under(
    alloc: Global,
    headers: &HeaderTable,
    state: &KeyState<'_>,
    id: KeyId,
    chain: &Chain,
    body: &[u8],
    allow_revoked: bool,
) -> Result<Opened, UnprotectRefused>
    requires { length body.now < 2 ^ 32 }
    ensures { IsDueAnswer opening result
        (opened_under (Some (key_state state.now)) allow_revoked id chain.now body.now) }
{
    if is_barred(state.revoked, allow_revoked) {
        return Err(UnprotectRefused::KeyRevoked { id });
    }
    let Some(alg) = alg_of(state.key) else {
        return Err(UnprotectRefused::KeyUnusable { id });
    };
    let plain = open_body(alloc, headers, state.key, alg, chain, body)?;
    Ok(Opened {
        plain,
        revoked: state.revoked,
        default_changed: !state.is_default,
    })
}

/// What a payload opens to by the ring, for a chain of purposes: what one of its keys sealed for them.
/// A revoked key opens where `allow_revoked` is set.
pub fn unprotect_with(
    alloc: Global,
    ring: &Ring,
    headers: &HeaderTable,
    chain: &Chain,
    payload: &[u8],
    allow_revoked: bool,
) -> Result<Opened, UnprotectRefused>
    requires { length payload.now < 2 ^ 32 }
    ensures { IsDueAnswer opening result (opened ring.now chain.now payload.now allow_revoked) }
{
    let view = PayloadView::split(payload)?;
    let id = view.key_id();
    match ring.lookup(&id) {
        Some(state) => open_under(
            alloc,
            headers,
            &state,
            id,
            chain,
            view.rest(),
            allow_revoked,
        ),
        None => Err(UnprotectRefused::KeyNotFound { id }),
    }
}
