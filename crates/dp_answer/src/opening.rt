//! Requests to unprotect, answered by a ring.

ghost use Rattle.std.specs.Prelude.{◌≡◌, ◌<◌, ◌^◌, ℕ, List, Some, IfSome, length};
ghost use Rattle.dp_base.specs.Draws.{DrawState};
ghost use Rattle.dp_protector.specs.Text.{payload_of};
ghost use Rattle.dp_wire.specs.Chains.{chain_of};
ghost use Rattle.dp_wire.specs.Request.{Unprotect, UnprotectText, UnprotectTimed};
ghost use Rattle.dp_answer.specs.Responding.{IsUnopened, Responds};
ghost use Rattle.dp_answer.specs.Sought.{kept};

use crate::app::Setting;
use crate::response::{Response, by_ring};
use dp_base::Memory;
use dp_protector::{
    TextRefused, TimedOpenRefused, UnprotectRefused, open_text, unprotect_timed, unprotect_with,
};
use dp_wire::{ChainView, Reply};
use key_ring::Ring;
use std::alloc::Global;

// The answer where a payload isn't opened.
fn unopened(alloc: Global, ring: &Ring, why: UnprotectRefused) -> Result<Response, Memory>
    ensures { IsUnopened why ring.now result }
{
    let front = ring.list().len();
    match why {
        UnprotectRefused::BadHeader => by_ring(alloc, ring, &Reply::BadHeader { front }),
        UnprotectRefused::BadVersion => by_ring(alloc, ring, &Reply::BadVersion { front }),
        UnprotectRefused::KeyNotFound { id } => {
            by_ring(alloc, ring, &Reply::KeyNotFound { front, id })
        }
        UnprotectRefused::KeyRevoked { id } => {
            by_ring(alloc, ring, &Reply::KeyRevoked { front, id })
        }
        UnprotectRefused::KeyUnusable { id } => {
            by_ring(alloc, ring, &Reply::KeyUnusable { front, id })
        }
        UnprotectRefused::Tampered => by_ring(alloc, ring, &Reply::Tampered { front }),
        UnprotectRefused::Memory => Err(Memory),
    }
}

/// What a payload opens to.
pub(crate) fn opened(
    alloc: Global,
    setting: Setting<'_>,
    ring: &Ring,
    chain: &ChainView<'_>,
    payload: &[u8],
    allow_revoked: bool,
) -> Result<Response, Memory>
    requires { length payload.now < 2 ^ 32 }
    ensures { (now need : ℕ) (draws : DrawState) → Responds setting.entry.app.now now
        (Unprotect need allow_revoked (chain_of chain.now.bytes.now) payload.now) ring.now result
        draws draws }
{
    let chain = chain.to_chain(alloc, setting.app.as_str())?;
    match unprotect_with(alloc, ring, setting.headers, &chain, payload, allow_revoked) {
        Ok(opened) => by_ring(
            alloc,
            ring,
            &Reply::Unprotected {
                front: ring.list().len(),
                revoked: opened.revoked,
                default_changed: opened.default_changed,
                plain: opened.plain.as_slice(),
            },
        ),
        Err(why) => unopened(alloc, ring, why),
    }
}

// What a payload opens to that a text is of.
fn opened_as_text(
    alloc: Global,
    setting: Setting<'_>,
    ring: &Ring,
    chain: &ChainView<'_>,
    payload: &[u8],
    allow_revoked: bool,
) -> Result<Response, Memory>
    requires { length payload.now < 2 ^ 32 }
    ensures { (now need : ℕ) (text : List ℕ) (draws : DrawState)
        → payload_of text ≡ Some payload.now → Responds setting.entry.app.now now
        (UnprotectText need allow_revoked (chain_of chain.now.bytes.now) text) ring.now result
        draws draws }
{
    let chain = chain.to_chain(alloc, setting.app.as_str())?;
    let front = ring.list().len();
    match open_text(alloc, ring, setting.headers, &chain, payload, allow_revoked) {
        Ok(opened) => by_ring(
            alloc,
            ring,
            &Reply::UnprotectedText {
                front,
                revoked: opened.revoked,
                default_changed: opened.default_changed,
                text: opened.text.as_str(),
            },
        ),
        Err(TextRefused::BadText) => by_ring(alloc, ring, &Reply::BadText { front }),
        Err(TextRefused::Body(why)) => unopened(alloc, ring, why),
        Err(TextRefused::NotText) => by_ring(alloc, ring, &Reply::NotText { front }),
        Err(TextRefused::Memory) => Err(Memory),
    }
}

/// What a text opens to, where `payload` is the payload that it is of.
pub(crate) fn opened_text(
    alloc: Global,
    setting: Setting<'_>,
    ring: &Ring,
    chain: &ChainView<'_>,
    payload: &Option<Vec<u8>>,
    allow_revoked: bool,
) -> Result<Response, Memory>
    requires { IfSome payload.now (λ bytes. length bytes.items < 2 ^ 32) }
    ensures { (now need : ℕ) (text : List ℕ) (draws : DrawState)
        → payload_of text ≡ kept payload.now → Responds setting.entry.app.now now
        (UnprotectText need allow_revoked (chain_of chain.now.bytes.now) text) ring.now result
        draws draws }
{
    match payload {
        Some(payload) => opened_as_text(
            alloc,
            setting,
            ring,
            chain,
            payload.as_slice(),
            allow_revoked,
        ),
        None => {
            let front = ring.list().len();
            by_ring(alloc, ring, &Reply::BadText { front })
        }
    }
}

/// What a payload that expires opens to at the moment, in ticks.
pub(crate) fn opened_timed(
    alloc: Global,
    setting: Setting<'_>,
    ring: &Ring,
    chain: &ChainView<'_>,
    payload: &[u8],
    allow_revoked: bool,
    now: u64,
) -> Result<Response, Memory>
    requires { length payload.now < 2 ^ 32 }
    ensures { (need : ℕ) (draws : DrawState) → Responds setting.entry.app.now now
        (UnprotectTimed need allow_revoked (chain_of chain.now.bytes.now) payload.now) ring.now
        result draws draws }
{
    let chain = chain.to_chain(alloc, setting.app.as_str())?;
    let front = ring.list().len();
    match unprotect_timed(
        alloc,
        ring,
        setting.headers,
        &chain,
        payload,
        allow_revoked,
        now,
    ) {
        Ok(opened) => by_ring(
            alloc,
            ring,
            &Reply::UnprotectedTimed {
                front,
                revoked: opened.revoked,
                default_changed: opened.default_changed,
                expiry: opened.expiry,
                plain: opened.plain.as_slice(),
            },
        ),
        Err(TimedOpenRefused::Body(why)) => unopened(alloc, ring, why),
        Err(TimedOpenRefused::Invalid) => by_ring(alloc, ring, &Reply::Invalid { front }),
        Err(TimedOpenRefused::Expired { at }) => {
            by_ring(alloc, ring, &Reply::Expired { front, at })
        }
        Err(TimedOpenRefused::Memory) => Err(Memory),
    }
}
