//! Requests to protect, answered by a ring.

ghost use Rattle.std.specs.Prelude.{◌≤◌, ℕ};
ghost use Rattle.dp_wire.specs.Chains.{chain_of};
ghost use Rattle.dp_wire.specs.Request.{Protect, ProtectText, ProtectTimed};
ghost use Rattle.dp_base.specs.declared.ticks.TheConstants.{MAX_TICKS};
ghost use Rattle.dp_answer.specs.Responding.{IsUnmade, Responds};

use crate::app::Setting;
use crate::response::{Response, by_ring, refused};
use dp_base::{Draw, Memory};
use dp_protector::{ProtectRefused, protect_text, protect_timed, protect_with};
use dp_wire::{ChainView, Reply};
use key_ring::Ring;
use node_calls::NodeError;
use std::alloc::Global;

// The answer where no payload was made.
fn unmade(alloc: Global, ring: &Ring, why: ProtectRefused) -> Result<Response, Memory>
    ensures { IsUnmade why ring.now result }
{
    let front = ring.list().len();
    match why {
        ProtectRefused::TooLong { len } => by_ring(alloc, ring, &Reply::TooLong { front, len }),
        ProtectRefused::NoDefaultKey => by_ring(alloc, ring, &Reply::NoDefaultKey { front }),
        ProtectRefused::DrawFault => refused(alloc, NodeError::DrawFault),
        ProtectRefused::Memory => Err(Memory),
    }
}

/// The payload of bytes.
pub(crate) fn protected<D: Draw>(
    alloc: Global,
    setting: Setting<'_>,
    ring: &Ring,
    draw: &mut D,
    chain: &ChainView<'_>,
    plain: &[u8],
) -> Result<Response, Memory>
    ensures { (now need : ℕ) → Responds setting.entry.app.now now
        (Protect need (chain_of chain.now.bytes.now) plain.now) ring.now result
        (D.draws draw.old) (D.draws draw.new) }
{
    let chain = chain.to_chain(alloc, setting.app.as_str())?;
    match protect_with(alloc, ring, setting.headers, &chain, draw, plain) {
        Ok(payload) => {
            let front = ring.list().len();
            let payload = payload.as_slice();
            by_ring(alloc, ring, &Reply::Protected { front, payload })
        }
        Err(why) => unmade(alloc, ring, why),
    }
}

/// The payload of a text, as a text.
pub(crate) fn protected_text<D: Draw>(
    alloc: Global,
    setting: Setting<'_>,
    ring: &Ring,
    draw: &mut D,
    chain: &ChainView<'_>,
    text: &str,
) -> Result<Response, Memory>
    ensures { (now need : ℕ) → Responds setting.entry.app.now now
        (ProtectText need (chain_of chain.now.bytes.now) text.now) ring.now result
        (D.draws draw.old) (D.draws draw.new) }
{
    let chain = chain.to_chain(alloc, setting.app.as_str())?;
    match protect_text(alloc, ring, setting.headers, &chain, draw, text) {
        Ok(text) => {
            let front = ring.list().len();
            let text = text.as_str();
            by_ring(alloc, ring, &Reply::ProtectedText { front, text })
        }
        Err(why) => unmade(alloc, ring, why),
    }
}

/// The payload of bytes that are used up to their expiry, in ticks.
pub(crate) fn protected_timed<D: Draw>(
    alloc: Global,
    setting: Setting<'_>,
    ring: &Ring,
    draw: &mut D,
    chain: &ChainView<'_>,
    expiry: u64,
    plain: &[u8],
) -> Result<Response, Memory>
    requires { expiry ≤ MAX_TICKS }
    ensures { (now need : ℕ) → Responds setting.entry.app.now now
        (ProtectTimed need (chain_of chain.now.bytes.now) expiry plain.now) ring.now result
        (D.draws draw.old) (D.draws draw.new) }
{
    let chain = chain.to_chain(alloc, setting.app.as_str())?;
    match protect_timed(alloc, ring, setting.headers, &chain, draw, expiry, plain) {
        Ok(payload) => {
            let front = ring.list().len();
            let payload = payload.as_slice();
            by_ring(alloc, ring, &Reply::ProtectedTimed { front, payload })
        }
        Err(why) => unmade(alloc, ring, why),
    }
}
