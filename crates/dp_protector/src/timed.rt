//! Payloads that expire (docs/FORMATS.md, "Timed plaintexts").

ghost use Rattle.std.specs.Prelude.{◌≡◌, ◌↔◌, ◌⊎◌, ◌<◌, ◌≤◌, ◌^◌, ℕ, [], length, None, Err, IfOk, IsOk};
ghost use Rattle.dp_base.specs.declared.ticks.TheConstants.{MAX_TICKS};
ghost use Rattle.dp_base.specs.Draws.{Draws};
ghost use Rattle.key_ring.specs.Ring.{default_key};
ghost use Rattle.dp_protector.specs.Protect.{Drew, IsEarly, Sealed, draw_len};
ghost use Rattle.dp_protector.specs.Timed.{HasRoom, TimedAnswers, opened_timed, protects_timed, timed_chain};
ghost use Rattle.dp_protector.specs.declared.refused.ProtectRefused.TheVariants as refused;

use crate::opened::OpenedTimed;
use crate::refused::{ProtectRefused, TimedOpenRefused};
use crate::seal::sealed;
use crate::unprotect::unprotect_with;
use dp_base::{Draw, Memory};
use dp_encryptor::HeaderTable;
use key_ring::Ring;
use purpose_chain::Chain;
use std::alloc::Global;
use timed_payload::{split_expiry, with_expiry};

/// The most bytes that are protected with an expiry.
pub const MAX_TIMED: usize = 999_992;

const _: () = prove!(MAX_TIMED == 999_992);

// The purpose of payloads that expire.
const TIMED_PURPOSE: &str = "Microsoft.AspNetCore.DataProtection.TimeLimitedDataProtector.v1";

// The chain for which payloads that expire are sealed.
#[tactic(auto, unfolding(crate::specs::Timed::timed_chain))]
fn timed_chain(alloc: Global, chain: &Chain) -> Result<Chain, Memory>
    requires { HasRoom chain.now }
    ensures { IfOk result (λ child. child ≡ timed_chain chain.now) }
{
    match chain.child(alloc, TIMED_PURPOSE) {
        Ok(child) => Ok(child),
        Err(_) => Err(Memory),
    }
}

/// The payload of a plaintext that is used up to its expiry, in ticks, under the ring's default key, for
/// a chain of purposes. Calls of the draw give the 16 bytes of its modifier and then its vector.
pub fn protect_timed<D: Draw>(
    alloc: Global,
    ring: &Ring,
    headers: &HeaderTable,
    chain: &Chain,
    draw: &mut D,
    expiry: u64,
    plain: &[u8],
) -> Result<Vec<u8>, ProtectRefused>
    requires expiry { expiry ≤ MAX_TICKS }
    requires room { HasRoom chain.now }
    ensures made { IfOk result (λ v. Sealed (draw_len ring.now)
        (λ drawn. protects_timed ring.now chain.now drawn expiry plain.now)
        (D.draws draw.old) (D.draws draw.new) v.items) }

    // What is too long is told first, and both before anything is drawn. Memory for the expiry may be
    // wanted before the key is looked for.
    ensures too_long { (len : ℕ) → (result ≡ Err (refused.TooLong len))
        ↔ ((MAX_TIMED < length plain.now) × (len ≡ length plain.now)) }
    ensures no_default_key { result ≡ Err refused.NoDefaultKey
        → (length plain.now ≤ MAX_TIMED)
        × (default_key ring.now.list ring.now.made_at ≡ None) }
    ensures keyless { default_key ring.now.list ring.now.made_at ≡ None
        → length plain.now ≤ MAX_TIMED
        → (result ≡ Err refused.NoDefaultKey) ⊎ (result ≡ Err refused.Memory) }
    ensures untouched { IsEarly result → draw.new ≡ draw.old }

    // A draw that failed gave nothing; where no memory was found it wasn't asked, or gave its bytes.
    ensures draw_fault { result ≡ Err refused.DrawFault
        → Draws 1 [] (D.draws draw.old) (D.draws draw.new) }
    ensures memory { result ≡ Err refused.Memory → (draw.new ≡ draw.old)
        ⊎ Drew (draw_len ring.now) (D.draws draw.old) (D.draws draw.new) }
{
    if plain.len() > MAX_TIMED {
        return Err(ProtectRefused::TooLong {
            len: plain.len() as u64,
        });
    }
    let child = timed_chain(alloc, chain)?;
    let timed = with_expiry(alloc, expiry, plain)?;
    sealed(alloc, ring, headers, &child, draw, &timed)
}

/// What a payload that expires opens to by the ring at a moment, in ticks, for a chain of purposes. A
/// revoked key opens where `allow_revoked` is set.
pub fn unprotect_timed(
    alloc: Global,
    ring: &Ring,
    headers: &HeaderTable,
    chain: &Chain,
    payload: &[u8],
    allow_revoked: bool,
    now: u64,
) -> Result<OpenedTimed, TimedOpenRefused>
    requires short { length payload.now < 2 ^ 32 }
    requires room { HasRoom chain.now }
    ensures { TimedAnswers result (opened_timed ring.now chain.now payload.now allow_revoked now) }
{
    let child = timed_chain(alloc, chain)?;
    let opened = unprotect_with(alloc, ring, headers, &child, payload, allow_revoked)?;
    let (expiry, plain) = split_expiry(&opened.plain, now)?;
    Ok(OpenedTimed {
        plain: Vec::from_slice(alloc, plain)?,
        expiry,
        revoked: opened.revoked,
        default_changed: opened.default_changed,
    })
}
