//! An expiry in front of a plaintext (docs/FORMATS.md, "Timed plaintexts").

ghost use Rattle.std.specs.Prelude.{◌≡◌, ◌↔◌, ◌<◌, ◌≤◌, ◌++◌, ℕ, List, length, take, drop, IfOk, Ok, Err};
ghost use Rattle.std.specs.Int.{w64, to_be_bytes, from_be_bytes};
ghost use Rattle.dp_base.specs.declared.ticks.TheConstants.{MAX_TICKS};
ghost use Rattle.dp_base.specs.Readers.{seen};
ghost use Rattle.timed_payload.specs.Timed.{HasExpiry, expiry_of, split, timed};

use dp_base::{MAX_TICKS, Memory, be64, take_be64};
use std::alloc::Global;
use thiserror::Error;

// The bytes of an expiry.
const EXPIRY_LEN: usize = 8;

/// Why a timed plaintext isn't used.
#[derive(Clone, Copy, Debug, PartialEq, Eq, Error)]
pub enum TimedRefused {
    /// There are fewer than 8 bytes, or the expiry is above `MAX_TICKS`.
    #[error("no expiry stands in front")]
    Invalid,
    /// It was to be used until `at`, in ticks, and that is past.
    #[error("expired at {at}")]
    Expired { at: u64 },
}

/// The plaintext with its expiry, in ticks, in front of it.
pub fn with_expiry(alloc: Global, ticks: u64, plain: &[u8]) -> Result<Vec<u8>, Memory>
    requires { ticks ≤ MAX_TICKS }
    ensures { IfOk result (λ v. v.items ≡ timed ticks plain.now) }
{
    let mut out = Vec::new(alloc);
    out.extend_from_slice(&be64(ticks))?;
    out.extend_from_slice(plain)?;
    Ok(out)
}

/// The expiry and the plaintext behind it, up to the expiry itself. `now` is in ticks.
#[tactic(auto, unfolding(crate::specs::Timed::split))]
pub fn split_expiry(bytes: &[u8], now: u64) -> Result<(u64, &[u8]), TimedRefused>
    ensures value { seen (λ x. (x.0, x.1.now)) result ≡ split bytes.now now }

    // What is in front is no expiry, or it is one that is past.
    ensures invalid { (result ≡ Err TimedRefused.Invalid) ↔ ¬ HasExpiry bytes.now }
    ensures expired { (at : ℕ) → (result ≡ Err (TimedRefused.Expired at))
        ↔ (HasExpiry bytes.now × (at ≡ expiry_of bytes.now) × (at < now)) }
{
    match take_be64(bytes) {
        Some(at) if at <= MAX_TICKS => {
            if now > at {
                return Err(TimedRefused::Expired { at });
            }
            Ok((at, &bytes[EXPIRY_LEN..]))
        }
        _ => Err(TimedRefused::Invalid),
    }
}

/// What was put in front is told again until it is past, with the plaintext behind it.
pub fn expiry_comes_back()
    ensures { (ticks now : ℕ) (plain : List ℕ) → ticks ≤ MAX_TICKS → now ≤ ticks
        → split (timed ticks plain) now ≡ Ok (ticks, plain) }
{}
