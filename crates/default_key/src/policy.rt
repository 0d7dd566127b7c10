//! The policy: which key is preferred, whether a new one is due, and which key to fall back on.

ghost use Rattle.std.specs.Prelude.{◌≡◌, ℕ, ◌<◌, ◌≤◌, ◌↔◌, false, All, IfSome, IsSomeAnd, length, slice_get};
ghost use Rattle.dp_base.specs.declared.ticks.TheConstants.{LAST, MAX_TICKS};
ghost use Rattle.std.specs.List.{list_any};
ghost use Rattle.default_key.specs.PolicyValues.{fallback_of, policy_of, preferred_of, renew_of, takes_over};
ghost use Rattle.default_key.specs.Policy.{HaveDistinctIds, IsFallback, IsFollowed, IsPreferred};

use crate::choice::{Latest, Newest, Oldest, first_of};
use crate::{KeyFacts, Options};

/// What a list of keys gives at a moment. Places count from 0.
#[derive(Clone, Copy, Debug, PartialEq, Eq)]
pub struct Policy {
    /// The place of the preferred key.
    pub preferred: Option<usize>,
    /// Whether a new key is due.
    pub renew: bool,
    /// The place of the key to use where none is preferred.
    pub fallback: Option<usize>,
}

/// The policy of the keys at the moment `now`, in ticks, by the rules of ASP.NET Core's key manager
/// before version 9: preference, renewal and fallback. It always has an answer, and takes no memory.
pub fn resolve(keys: &[KeyFacts], now: u64, options: &Options) -> Policy
    requires moment { now ≤ LAST }
    requires dates { All (λ key. key.expiration ≤ MAX_TICKS) keys.now }
    requires ids { HaveDistinctIds keys.now }
    ensures value { result ≡ policy_of keys.now now }

    // The best key or none: where it is dropped, no other takes its place.
    ensures preferred { (place : ℕ)
        → (result.preferred ≡ Some place)
        ↔ IsSomeAnd (slice_get keys.now place) (IsPreferred keys.now now) }
    ensures renew { (result.renew ≡ false) ↔ IsFollowed keys.now now }
    ensures fallback { (place : ℕ)
        → (result.fallback ≡ Some place) ↔ IsFallback keys.now now place }

    // Places are those of keys.
    ensures preferred_within { IfSome result.preferred (λ place. place < length keys.now) }
    ensures fallback_within { IfSome result.fallback (λ place. place < length keys.now) }
{
    let preferred = preferred_place(keys, now, options);
    Policy {
        preferred,
        renew: is_due(keys, now, options, preferred),
        fallback: fallback_place(keys, now, options, preferred),
    }
}

// The place of the best key, where it is sound and hasn't expired.
fn preferred_place(keys: &[KeyFacts], now: u64, options: &Options) -> Option<usize>
    requires moment { now ≤ LAST }
    requires ids { HaveDistinctIds keys.now }
    ensures { result ≡ preferred_of keys.now now }
{
    let active = Latest {
        until: now + options.skew,
    };
    let place = first_of(&active, keys)?;
    if keys[place].is_valid(now) {
        Some(place)
    } else {
        None
    }
}

// Whether no key is preferred, or no key takes over from it.
fn is_due(keys: &[KeyFacts], now: u64, options: &Options, preferred: Option<usize>) -> bool
    requires moment { now ≤ LAST }
    requires dates { All (λ key. key.expiration ≤ MAX_TICKS) keys.now }
    requires ids { HaveDistinctIds keys.now }
    requires place { preferred ≡ preferred_of keys.now now }
    ensures { result ≡ renew_of keys.now now }
{
    match preferred {
        Some(place) => !is_followed(keys, now, options, &keys[place]),
        None => true,
    }
}

// Whether some key takes over from this one before it expires, and lives on.
fn is_followed(keys: &[KeyFacts], now: u64, options: &Options, key: &KeyFacts) -> bool
    requires moment { now ≤ LAST }
    requires date { key.now.expiration ≤ MAX_TICKS }
    ensures { result ≡ list_any (takes_over now key.now) keys.now }
{
    let activated_until = key.expiration + options.skew;
    let expired_until = now + options.propagation;
    keys.iter().any(|next| {
        !next.revoked && next.activation <= activated_until && next.expiration > expired_until
    })
}

// Where no key is preferred, the place of the newest sound key that had the time to reach every
// node, or else of the oldest sound key.
fn fallback_place(
    keys: &[KeyFacts],
    now: u64,
    options: &Options,
    preferred: Option<usize>,
) -> Option<usize>
    requires { preferred ≡ preferred_of keys.now now }
    ensures { result ≡ fallback_of keys.now now }
{
    if preferred.is_some() {
        return None;
    }
    let settled = Newest {
        now,
        propagation: options.propagation,
    };
    match first_of(&settled, keys) {
        Some(place) => Some(place),
        None => first_of(&Oldest, keys),
    }
}
