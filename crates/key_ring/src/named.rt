//! The keys that the policy names by their places.

ghost use Rattle.std.specs.Prelude.{◌≡◌};
ghost use Rattle.std.specs.Option.{option_copied, option_or};
ghost use Rattle.key_ring.specs.Keys.{records};
ghost use Rattle.key_ring.specs.Ring.{chosen};

use crate::keys::RingKey;
use default_key::Policy;
use key_elements::KeyRecord;

// The key at a place, if there is a place.
pub(crate) fn chosen(keys: &[RingKey], place: Option<usize>) -> Option<&KeyRecord>
    ensures { option_copied result ≡ chosen (records keys.now) place }
{
    let found = keys.get(place?)?;
    Some(&found.key)
}

// The preferred key, or else the key to fall back on.
pub(crate) fn default_of(keys: &[RingKey], policy: Policy) -> Option<&KeyRecord>
    ensures { option_copied result
        ≡ option_or (chosen (records keys.now) policy.preferred)
        (chosen (records keys.now) policy.fallback) }
{
    match chosen(keys, policy.preferred) {
        Some(key) => Some(key),
        None => chosen(keys, policy.fallback),
    }
}
