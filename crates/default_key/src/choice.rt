//! The first maximum of the keys that pass a test.

ghost use Rattle.std.specs.Prelude.{◌≡◌, ◌+◌, ◌&&◌, Bool, true, position, nat_le};
ghost use Rattle.std.specs.Cmp.{IsStrictWeakOrder};
ghost use Rattle.std.specs.Option.{option_map_or};
ghost use Rattle.default_key.specs.declared.key_facts.KeyFacts.{KeyFacts};
ghost use Rattle.default_key.specs.PolicyValues.{is_ahead, is_maximum, is_newer, is_older, is_sound};
ghost use Rattle.default_key.specs.OrderLaws.{IsStrictWeakOrder-is_ahead, IsStrictWeakOrder-is_newer, IsStrictWeakOrder-is_older};

use crate::KeyFacts;

/// Which keys a choice is among, and which of two goes before the other.
pub trait Choice {
    ghost passes: { Self → KeyFacts → Bool };

    ghost before: { KeyFacts → KeyFacts → Bool };

    fn passes(&self, key: &KeyFacts) -> bool
        ensures { result ≡ passes self.now key.now };

    fn is_before(&self, key: &KeyFacts, other: &KeyFacts) -> bool
        ensures { result ≡ before key.now other.now };

    // Of two keys at most one goes before the other, and keys of which neither does stand alike to
    // every third.
    ghost ordered: { IsStrictWeakOrder before };
}

/// Among the keys whose activation is at most `until`: the latest activation, and then the
/// smallest id.
#[derive(Drop)]
pub struct Latest {
    pub until: u64,
}

impl Choice for Latest {
    ghost passes = { λ latest key. nat_le key.activation latest.until };

    ghost before = { is_ahead };

    fn passes(&self, key: &KeyFacts) -> bool {
        key.activation <= self.until
    }

    fn is_before(&self, key: &KeyFacts, other: &KeyFacts) -> bool {
        key.activation > other.activation
            || key.activation == other.activation && key.id.0 < other.id.0
    }

    ghost ordered = { IsStrictWeakOrder-is_ahead };
}

/// Among the sound keys that were made `propagation` before `now` or earlier: the greatest
/// creation.
#[derive(Drop)]
pub struct Newest {
    pub now: u64,
    pub propagation: u64,
}

impl Choice for Newest {
    ghost passes = { λ newest key. is_sound key
        && nat_le (key.creation + newest.propagation) newest.now };

    ghost before = { is_newer };

    fn passes(&self, key: &KeyFacts) -> bool {
        key.is_sound()
            && self.propagation <= self.now
            && key.creation <= self.now - self.propagation
    }

    fn is_before(&self, key: &KeyFacts, other: &KeyFacts) -> bool {
        key.creation > other.creation
    }

    ghost ordered = { IsStrictWeakOrder-is_newer };
}

/// Among the sound keys: the least creation.
#[derive(Drop)]
pub struct Oldest;

impl Choice for Oldest {
    ghost passes = { λ _. is_sound };

    ghost before = { is_older };

    fn passes(&self, key: &KeyFacts) -> bool {
        key.is_sound()
    }

    fn is_before(&self, key: &KeyFacts, other: &KeyFacts) -> bool {
        key.creation < other.creation
    }

    ghost ordered = { IsStrictWeakOrder-is_older };
}

/// The place of the first key that passes and that no key that passes goes before.
pub fn first_of<C: Choice>(choice: &C, keys: &[KeyFacts]) -> Option<usize>
    ensures { result ≡ position (is_maximum (C.passes choice.now) C.before keys.now) keys.now }
{
    let mut found = None;
    for (place, key) in keys.iter().enumerate() {
        if is_better(choice, key, found) {
            found = Some((place, *key));
        }
    }
    match found {
        Some((place, _)) => Some(place),
        None => None,
    }
}

// Whether the key passes, and goes before the key that was found, if there is one.
fn is_better<C: Choice>(choice: &C, key: &KeyFacts, found: Option<(usize, KeyFacts)>) -> bool
    ensures { result
        ≡ (C.passes choice.now key.now
        && option_map_or (λ held. C.before key.now held.1) found true) }
{
    choice.passes(key)
        && match found {
            Some((_, held)) => choice.is_before(key, &held),
            None => true,
        }
}
