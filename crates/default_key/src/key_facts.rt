//! What a ring knows of a key when it chooses among its keys.

ghost use Rattle.std.specs.Prelude.{◌≡◌};

use dp_base::KeyId;

/// What the choice of a key looks at. Dates are ticks.
#[derive(Clone, Copy, Debug, PartialEq, Eq)]
pub struct KeyFacts {
    pub id: KeyId,
    /// When the key was made.
    pub creation: u64,
    /// From when on the key may protect.
    pub activation: u64,
    /// From when on the key may no longer be preferred.
    pub expiration: u64,
    /// Whether the key's algorithm is known.
    pub usable: bool,
    /// Whether the key was revoked.
    pub revoked: bool,
}

impl KeyFacts {
    ghost use Rattle.default_key.specs.PolicyValues.{is_sound, is_valid};

    /// Whether the key is usable and unrevoked.
    pub(crate) fn is_sound(&self) -> bool
        ensures { result ≡ is_sound self.now }
    {
        self.usable && !self.revoked
    }

    /// Whether the key is sound and hasn't expired at the moment.
    pub(crate) fn is_valid(&self, now: u64) -> bool
        ensures { result ≡ is_valid now self.now }
    {
        self.is_sound() && now < self.expiration
    }
}
