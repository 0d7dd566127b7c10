//! Why a key or a date was revoked.

ghost use Rattle.std.specs.Prelude.{◌≡◌, ◌<◌, ◌↔◌, length, IfOk, Err};
ghost use Rattle.key_elements.specs.Reason.{IsReason};
ghost use Rattle.key_elements.specs.declared.reason.TooLong.TheVariants as refused;

use dp_base::Memory;
use std::alloc::{AllocError, Global};
use std::marker::Model;
use thiserror::Error;

/// The most bytes of a reason.
pub const MAX_REASON: usize = 1_024;

const _: () = prove!(MAX_REASON == 1_024);

/// Why a text is no reason.
#[derive(Clone, Copy, Debug, PartialEq, Eq, Error)]
pub enum TooLong {
    /// It has more than `MAX_REASON` bytes.
    #[error("a reason is too long")]
    TooLong,
    /// No memory was found for it.
    #[error("no memory")]
    Memory,
}

impl From<AllocError> for TooLong {
    ghost use Rattle.std.specs.Prelude.{◌≡◌};
    ghost use Rattle.key_elements.specs.declared.reason.TooLong.TheVariants.{Memory};

    ghost from_gives = { λ _ refused. refused ≡ Memory };

    fn from(_: AllocError) -> TooLong {
        TooLong::Memory
    }
}

/// A reason as records hold it: a text of at most `MAX_REASON` bytes. Clauses see its bytes.
#[derive(Debug, Drop)]
pub struct Reason {
    text: String,
}

impl Model for Reason {
    ghost use Rattle.std.specs.Prelude.{List, ℕ, string_bytes};
    ghost use Rattle.key_elements.specs.Reason.{IsReason};

    ghost Value = { List ℕ };

    ghost view = { λ r. string_bytes r.text };

    ghost invariant = { λ r. IsReason (string_bytes r.text) };
}

impl Reason {
    /// A copy of the text.
    pub fn new(alloc: Global, text: &str) -> Result<Reason, TooLong>
        ensures value { IfOk result (λ reason. reason ≡ text.now) }
        ensures too_long { (result ≡ Err refused.TooLong) ↔ (MAX_REASON < length text.now) }
    {
        if text.len() > MAX_REASON {
            return Err(TooLong::TooLong);
        }
        Ok(Reason {
            text: String::from_str(alloc, text)?,
        })
    }

    /// The text.
    pub fn as_str(&self) -> &str
        ensures value { result.now ≡ self.now }
        ensures reason { IsReason self.now }
    {
        self.text.as_str()
    }
}

impl Clone for Reason {
    ghost use Rattle.std.specs.Prelude.{◌≡◌};

    ghost is_clone = { λ reason copy. copy ≡ reason };

    fn clone(&self) -> Result<Reason, AllocError> {
        Ok(Reason {
            text: self.text.clone()?,
        })
    }
}

impl PartialEq for Reason {
    ghost use Rattle.std.specs.Prelude.{bytes_eq};
    ghost use Rattle.std.specs.Cmp.{partial_equiv_from_equiv};
    ghost use Rattle.std.proofs.lemmas.Cmp.{nat_list_eq_equiv};

    ghost eq = { bytes_eq };

    ghost laws = { partial_equiv_from_equiv nat_list_eq_equiv };

    fn eq(&self, other: &Self) -> bool {
        self.text.as_str() == other.text.as_str()
    }
}

impl Eq for Reason {
    ghost use Rattle.std.proofs.lemmas.Cmp.{nat_list_eq_equiv};

    ghost laws = { nat_list_eq_equiv };
}
