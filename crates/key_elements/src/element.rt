//! What a repository keeps.

use crate::reason::{MAX_REASON, Reason};
use dp_base::KeyId;
use std::alloc::AllocError;

/// A key with its dates in ticks.
#[derive(Clone, Copy, Debug, PartialEq, Eq)]
pub struct KeyRecord {
    pub id: KeyId,
    pub creation: u64,
    pub activation: u64,
    pub expiration: u64,
    /// The algorithm code; one that isn't 1 to 9 makes the key unusable.
    pub alg: u8,
    pub material: [u8; 64],
}

/// An element of a repository. Dates are in ticks, and at most `MAX_TICKS`.
#[derive(Debug, PartialEq, Eq, Drop)]
pub enum Element {
    /// A key, or a later record of one.
    Key(KeyRecord),
    /// The key with the id is revoked, whenever it was or is made.
    RevokeKey {
        id: KeyId,
        date: u64,
        reason: Reason,
    },
    /// Every key that was made before the date is revoked.
    RevokeBefore {
        date: u64,
        reason: Reason,
    },
}

impl Clone for Element {
    ghost use Rattle.std.specs.Prelude.{◌≡◌};

    ghost is_clone = { λ element copy. copy ≡ element };

    fn clone(&self) -> Result<Element, AllocError> {
        match self {
            Element::Key(key) => Ok(Element::Key(*key)),
            Element::RevokeKey { id, date, reason } => Ok(Element::RevokeKey {
                id: *id,
                date: *date,
                reason: reason.clone()?,
            }),
            Element::RevokeBefore { date, reason } => Ok(Element::RevokeBefore {
                date: *date,
                reason: reason.clone()?,
            }),
        }
    }
}

// The bytes of the fields of a record (docs/FORMATS.md, "Element records").
const KIND: usize = 1;

const ID: usize = 16;

const DATE: usize = 8;
// The length of a reason, where it is the greatest.
const REASON_LEN: usize = 2;

/// The most bytes of a record: that of a key's revocation with a reason of the most bytes.
pub const MAX_RECORD: usize = KIND + ID + DATE + REASON_LEN + MAX_REASON;

const _: () = prove!(MAX_RECORD == 1_051);
