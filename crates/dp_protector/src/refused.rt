//! Why nothing is protected, or not opened.

use base64::DecodeAllocError;
use dp_base::{KeyId, Memory};
use dp_encryptor::BodyRefused;
use payload_view::HeadRefused;
use std::alloc::AllocError;
use thiserror::Error;
use timed_payload::TimedRefused;

/// Why nothing is protected, in the order in which it is told.
#[derive(Clone, Copy, Debug, PartialEq, Eq, Error)]
pub enum ProtectRefused {
    /// There are more bytes, `len`, than the call protects.
    #[error("{len} bytes are too long to be protected")]
    TooLong { len: u64 },
    /// The ring has no key to protect with.
    #[error("the ring has no key to protect with")]
    NoDefaultKey,
    /// The draw failed.
    #[error("drawing random bytes failed")]
    DrawFault,
    /// No memory was found.
    #[error("no memory")]
    Memory,
}

impl From<AllocError> for ProtectRefused {
    ghost use Rattle.std.specs.Prelude.{◌≡◌};
    ghost use Rattle.dp_protector.specs.declared.refused.ProtectRefused.TheVariants.{Memory};

    ghost from_gives = { λ _ refused. refused ≡ Memory };

    fn from(_: AllocError) -> ProtectRefused {
        ProtectRefused::Memory
    }
}

impl From<Memory> for ProtectRefused {
    ghost use Rattle.std.specs.Prelude.{◌≡◌};
    ghost use Rattle.dp_protector.specs.declared.refused.ProtectRefused.TheVariants as refused;

    ghost from_gives = { λ _ answer. answer ≡ refused.Memory };

    fn from(_: Memory) -> ProtectRefused {
        ProtectRefused::Memory
    }
}

/// Why a payload isn't opened, in the order in which it is told. Don't tell a peer more of a body than
/// `Tampered`.
#[derive(Clone, Copy, Debug, PartialEq, Eq, Error)]
pub enum UnprotectRefused {
    /// There are fewer than 20 bytes, or the upper 28 bits of the first word are others.
    #[error("no payload: the first bytes are others")]
    BadHeader,
    /// The version of the payload isn't 0.
    #[error("a payload of an unknown version")]
    BadVersion,
    /// The ring holds no key of this id.
    #[error("the ring holds no key {id}")]
    KeyNotFound { id: KeyId },
    /// The key is revoked, and revoked keys aren't allowed.
    #[error("the key {id} is revoked")]
    KeyRevoked { id: KeyId },
    /// No algorithm has the code of the key.
    #[error("the key {id} is of an unknown algorithm")]
    KeyUnusable { id: KeyId },
    /// The body was altered, or was sealed under another key or for other purposes.
    #[error("the body was altered, or was sealed otherwise")]
    Tampered,
    /// No memory was found.
    #[error("no memory")]
    Memory,
}

impl From<Memory> for UnprotectRefused {
    ghost use Rattle.std.specs.Prelude.{◌≡◌};
    ghost use Rattle.dp_protector.specs.declared.refused.UnprotectRefused.TheVariants as refused;

    ghost from_gives = { λ _ answer. answer ≡ refused.Memory };

    fn from(_: Memory) -> UnprotectRefused {
        UnprotectRefused::Memory
    }
}

impl From<HeadRefused> for UnprotectRefused {
    ghost use Rattle.std.specs.Prelude.{◌≡◌};
    ghost use Rattle.dp_protector.specs.Refusals.{of_head};

    ghost from_gives = { λ why answer. answer ≡ of_head why };

    fn from(why: HeadRefused) -> UnprotectRefused {
        match why {
            HeadRefused::BadHeader => UnprotectRefused::BadHeader,
            HeadRefused::BadVersion => UnprotectRefused::BadVersion,
        }
    }
}

impl From<BodyRefused> for UnprotectRefused {
    ghost use Rattle.std.specs.Prelude.{◌≡◌};
    ghost use Rattle.dp_protector.specs.Refusals.{of_body};

    ghost from_gives = { λ why answer. answer ≡ of_body why };

    fn from(why: BodyRefused) -> UnprotectRefused {
        match why {
            BodyRefused::Tampered => UnprotectRefused::Tampered,
            BodyRefused::Memory => UnprotectRefused::Memory,
        }
    }
}

/// Why a text isn't opened, in the order in which it is told.
#[derive(Clone, Copy, Debug, PartialEq, Eq, Error)]
pub enum TextRefused {
    /// The bytes are no base64url without padding, or not the one text of their payload.
    #[error("no text of a payload")]
    BadText,
    /// The payload isn't opened.
    #[error("{0}")]
    Body(UnprotectRefused),
    /// The plaintext isn't UTF-8.
    #[error("the plaintext is no text")]
    NotText,
    /// No memory was found.
    #[error("no memory")]
    Memory,
}

impl From<DecodeAllocError> for TextRefused {
    ghost use Rattle.std.specs.Prelude.{◌≡◌};
    ghost use Rattle.dp_protector.specs.Refusals.{of_decoding};

    ghost from_gives = { λ why answer. answer ≡ of_decoding why };

    fn from(why: DecodeAllocError) -> TextRefused {
        match why {
            DecodeAllocError::DecodeError(_) => TextRefused::BadText,
            DecodeAllocError::OutOfMemory => TextRefused::Memory,
        }
    }
}

impl From<UnprotectRefused> for TextRefused {
    ghost use Rattle.std.specs.Prelude.{◌≡◌};
    ghost use Rattle.dp_protector.specs.Refusals.{refused_in_text};

    ghost from_gives = { λ why answer. answer ≡ refused_in_text why };

    fn from(why: UnprotectRefused) -> TextRefused {
        match why {
            UnprotectRefused::Memory => TextRefused::Memory,
            _ => TextRefused::Body(why),
        }
    }
}

/// Why a payload that expires isn't opened, in the order in which it is told.
#[derive(Clone, Copy, Debug, PartialEq, Eq, Error)]
pub enum TimedOpenRefused {
    /// The payload isn't opened.
    #[error("{0}")]
    Body(UnprotectRefused),
    /// No expiry stands in front of the plaintext.
    #[error("no expiry stands in front")]
    Invalid,
    /// It was to be used until `at`, in ticks, and that is past.
    #[error("expired at {at}")]
    Expired { at: u64 },
    /// No memory was found.
    #[error("no memory")]
    Memory,
}

impl From<AllocError> for TimedOpenRefused {
    ghost use Rattle.std.specs.Prelude.{◌≡◌};
    ghost use Rattle.dp_protector.specs.declared.refused.TimedOpenRefused.TheVariants.{Memory};

    ghost from_gives = { λ _ refused. refused ≡ Memory };

    fn from(_: AllocError) -> TimedOpenRefused {
        TimedOpenRefused::Memory
    }
}

impl From<Memory> for TimedOpenRefused {
    ghost use Rattle.std.specs.Prelude.{◌≡◌};
    ghost use Rattle.dp_protector.specs.declared.refused.TimedOpenRefused.TheVariants as refused;

    ghost from_gives = { λ _ answer. answer ≡ refused.Memory };

    fn from(_: Memory) -> TimedOpenRefused {
        TimedOpenRefused::Memory
    }
}

impl From<UnprotectRefused> for TimedOpenRefused {
    ghost use Rattle.std.specs.Prelude.{◌≡◌};
    ghost use Rattle.dp_protector.specs.Refusals.{refused_in_timed};

    ghost from_gives = { λ why answer. answer ≡ refused_in_timed why };

    fn from(why: UnprotectRefused) -> TimedOpenRefused {
        match why {
            UnprotectRefused::Memory => TimedOpenRefused::Memory,
            _ => TimedOpenRefused::Body(why),
        }
    }
}

impl From<TimedRefused> for TimedOpenRefused {
    ghost use Rattle.std.specs.Prelude.{◌≡◌};
    ghost use Rattle.dp_protector.specs.Refusals.{refused_expiry};

    ghost from_gives = { λ why answer. answer ≡ refused_expiry why };

    fn from(why: TimedRefused) -> TimedOpenRefused {
        match why {
            TimedRefused::Invalid => TimedOpenRefused::Invalid,
            TimedRefused::Expired { at } => TimedOpenRefused::Expired { at },
        }
    }
}
