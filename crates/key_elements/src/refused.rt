//! Why bytes are no element, or no list of them.

use dp_base::Memory;
use std::alloc::{AllocError, AllocFailed};
use thiserror::Error;

/// What is wrong with the first field that is wrong.
#[derive(Clone, Copy, Debug, PartialEq, Eq, Error)]
pub enum ElementRefused {
    /// The input ends before the field does.
    #[error("the input ends in an element")]
    Cut,
    /// The first byte names no kind of element.
    #[error("an element is of no known kind")]
    UnknownKind,
    /// A date is above the greatest.
    #[error("a date is above the greatest")]
    BadDate,
    /// A reason's length is overlong or above `MAX_REASON`, or its bytes are no UTF-8.
    #[error("a reason is too long or no text")]
    BadReason,
    /// No memory was found for the reason.
    #[error("no memory")]
    Memory,
}

impl From<AllocError> for ElementRefused {
    ghost use Rattle.std.specs.Prelude.{◌≡◌};
    ghost use Rattle.key_elements.specs.declared.refused.ElementRefused.TheVariants.{Memory};

    ghost from_gives = { λ _ refused. refused ≡ Memory };

    fn from(_: AllocError) -> ElementRefused {
        ElementRefused::Memory
    }
}

/// Where a list of elements ends, and why.
#[derive(Clone, Copy, Debug, PartialEq, Eq, Error)]
pub enum ListRefused {
    /// The element that begins at this byte, from 0, is refused.
    #[error("at byte {place}: {why}")]
    At { place: u64, why: ElementRefused },
    /// As many elements as a list may have were read, and bytes are left from this one on, from 0.
    #[error("at byte {place}: a list has too many elements")]
    TooMany { place: u64 },
    /// No memory was found for the list.
    #[error("no memory")]
    Memory,
}

impl From<AllocError> for ListRefused {
    ghost use Rattle.std.specs.Prelude.{◌≡◌};
    ghost use Rattle.key_elements.specs.declared.refused.ListRefused.TheVariants.{Memory};

    ghost from_gives = { λ _ refused. refused ≡ Memory };

    fn from(_: AllocError) -> ListRefused {
        ListRefused::Memory
    }
}

impl<T: Drop> From<AllocFailed<T>> for ListRefused {
    ghost use Rattle.std.specs.Prelude.{◌≡◌};
    ghost use Rattle.key_elements.specs.declared.refused.ListRefused.TheVariants.{Memory};

    ghost from_gives = { λ _ refused. refused ≡ Memory };

    fn from(_: AllocFailed<T>) -> ListRefused {
        ListRefused::Memory
    }
}

impl From<Memory> for ListRefused {
    ghost use Rattle.std.specs.Prelude.{◌≡◌};
    ghost use Rattle.key_elements.specs.declared.refused.ListRefused.TheVariants as refused;

    ghost from_gives = { λ _ answer. answer ≡ refused.Memory };

    fn from(_: Memory) -> ListRefused {
        ListRefused::Memory
    }
}
