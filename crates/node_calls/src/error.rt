//! Why a call of a pass is refused.

use dp_base::Memory;
use key_elements::ElementList;
use thiserror::Error;

/// Two lists that aren't of one history.
#[derive(Debug, Drop)]
pub struct Fork {
    /// The first place, from 0 and below both lengths, where they differ.
    pub at: u64,
    /// The list that the pass has seen.
    pub left: ElementList,
    /// The list that it was told, or that was looked at.
    pub right: ElementList,
}

/// Why a call of a pass gave no ring and no place.
#[derive(Debug, Drop, Error)]
pub enum NodeError {
    /// The repository failed, and counted it.
    #[error("the repository failed")]
    StoreFault,
    /// The draw failed, and counted it.
    #[error("no random bytes were drawn")]
    DrawFault,
    /// The repository has fewer elements than it had.
    #[error("the repository went back from {had} elements to {got}")]
    WentBack { had: u64, got: u64 },
    /// The ring has fewer elements than were needed.
    #[error("the ring has {have} elements of {need}")]
    Behind { have: u64, need: u64 },
    /// The list that was looked at isn't of one history with the one that the pass has seen.
    #[error("two lists differ at place {}", .0.at)]
    Forked(Fork),
    /// The repository has as many elements as it may.
    #[error("the repository is full with {count} elements")]
    Full { count: u64 },
    /// A key isn't to be activated before it expires, or a date is above the greatest.
    #[error("bad dates")]
    BadDates,
    #[error("no memory")]
    Memory,
}

impl From<Memory> for NodeError {
    ghost use Rattle.std.specs.Prelude.{◌≡◌};
    ghost use Rattle.node_calls.specs.declared.error.NodeError.TheVariants.{Memory};

    ghost from_gives = { λ _ refused. refused ≡ Memory };

    fn from(_: Memory) -> NodeError {
        NodeError::Memory
    }
}

/// Why a pass wasn't told a list.
#[derive(Debug, Drop, Error)]
pub enum ToldRefused {
    #[error("two lists differ at place {}", .0.at)]
    Forked(Fork),
    #[error("no memory")]
    Memory,
}

impl From<Memory> for ToldRefused {
    ghost use Rattle.std.specs.Prelude.{◌≡◌};
    ghost use Rattle.node_calls.specs.declared.error.ToldRefused.TheVariants.{Memory};

    ghost from_gives = { λ _ refused. refused ≡ Memory };

    fn from(_: Memory) -> ToldRefused {
        ToldRefused::Memory
    }
}
