//! A keeper: the place where a repository keeps its elements.

ghost use Rattle.std.specs.Prelude.{IfOk};
ghost use Rattle.key_elements.specs.Record.{IsElement};
ghost use Rattle.repo_keeper.specs.Kept.{Kept, Loaded, Puts};
ghost use Rattle.repo_keeper.specs.Store.{IsTail};

use dp_base::Memory;
use key_elements::Element;
use std::alloc::{AllocError, AllocFailed, Global};
use thiserror::Error;

/// Why nothing was loaded.
#[derive(Clone, Copy, Debug, PartialEq, Eq, Error)]
pub enum KeeperError {
    /// The call failed, and a fault was counted.
    #[error("loading failed")]
    Failed,
    /// Fewer elements are kept than were asked to be passed over.
    #[error("only {have} elements are kept")]
    Short { have: u64 },
    /// No memory was found for what is kept.
    #[error("no memory")]
    Memory,
}

/// Why an element wasn't put.
#[derive(Clone, Copy, Debug, PartialEq, Eq, Error)]
pub enum PutError {
    /// The call failed, and a fault was counted. The element may stand at the end all the same.
    #[error("putting failed")]
    Failed,
    /// No memory was found, and nothing was put.
    #[error("no memory")]
    Memory,
}

impl From<AllocError> for KeeperError {
    ghost use Rattle.std.specs.Prelude.{◌≡◌};
    ghost use Rattle.repo_keeper.specs.declared.keeper.KeeperError.TheVariants.{Memory};

    ghost from_gives = { λ _ refused. refused ≡ Memory };

    fn from(_: AllocError) -> KeeperError {
        KeeperError::Memory
    }
}

impl<T: Drop> From<AllocFailed<T>> for KeeperError {
    ghost use Rattle.std.specs.Prelude.{◌≡◌};
    ghost use Rattle.repo_keeper.specs.declared.keeper.KeeperError.TheVariants.{Memory};

    ghost from_gives = { λ _ refused. refused ≡ Memory };

    fn from(_: AllocFailed<T>) -> KeeperError {
        KeeperError::Memory
    }
}

impl From<AllocError> for PutError {
    ghost use Rattle.std.specs.Prelude.{◌≡◌};
    ghost use Rattle.repo_keeper.specs.declared.keeper.PutError.TheVariants.{Memory};

    ghost from_gives = { λ _ refused. refused ≡ Memory };

    fn from(_: AllocError) -> PutError {
        PutError::Memory
    }
}

impl<T: Drop> From<AllocFailed<T>> for PutError {
    ghost use Rattle.std.specs.Prelude.{◌≡◌};
    ghost use Rattle.repo_keeper.specs.declared.keeper.PutError.TheVariants.{Memory};

    ghost from_gives = { λ _ refused. refused ≡ Memory };

    fn from(_: AllocFailed<T>) -> PutError {
        PutError::Memory
    }
}

/// A list of at most `MAX_ELEMENTS` elements that is kept and grows. Its faults are counted, and so
/// are its answers `Short`.
pub trait Keeper {
    // The list, where it is told, and the counts.
    ghost kept: { Self → Kept };

    /// The elements from place `from` on; the list stays. `Short` comes exactly where fewer are kept
    /// and the call doesn't fail.
    fn load(&mut self, alloc: Global, from: u64) -> Result<Vec<Element>, KeeperError>
        ensures counts { Loaded from result (kept self.old) (kept self.new) }
        ensures tail { IfOk result (λ tail. IsTail from tail.items (kept self.new).list) };

    /// Adds the element at the end. A keeper that is full fails.
    fn put(&mut self, alloc: Global, e: &Element) -> Result<(), PutError>
        requires { IsElement e.now }
        ensures { Puts e.now result (kept self.old) (kept self.new) };
}
