//! A repository: a list of elements that grows, and counts of what its calls answered.

ghost use Rattle.std.specs.Prelude.{◌≡◌, IfOk, IfErr};
ghost use Rattle.key_elements.specs.Record.{IsElement};
ghost use Rattle.repo_keeper.specs.Store.{Store, Moved, read_tally, append_tally, IsTail, EndsWith, IsCause, IsReadCause};

use dp_base::Memory;
use key_elements::Element;
use std::alloc::{AllocError, AllocFailed, Global};
use thiserror::Error;

/// Why a call of a repository gave nothing. Want of memory comes before anything is put.
#[derive(Clone, Copy, Debug, PartialEq, Eq, Error)]
pub enum RepoError {
    /// The call failed, and the count of faults rose. After an append the element stands in the
    /// repository or doesn't.
    #[error("the repository failed")]
    Failed,
    /// Fewer elements stand than were known.
    #[error("the repository has only {have} elements")]
    Short { have: u64 },
    /// As many elements stand as may.
    #[error("the repository is full with {count} elements")]
    Full { count: u64 },
    #[error("no memory")]
    Memory,
}

impl From<Memory> for RepoError {
    ghost use Rattle.std.specs.Prelude.{◌≡◌};
    ghost use Rattle.repo_keeper.specs.declared.repo.RepoError.TheVariants.{Memory};

    ghost from_gives = { λ _ refused. refused ≡ Memory };

    fn from(_: Memory) -> RepoError {
        RepoError::Memory
    }
}

impl From<AllocError> for RepoError {
    ghost use Rattle.std.specs.Prelude.{◌≡◌};
    ghost use Rattle.repo_keeper.specs.declared.repo.RepoError.TheVariants.{Memory};

    ghost from_gives = { λ _ refused. refused ≡ Memory };

    fn from(_: AllocError) -> RepoError {
        RepoError::Memory
    }
}

impl<T: Drop> From<AllocFailed<T>> for RepoError {
    ghost use Rattle.std.specs.Prelude.{◌≡◌};
    ghost use Rattle.repo_keeper.specs.declared.repo.RepoError.TheVariants.{Memory};

    ghost from_gives = { λ _ refused. refused ≡ Memory };

    fn from(_: AllocFailed<T>) -> RepoError {
        RepoError::Memory
    }
}

/// A list of elements that grows, for callers with the right `W` to wait. Each call is counted; one
/// that fails adds a fault, and every other leaves the count of faults.
pub trait Repo<W> {
    // The list as far as it was seen, where it is told, and the counts.
    ghost store: { Self → Store };

    /// The elements from place `known` on. `Short` comes where fewer stand.
    fn read(&mut self, w: &mut W, alloc: Global, known: u64) -> Result<Vec<Element>, RepoError>
        ensures moved { Moved (read_tally result) (store self.old) (store self.new) }
        ensures tail { IfOk result (λ tail. IsTail known tail.items (store self.new).list) }
        ensures cause { IfErr result (λ why. IsReadCause known (store self.new).list why) };

    /// Adds the element, and gives the elements from place `known` on, the new one last. `Short`
    /// comes where fewer stand, and else `Full` where no more may.
    fn append(
        &mut self,
        w: &mut W,
        alloc: Global,
        known: u64,
        e: &Element,
    ) -> Result<Vec<Element>, RepoError>
        requires { IsElement e.now }
        ensures moved { Moved (append_tally known result) (store self.old) (store self.new) }
        ensures tail { IfOk result (λ tail. IsTail known tail.items (store self.new).list) }
        ensures last { IfOk result (λ tail. EndsWith e.now tail.items) }
        ensures cause { IfErr result (λ why. IsCause known (store self.new).list why) };
}
