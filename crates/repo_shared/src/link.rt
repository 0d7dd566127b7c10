//! What a link does.
ghost use Rattle.std.specs.Prelude.{◌≡◌, IfOk, IfErr};
ghost use Rattle.key_elements.specs.Record.{IsElement};
ghost use Rattle.repo_keeper.specs.Store.{Moved, read_tally, append_tally, IsTail, EndsWith, IsCause, IsReadCause};
ghost use Rattle.repo_shared.specs.Links.{store_of, HasLoaded, HasNoted, IsAnswer, IsSameLink};

use crate::calling::{append_locked, read_locked};
use crate::handles::Link;
use key_elements::{Element, ElementList};
use repo_keeper::{Keeper, Repo, RepoError};
use std::alloc::Global;
use std::sync::Wait;

impl<K: Drop> Link<K> {
    /// The history as far as this link has seen it.
    pub fn seen(&self) -> &ElementList
        ensures { result.now ≡ self.now.seen }
    {
        &self.seen
    }

    // Counts a call and what it answered. Short names the number that was loaded.
    fn note(
        &mut self,
        answer: Result<Vec<Element>, RepoError>,
        have: u64,
    ) -> Result<Vec<Element>, RepoError>
        ensures noted { HasNoted result self.old self.new }
        ensures answer { IsAnswer answer have result }
    {
        self.calls = self.calls.saturating_add(1);
        match answer {
            Ok(tail) => Ok(tail),
            Err(RepoError::Failed) => {
                self.faults = self.faults.saturating_add(1);
                Err(RepoError::Failed)
            }
            Err(RepoError::Short { .. }) => {
                self.shorts = self.shorts.saturating_add(1);
                Err(RepoError::Short { have })
            }
            Err(RepoError::Full { count }) => {
                self.fulls = self.fulls.saturating_add(1);
                Err(RepoError::Full { count })
            }
            Err(RepoError::Memory) => Err(RepoError::Memory),
        }
    }
}

impl<W: Wait, K: Keeper + Drop> Repo<W> for Link<K> {
    ghost use Rattle.repo_shared.specs.Links.{store_of};

    ghost store = { store_of };

    fn read(&mut self, w: &mut W, alloc: Global, known: u64) -> Result<Vec<Element>, RepoError>
        ensures moved { Moved (read_tally result) (store_of self.old) (store_of self.new) }
        ensures tail { IfOk result (λ tail. IsTail known tail.items (store_of self.new).list) }
        ensures cause { IfErr result (λ why. IsReadCause known (store_of self.new).list why) }
        ensures loaded { HasLoaded result self.old self.new }
        ensures link { IsSameLink self.old self.new }
    {
        let (answer, have) = read_locked(
            &self.board,
            &mut self.seat,
            &mut self.seen,
            w,
            alloc,
            known,
        );
        self.note(answer, have)
    }

    fn append(
        &mut self,
        w: &mut W,
        alloc: Global,
        known: u64,
        e: &Element,
    ) -> Result<Vec<Element>, RepoError>
        requires { IsElement e.now }
        ensures moved { Moved (append_tally known result) (store_of self.old) (store_of self.new) }
        ensures tail { IfOk result (λ tail. IsTail known tail.items (store_of self.new).list) }
        ensures last { IfOk result (λ tail. EndsWith e.now tail.items) }
        ensures cause { IfErr result (λ why. IsCause known (store_of self.new).list why) }
        ensures loaded { HasLoaded result self.old self.new }
        ensures link { IsSameLink self.old self.new }
    {
        let (answer, have) = append_locked(
            &self.board,
            &mut self.seat,
            &mut self.seen,
            w,
            alloc,
            known,
            e,
        );
        self.note(answer, have)
    }
}
