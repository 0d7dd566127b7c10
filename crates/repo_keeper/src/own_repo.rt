//! A repository of one caller over a keeper.

ghost use Rattle.std.specs.Prelude.{◌≡◌, [], IfOk, IfErr};
ghost use Rattle.key_elements.specs.Record.{IsElement};
ghost use Rattle.repo_keeper.specs.Own.{own_store, kept_in, AppendsOnce};
ghost use Rattle.repo_keeper.specs.Store.{Moved, read_tally, append_tally, IsTail, EndsWith, IsCause, IsReadCause};

use crate::keeper::{Keeper, KeeperError, PutError};
use crate::repo::{Repo, RepoError};
use key_elements::{Element, MAX_ELEMENTS};
use std::alloc::Global;

/// A repository over a keeper that nobody else uses. Its faults and its answers `Short` are the
/// keeper's.
#[derive(Debug, Drop)]
pub struct OwnRepo<K> {
    keeper: K,
    calls: u64,
    fulls: u64,
    // The places of its appends, in order.
    mine: Vec<u64>,
}

impl<K: Keeper> OwnRepo<K> {
    /// A repository of what the keeper keeps. No call of it was made yet.
    pub fn new(alloc: Global, keeper: K) -> OwnRepo<K>
        ensures { ⟦<OwnRepo<K> as Repo<()>>⟧.store result ≡ own_store (K.kept keeper) 0 0 [] }
    {
        OwnRepo {
            keeper,
            calls: 0,
            fulls: 0,
            mine: Vec::new(alloc),
        }
    }

    /// The keeper, as the calls left it.
    pub fn into_keeper(self) -> K
        ensures { K.kept result ≡ kept_in (⟦<OwnRepo<K> as Repo<()>>⟧.store self) }
    {
        let OwnRepo {
            keeper,
            calls: _,
            fulls: _,
            mine: _,
        } = self;
        keeper
    }
}

impl<W, K: Keeper> Repo<W> for OwnRepo<K> {
    ghost store = { λ r. own_store (K.kept r.keeper) r.calls r.fulls r.mine.items };

    // One load.
    fn read(&mut self, _w: &mut W, alloc: Global, known: u64) -> Result<Vec<Element>, RepoError>
        ensures moved { let store = ⟦<OwnRepo<K> as Repo<W>>⟧.store in
            Moved (read_tally result) (store self.old) (store self.new) }
        ensures tail { let store = ⟦<OwnRepo<K> as Repo<W>>⟧.store in
            IfOk result (λ tail. IsTail known tail.items (store self.new).list) }
        ensures cause { let store = ⟦<OwnRepo<K> as Repo<W>>⟧.store in
            IfErr result (λ why. IsReadCause known (store self.new).list why) }
        ensures list { let store = ⟦<OwnRepo<K> as Repo<W>>⟧.store in
            (store self.new).list ≡ (store self.old).list }
    {
        self.calls = self.calls.saturating_add(1);
        match self.keeper.load(alloc, known) {
            Ok(tail) => Ok(tail),
            Err(KeeperError::Failed) => Err(RepoError::Failed),
            Err(KeeperError::Short { have }) => Err(RepoError::Short { have }),
            Err(KeeperError::Memory) => Err(RepoError::Memory),
        }
    }

    // One load, and one put where there is room. Memory is taken before the put.
    fn append(
        &mut self,
        _w: &mut W,
        alloc: Global,
        known: u64,
        e: &Element,
    ) -> Result<Vec<Element>, RepoError>
        requires { IsElement e.now }
        ensures moved { let store = ⟦<OwnRepo<K> as Repo<W>>⟧.store in
            Moved (append_tally known result) (store self.old) (store self.new) }
        ensures tail { let store = ⟦<OwnRepo<K> as Repo<W>>⟧.store in
            IfOk result (λ tail. IsTail known tail.items (store self.new).list) }
        ensures last { IfOk result (λ tail. EndsWith e.now tail.items) }
        ensures cause { let store = ⟦<OwnRepo<K> as Repo<W>>⟧.store in
            IfErr result (λ why. IsCause known (store self.new).list why) }
        ensures once { let store = ⟦<OwnRepo<K> as Repo<W>>⟧.store in
            AppendsOnce e.now result (store self.old).list (store self.new).list }
    {
        self.calls = self.calls.saturating_add(1);
        let mut tail = match self.keeper.load(alloc, known) {
            Ok(tail) => tail,
            Err(KeeperError::Failed) => return Err(RepoError::Failed),
            Err(KeeperError::Short { have }) => return Err(RepoError::Short { have }),
            Err(KeeperError::Memory) => return Err(RepoError::Memory),
        };
        let place = known + tail.len() as u64;
        if place >= MAX_ELEMENTS {
            self.fulls = self.fulls.saturating_add(1);
            return Err(RepoError::Full {
                count: MAX_ELEMENTS,
            });
        }
        tail.push(e.clone()?)?;
        self.mine.try_reserve(1)?;
        match self.keeper.put(alloc, e) {
            Ok(()) => {}
            Err(PutError::Failed) => return Err(RepoError::Failed),
            Err(PutError::Memory) => return Err(RepoError::Memory),
        }
        let _ = self.mine.push(place);
        Ok(tail)
    }
}
