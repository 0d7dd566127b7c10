//! A keeper and the history that was loaded from it.
ghost use Rattle.std.specs.Prelude.{◌≡◌, ◌⊎◌, ◌+◌, ◌<◌, ◌≤◌, ◌++◌, ◌∷◌, [], Some, Err, length, drop, IfOk, IfErr};
ghost use Rattle.key_elements.specs.Record.{IsElement, AreListed};
ghost use Rattle.key_elements.specs.Lists.{Extends};
ghost use Rattle.repo_keeper.specs.Store.{IsTail, EndsWith, IsCause, IsReadCause};
ghost use Rattle.repo_keeper.specs.declared.repo.RepoError.TheVariants.{Failed};
ghost use Rattle.repo_shared.specs.Shelves.{HasRisen, Keeps, IsCaughtUp, HasSeen, HasLonger};

use dp_base::{Grows, Memory};
use key_elements::{Element, ElementList, MAX_ELEMENTS, TooMany};
use repo_keeper::{Keeper, KeeperError, PutError, RepoError};
use std::alloc::{AllocError, Global};

/// A keeper and the history that was loaded from it.
#[derive(Debug, Drop)]
pub struct Shelf<K> {
    pub(crate) keeper: K,
    pub(crate) list: ElementList,
}

// The elements of the list from a place on.
fn tail_of(alloc: Global, list: &ElementList, from: u64) -> Result<Vec<Element>, AllocError>
    requires { from ≤ length list.now }
    ensures { IfOk result (λ tail. IsTail from tail.items (Some list.now)) }
{
    let mut tail = Vec::new(alloc);
    let end = list.len();
    for place in from..end {
        if let Some(element) = list.get(place) {
            tail.push(element.clone()?)?;
        }
    }
    Ok(tail)
}

// The list with a tail for which it has room. Without a tail it is shared, in a time that doesn't grow
// with it.
fn extended(
    alloc: Global,
    list: &ElementList,
    tail: Vec<Element>,
) -> Result<ElementList, AllocError>
    requires { IsTail (length list.now) tail.items None }
    ensures { IfOk result (λ longer. longer ≡ list.now ++ tail.items) }
{
    if tail.is_empty() {
        return match list.share() {
            Ok(same) => Ok(same),
            Err(Memory) => Err(AllocError),
        };
    }
    match list.extended(alloc, tail) {
        Ok(longer) => Ok(longer),
        Err(TooMany::TooMany | TooMany::Memory) => Err(AllocError),
    }
}

// The list with one element more.
fn with_one(alloc: Global, list: &ElementList, e: &Element) -> Result<ElementList, AllocError>
    requires element { IsElement e.now }
    requires room { length list.now < MAX_ELEMENTS }
    ensures { IfOk result (λ longer. longer ≡ list.now ++ e.now ∷ []) }
{
    let mut tail = Vec::new(alloc);
    tail.push(e.clone()?)?;
    extended(alloc, list, tail)
}

impl<K: Keeper> Shelf<K> {
    /// A shelf of which nothing is loaded yet.
    pub fn new(keeper: K) -> Shelf<K>
        ensures { (result.keeper ≡ keeper) × (result.list ≡ []) }
    {
        Shelf {
            keeper,
            list: ElementList::empty(),
        }
    }

    // Loads what is new.
    #[tactic(auto, using(crate::proofs::Tails::caught_up, crate::proofs::Tails::same_follows))]
    fn catch_up(&mut self, alloc: Global) -> Result<(), RepoError>
        ensures caught { IsCaughtUp K.kept result self.old self.new }
        ensures keeps { Keeps K.kept result self.old self.new }
    {
        let from = self.list.len();
        let tail = match self.keeper.load(alloc, from) {
            Ok(tail) => tail,
            Err(KeeperError::Failed | KeeperError::Short { .. }) => return Err(RepoError::Failed),
            Err(KeeperError::Memory) => return Err(RepoError::Memory),
        };
        self.list = extended(alloc, &self.list, tail)?;
        Ok(())
    }

    // Loads what is new and gives the tail. What is then on the shelf is seen, but where the call
    // failed or found no memory.
    #[tactic(auto, using(crate::proofs::Tails::whole_follows))]
    pub(crate) fn read_into(
        &mut self,
        alloc: Global,
        known: u64,
        seen: &mut ElementList,
    ) -> Result<Vec<Element>, RepoError>
        ensures grows { Extends self.new.list self.old.list }
        ensures seen { HasSeen result seen.old seen.new self.new.list }
        ensures tail { IfOk result (λ tail. IsTail known tail.items (Some self.new.list)) }
        ensures cause { IfErr result (λ why. IsReadCause known (Some self.new.list) why) }
        ensures failed { result ≡ Err Failed → HasRisen (K.kept self.old.keeper) (K.kept self.new.keeper) }
        ensures keeps { Keeps K.kept result self.old self.new }
    {
        self.catch_up(alloc)?;
        let have = self.list.len();
        let now = self.list.share()?;
        if have < known {
            *seen = now;
            return Err(RepoError::Short { have });
        }
        let tail = tail_of(alloc, &self.list, known)?;
        *seen = now;
        Ok(tail)
    }

    // The same, and where there is room the element is put, behind all that needs memory.
    #[tactic(auto, using(crate::proofs::Tails::whole_follows, crate::proofs::Tails::put_whole, crate::proofs::Tails::put_failed_follows, crate::proofs::Tails::same_follows))]
    pub(crate) fn append_into(
        &mut self,
        alloc: Global,
        known: u64,
        e: &Element,
        seen: &mut ElementList,
    ) -> Result<Vec<Element>, RepoError>
        requires { IsElement e.now }
        ensures grows { Extends self.new.list self.old.list }
        ensures seen { HasSeen result seen.old seen.new self.new.list }
        ensures tail { IfOk result (λ tail. IsTail known tail.items (Some self.new.list)) }
        ensures last { IfOk result (λ tail. EndsWith e.now tail.items) }
        ensures longer { HasLonger result self.old.list self.new.list }
        ensures cause { IfErr result (λ why. IsCause known (Some self.new.list) why) }
        ensures failed { result ≡ Err Failed → HasRisen (K.kept self.old.keeper) (K.kept self.new.keeper) }
        ensures keeps { Keeps K.kept result self.old self.new }
    {
        self.catch_up(alloc)?;
        let have = self.list.len();
        let now = self.list.share()?;
        if have < known {
            *seen = now;
            return Err(RepoError::Short { have });
        }
        if have >= MAX_ELEMENTS {
            *seen = now;
            return Err(RepoError::Full {
                count: MAX_ELEMENTS,
            });
        }
        let longer = with_one(alloc, &self.list, e)?;
        let again = longer.share()?;
        let tail = tail_of(alloc, &longer, known)?;
        match self.keeper.put(alloc, e) {
            Ok(()) => {}
            Err(PutError::Failed) => return Err(RepoError::Failed),
            Err(PutError::Memory) => return Err(RepoError::Memory),
        }
        self.list = longer;
        *seen = again;
        Ok(tail)
    }

    /// Loads what is new, and gives the elements from place `known` on.
    pub fn read(&mut self, alloc: Global, known: u64) -> Result<Vec<Element>, RepoError>
        ensures grows { Extends self.new.list self.old.list }
        ensures tail { IfOk result (λ tail. IsTail known tail.items (Some self.new.list)) }
        ensures cause { IfErr result (λ why. IsReadCause known (Some self.new.list) why) }
        ensures failed { result ≡ Err Failed → HasRisen (K.kept self.old.keeper) (K.kept self.new.keeper) }
        ensures keeps { Keeps K.kept result self.old self.new }
    {
        let mut seen = ElementList::empty();
        self.read_into(alloc, known, &mut seen)
    }

    /// Loads what is new, adds the element, and gives the elements from place `known` on, the new
    /// one last.
    pub fn append(
        &mut self,
        alloc: Global,
        known: u64,
        e: &Element,
    ) -> Result<Vec<Element>, RepoError>
        requires { IsElement e.now }
        ensures grows { Extends self.new.list self.old.list }
        ensures tail { IfOk result (λ tail. IsTail known tail.items (Some self.new.list)) }
        ensures last { IfOk result (λ tail. EndsWith e.now tail.items) }
        ensures longer { HasLonger result self.old.list self.new.list }
        ensures cause { IfErr result (λ why. IsCause known (Some self.new.list) why) }
        ensures failed { result ≡ Err Failed → HasRisen (K.kept self.old.keeper) (K.kept self.new.keeper) }
        ensures keeps { Keeps K.kept result self.old self.new }
    {
        let mut seen = ElementList::empty();
        self.append_into(alloc, known, e, &mut seen)
    }
}
