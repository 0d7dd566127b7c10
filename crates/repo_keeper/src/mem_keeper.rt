//! A keeper in memory.

ghost use Rattle.std.specs.Prelude.{◌≡◌, ◌⊎◌, ◌↔◌, ◌<◌, ◌≤◌, ◌+◌, ◌++◌, ◌∷◌, [], IsTrue, Err, Some, IfOk, length, take, drop};
ghost use Rattle.std.specs.List.{AllByRecursion};
ghost use Rattle.key_elements.specs.Record.{IsElement, AreListed};
ghost use Rattle.repo_keeper.specs.Kept.{Loaded, Puts};
ghost use Rattle.repo_keeper.specs.MemKept.{kept_of};
ghost use Rattle.repo_keeper.specs.Store.{IsTail};
ghost use Rattle.key_elements.specs.declared.list.TheConstants.{MAX_ELEMENTS};
ghost use Rattle.dp_base.specs.Streams.{fails};
ghost use Rattle.repo_keeper.specs.declared.keeper.KeeperError.TheVariants as loads;
ghost use Rattle.repo_keeper.specs.declared.keeper.PutError.TheVariants as puts;

use crate::keeper::{Keeper, KeeperError, PutError};
use key_elements::{Element, ElementList, MAX_ELEMENTS, TooMany};
use std::alloc::{AllocError, Global};
use std::marker::Model;

/// A keeper of a list in memory, which it tells. It counts its loads and puts together.
#[derive(Debug, Drop)]
pub struct MemKeeper {
    list: ElementList,
    // How many elements of the list's front are kept.
    len: u64,
    fail: Vec<u64>,
    calls: u64,
    faults: u64,
    shorts: u64,
}

impl Model for MemKeeper {
    ghost use Rattle.std.specs.Prelude.{◌≤◌, length, take};
    ghost use Rattle.repo_keeper.specs.MemKept.{MemKept};

    ghost Value = { MemKept };

    ghost view = { λ k. record {
      list = take k.len k.list;
      fail = k.fail.items;
      calls = k.calls;
      faults = k.faults;
      shorts = k.shorts;
    } };

    ghost invariant = { λ k. k.len ≤ length k.list };
}

// The elements of the list from one place on, up to another.
fn part_of(
    alloc: Global,
    list: &ElementList,
    from: u64,
    to: u64,
) -> Result<Vec<Element>, AllocError>
    requires within { from ≤ to }
    requires end { to ≤ length list.now }
    ensures value { IfOk result (λ part. part.items ≡ drop from (take to list.now)) }
    ensures elements { AreListed list.now }
{
    let mut part = Vec::new(alloc);
    let end = list.len().min(to);
    for place in from..end {
        if let Some(element) = list.get(place) {
            part.push(element.clone()?)?;
        }
    }
    Ok(part)
}

// The list with a tail for which it has room.
fn extended(
    alloc: Global,
    list: &ElementList,
    tail: Vec<Element>,
) -> Result<ElementList, AllocError>
    requires elements { AllByRecursion IsElement tail.items }
    requires room { length list.now + length tail.items ≤ MAX_ELEMENTS }
    ensures { IfOk result (λ longer. longer ≡ list.now ++ tail.items) }
{
    match list.extended(alloc, tail) {
        Ok(longer) => Ok(longer),
        Err(TooMany::TooMany | TooMany::Memory) => Err(AllocError),
    }
}

impl MemKeeper {
    /// A keeper of the list. The loads and puts whose numbers, from 0, are in `fail` fail; a put
    /// that fails adds nothing.
    pub fn new(list: ElementList, fail: Vec<u64>) -> MemKeeper
        ensures { result ≡ record {
          list = list;
          fail = fail.items;
          calls = 0;
          faults = 0;
          shorts = 0;
        } }
    {
        let len = list.len();
        MemKeeper {
            list,
            len,
            fail,
            calls: 0,
            faults: 0,
            shorts: 0,
        }
    }

    // How many elements are kept.
    fn have(&self) -> u64
        ensures value { result ≡ length self.now.list }
        ensures bound { result ≤ MAX_ELEMENTS }
    {
        self.list.len().min(self.len)
    }

    // Whether the next call is to fail.
    fn is_to_fail(&self) -> bool
        ensures { IsTrue result ↔ IsTrue (fails self.now.fail self.now.calls) }
    {
        self.fail.contains(&self.calls)
    }

    // The list that is kept, and the element. The list shares its elements unless it was cut.
    fn with_one(&self, alloc: Global, e: &Element) -> Result<ElementList, AllocError>
        requires element { IsElement e.now }
        requires room { length self.now.list < MAX_ELEMENTS }
        ensures { IfOk result (λ list. list ≡ self.now.list ++ e.now ∷ []) }
    {
        if self.len == self.list.len() {
            let mut tail = Vec::new(alloc);
            tail.push(e.clone()?)?;
            return extended(alloc, &self.list, tail);
        }
        let mut part = part_of(alloc, &self.list, 0, self.len)?;
        part.push(e.clone()?)?;
        extended(alloc, &ElementList::empty(), part)
    }

    /// Keeps the first `n` elements alone, where there are more.
    pub fn cut_to(&mut self, n: u64)
        ensures { self.new ≡ record self.old { list = take n self.old.list } }
    {
        self.len = self.len.min(n);
    }
}

impl Keeper for MemKeeper {
    ghost use Rattle.repo_keeper.specs.MemKept.{kept_of};

    ghost kept = { kept_of };

    fn load(&mut self, alloc: Global, from: u64) -> Result<Vec<Element>, KeeperError>
        ensures counts { Loaded from result (kept_of self.old) (kept_of self.new) }
        ensures tail { IfOk result (λ tail. IsTail from tail.items (Some self.old.list)) }
        ensures told { (result ≡ Err loads.Failed) ↔ IsTrue (fails self.old.fail self.old.calls) }
        ensures list { self.new.list ≡ self.old.list }
    {
        let call = self.calls;
        if self.is_to_fail() {
            self.calls = call.saturating_add(1);
            self.faults = self.faults.saturating_add(1);
            return Err(KeeperError::Failed);
        }
        let have = self.have();
        if have < from {
            self.calls = call.saturating_add(1);
            self.shorts = self.shorts.saturating_add(1);
            return Err(KeeperError::Short { have });
        }
        let tail = part_of(alloc, &self.list, from, self.len)?;
        self.calls = call.saturating_add(1);
        Ok(tail)
    }

    fn put(&mut self, alloc: Global, e: &Element) -> Result<(), PutError>
        requires { IsElement e.now }
        ensures puts { Puts e.now result (kept_of self.old) (kept_of self.new) }
        ensures told { (result ≡ Err puts.Failed) ↔ (IsTrue (fails self.old.fail self.old.calls)
            ⊎ (length self.old.list ≡ MAX_ELEMENTS)) }
        ensures failed { result ≡ Err puts.Failed → self.new.list ≡ self.old.list }
    {
        let call = self.calls;
        if self.is_to_fail() {
            self.calls = call.saturating_add(1);
            self.faults = self.faults.saturating_add(1);
            return Err(PutError::Failed);
        }
        if self.have() >= MAX_ELEMENTS {
            self.calls = call.saturating_add(1);
            self.faults = self.faults.saturating_add(1);
            return Err(PutError::Failed);
        }
        let list = self.with_one(alloc, e)?;
        self.calls = call.saturating_add(1);
        self.len = list.len();
        self.list = list;
        Ok(())
    }
}
