//! Lists of elements, which grow and are shared.

ghost use Rattle.std.specs.Prelude.{◌≡◌, ◌≤◌, ◌<◌, ◌+◌, ◌++◌, ◌↔◌, [], length, map, slice_get, Err, IfOk, IsTrue, MatchOption};
ghost use Rattle.std.specs.List.{AllByRecursion};
ghost use Rattle.std.specs.Option.{option_copied};
ghost use Rattle.std.specs.Arc.{arc_value};
ghost use Rattle.key_elements.specs.Record.{IsElement, AreListed};
ghost use Rattle.key_elements.specs.Lists.{elements_of, Agree, IsFirstDifference};
ghost use Rattle.key_elements.specs.declared.list.TooMany.TheVariants as refused;

use crate::element::Element;
use dp_base::{Grows, Memory};
use std::alloc::{AllocError, AllocFailed, Global};
use std::marker::Model;
use std::sync::Arc;
use thiserror::Error;

/// The most elements of a list, and so of a repository.
pub const MAX_ELEMENTS: u64 = 16_384;

const _: () = prove!(MAX_ELEMENTS == 16_384);

/// Why a list isn't extended.
#[derive(Clone, Copy, Debug, PartialEq, Eq, Error)]
pub enum TooMany {
    /// It would have more than `MAX_ELEMENTS` elements.
    #[error("a list has too many elements")]
    TooMany,
    /// No memory was found for it.
    #[error("no memory")]
    Memory,
}

impl From<AllocError> for TooMany {
    ghost use Rattle.std.specs.Prelude.{◌≡◌};
    ghost use Rattle.key_elements.specs.declared.list.TooMany.TheVariants.{Memory};

    ghost from_gives = { λ _ refused. refused ≡ Memory };

    fn from(_: AllocError) -> TooMany {
        TooMany::Memory
    }
}

impl<T: Drop> From<AllocFailed<T>> for TooMany {
    ghost use Rattle.std.specs.Prelude.{◌≡◌};
    ghost use Rattle.key_elements.specs.declared.list.TooMany.TheVariants.{Memory};

    ghost from_gives = { λ _ refused. refused ≡ Memory };

    fn from(_: AllocFailed<T>) -> TooMany {
        TooMany::Memory
    }
}

/// A list of at most `MAX_ELEMENTS` elements whose dates are at most the greatest. Clauses see it
/// as a list. Lists share their elements, and none is copied.
#[derive(Debug, Drop)]
pub struct ElementList {
    // None where there is no element, so that the empty list takes no memory.
    shared: Option<Arc<Vec<Arc<Element>>>>,
}

impl Model for ElementList {
    ghost use Rattle.std.specs.Prelude.{List};
    ghost use Rattle.key_elements.specs.declared.element.Element.{Element};
    ghost use Rattle.key_elements.specs.Record.{AreListed};
    ghost use Rattle.key_elements.specs.Lists.{elements_of};

    ghost Value = { List Element };

    ghost view = { λ list. elements_of list.shared };

    ghost invariant = { λ list. AreListed (elements_of list.shared) };
}

// Whether two elements are one.
fn is_same(left: &Element, right: &Element) -> bool
    ensures { IsTrue result ↔ (left.now ≡ right.now) }
{
    left == right
}

impl ElementList {
    /// The list of no elements.
    pub fn empty() -> ElementList
        ensures { result ≡ [] }
    {
        ElementList { shared: None }
    }

    // The list of these elements.
    pub(crate) fn of(alloc: Global, items: Vec<Arc<Element>>) -> Result<ElementList, Memory>
        requires { AreListed (map arc_value items.items) }
        ensures { IfOk result (λ list. list ≡ map arc_value items.items) }
    {
        Ok(ElementList {
            shared: Some(Arc::new(alloc, items)?),
        })
    }

    fn items(&self) -> &[Arc<Element>]
        ensures value { map arc_value result.now ≡ self.now }
        ensures listed { AreListed self.now }
    {
        match &self.shared {
            Some(items) => items.as_slice(),
            None => &[],
        }
    }

    /// How many elements the list has.
    pub fn len(&self) -> u64
        ensures value { result ≡ length self.now }
        ensures bound { result ≤ MAX_ELEMENTS }
        ensures listed { AreListed self.now }
    {
        self.items().len() as u64
    }

    /// Whether the list has no element.
    pub fn is_empty(&self) -> bool
        ensures { IsTrue result ↔ (self.now ≡ []) }
    {
        self.items().is_empty()
    }

    /// The element at a place, from 0.
    pub fn get(&self, i: u64) -> Option<&Element>
        ensures { option_copied result ≡ slice_get self.now i }
    {
        let element = self.items().get(i as usize)?;
        Some(&**element)
    }

    /// The list with a tail of further elements. The elements of the list are shared.
    pub fn extended(&self, alloc: Global, tail: Vec<Element>) -> Result<ElementList, TooMany>
        requires { AllByRecursion IsElement tail.items }
        ensures value { IfOk result (λ list. list ≡ self.now ++ tail.items) }
        ensures too_many { (result ≡ Err refused.TooMany)
            ↔ (MAX_ELEMENTS < length self.now + length tail.items) }
    {
        if tail.len() as u64 > MAX_ELEMENTS - self.len() {
            return Err(TooMany::TooMany);
        }
        let mut items = Vec::from_clones(alloc, self.items())?;
        for element in tail {
            items.push(Arc::new(alloc, element)?)?;
        }
        match ElementList::of(alloc, items) {
            Ok(list) => Ok(list),
            Err(Memory) => Err(TooMany::Memory),
        }
    }

    /// The least place below both lengths at which the lists differ, from 0.
    pub fn first_difference(&self, other: &ElementList) -> Option<u64>
        ensures { MatchOption result (Agree self.now other.now)
            (IsFirstDifference self.now other.now) }
    {
        let left = self.items();
        let right = other.items();
        for place in 0..left.len().min(right.len()) {
            if !is_same(&left[place], &right[place]) {
                return Some(place as u64);
            }
        }
        None
    }
}

impl Grows for ElementList {
    ghost use Rattle.key_elements.specs.Lists.{Extends};
    ghost use Rattle.key_elements.specs.Growth.{Extends-reflexive, Extends-transitive};

    ghost extends = { Extends };

    fn share(&self) -> Result<ElementList, Memory> {
        match &self.shared {
            Some(items) => Ok(ElementList {
                shared: Some(Arc::try_clone(items)?),
            }),
            None => Ok(ElementList { shared: None }),
        }
    }

    ghost reflexive = { Extends-reflexive };

    ghost transitive = { Extends-transitive };
}
