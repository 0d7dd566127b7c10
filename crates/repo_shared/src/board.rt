//! The table under a shared repository. Word 0 is the lock, which is 1 while a seat has it, and
//! word 1 is the count: the length of the history. The one slot has the shelf while nobody has the
//! lock.

use crate::shelf::Shelf;
use atomic_table::{Seat, Table, TableRule};
use key_elements::Element;
use std::alloc::Global;
use std::collections::LinkedList;

/// An element of the history, and who appended it: the number of a link, or 0. No value of it is
/// made.
pub struct Entry {
    pub element: Element,
    pub author: u64,
}

/// What a seat knows. No value of it is made.
pub struct Knowledge {
    /// A front of the history.
    pub list: LinkedList<Entry>,
    /// Fronts of that list, of which other seats told.
    pub told: LinkedList<LinkedList<Entry>>,
    /// The number of its link, from 1, or 0.
    pub number: u64,
    /// The number of the next link that it makes.
    pub next: u64,
    /// The places of the link's appends, in order.
    pub mine: LinkedList<u64>,
    /// Whether it has the lock.
    pub locks: bool,
    /// How often it loaded the count, and the number that it found last.
    pub loads: u64,
    pub found: u64,
}

pub struct OneHistory;

impl<K> TableRule<Option<Shelf<K>>, Knowledge, ()> for OneHistory {
    ghost use Rattle.repo_shared.specs.Rule.{Kept, opener};

    ghost holds = { λ _. Kept };

    ghost first = { λ _. opener };
}

pub type Board<K> = Table<Option<Shelf<K>>, Knowledge, (), OneHistory, Global>;

pub type BoardSeat<K> = Seat<Option<Shelf<K>>, Knowledge>;
