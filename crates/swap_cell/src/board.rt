//! The table under a cell. A viewer has two slots, of which each holds a share of a value that was
//! set. Word 16 r is 1 while the setter or the viewer has the slot r, so that the words of two
//! viewers lie 128 bytes apart. The word behind that of a viewer's first slot is its flag: 1 while a
//! look that found the first slot taken tries both again.

use atomic_table::{Seat, Table, TableRule};
use dp_base::Grows;
use std::alloc::Global;
use std::collections::LinkedList;
use std::snapshot::Snapshot;

/// The words from one slot's to the next one's.
pub const STRIDE: usize = 16;

/// The slots of a viewer.
pub const SLOTS: usize = 2;

/// A value with its place among those that were set, from 0.
#[derive(Drop)]
pub struct Item<T> {
    pub value: T,
    pub number: u64,
}

/// What a seat knows. No value of it is made.
pub struct Knowledge<T> {
    /// What it looked at, learnt or set, the last first.
    pub known: LinkedList<Item<T>>,
    /// No number of these is above it.
    pub most: u64,
    /// The item that it has beside the table.
    pub mine: Option<Item<T>>,
    /// The item that it found in a slot.
    pub found: Option<Item<T>>,
    /// One more than the number of the slot that it has, or 0.
    pub slot: u64,
    /// Whether it is the setter.
    pub sets: bool,
    /// Of the setter: all that were set.
    pub chain: LinkedList<T>,
}

pub struct Growing;

impl<T: Grows> TableRule<Item<T>, Knowledge<T>, Snapshot<T>> for Growing {
    ghost use Rattle.swap_cell.specs.Rule.{Kept, setter};

    ghost holds = { λ _. Kept T.extends };

    ghost first = { λ first. setter first.value };
}

pub type Board<T> = Table<Item<T>, Knowledge<T>, Snapshot<T>, Growing, Global>;

pub type Place<T> = Seat<Item<T>, Knowledge<T>>;
