//! The two ends of a cell, and what one tells the other.
ghost use Rattle.std.specs.Prelude.{◌≡◌, ◌+◌, ◌*◌, ◌<◌, ◌≤◌, true, [], ◌∷◌, drop, length, Some};
ghost use Rattle.std.specs.Arc.{arc_value};

use crate::apart::Apart;
use crate::board::{Board, Item, Place};
use dp_base::Kin;
use std::alloc::Global;
use std::sync::Arc;
use thiserror::Error;

/// The one end that sets. It may move to another thread.
#[derive(Drop)]
pub struct Setter<T: Apart + Drop> {
    pub(crate) alloc: Global,
    pub(crate) board: Arc<Board<T>>,
    pub(crate) place: Place<T>,
    pub(crate) last: Item<T>,
    // The shares of a value that is about to be set.
    pub(crate) room: Vec<Item<T>>,
    ghost seated: { place.table_id ≡ (arc_value board).shared.table_id },
    ghost sized: { (place.table_id.words ≡ 16 * place.table_id.slots)
        × (place.table_id.slots ≤ 128) },
    ghost filled: { 0 < place.table_id.slots },
    ghost sets: { place.me.0.sets ≡ true },
    ghost has: { place.me.0.mine ≡ Some last },
    ghost knows: { place.me.0.known ≡ last ∷ drop 1 place.me.0.known },
    ghost most: { place.me.0.most ≡ last.number },
    ghost counts: { length place.me.0.chain ≡ last.number + 1 },
    ghost empty: { room.items ≡ [] },
    ghost free: { (place.me.0.slot ≡ 0) × (place.me.1 ≡ []) },
}

/// An end that looks. It may move to another thread.
#[derive(Drop)]
pub struct Viewer<T: Apart + Drop> {
    pub(crate) board: Arc<Board<T>>,
    pub(crate) place: Place<T>,
    // The number of its first slot. The second is the next one.
    pub(crate) index: usize,
    // The last item that it found or learnt.
    pub(crate) mine: Item<T>,
    // What it learnt has no greater number.
    pub(crate) most: u64,
    ghost seated: { place.table_id ≡ (arc_value board).shared.table_id },
    ghost sized: { (place.table_id.words ≡ 16 * place.table_id.slots)
        × (place.table_id.slots ≤ 128) },
    ghost within: { index + 1 < place.table_id.slots },
    ghost has: { place.me.0.mine ≡ Some mine },
    ghost most_is: { place.me.0.most ≡ most },
    ghost free: { (place.me.0.slot ≡ 0) × (place.me.1 ≡ []) },
}

/// What was set before a telling. A viewer learns it, in this thread or in another.
#[derive(Drop)]
pub struct Told<T> {
    pub(crate) place: Place<T>,
    // The last value, where its count of owners had room.
    pub(crate) last: Option<Item<T>>,
    pub(crate) number: u64,
    ghost has: { (x : _) → last ≡ Some x → place.me.0.mine ≡ Some x },
    ghost told: { place.me.0.most ≡ number },
    ghost apart: { place.me.1 ≡ [] },
}

/// There was no memory to set the value, which comes back. Nothing changed.
#[derive(Debug, Drop, Error)]
#[error("no memory to set a value")]
pub struct SetBack<T> {
    pub value: T,
}

impl<T: Apart + Drop> Kin for Setter<T> {
    ghost use Rattle.atomic_table.specs.Seated.{TableId};

    ghost Mark = { TableId };

    ghost mark = { λ s. s.place.table_id };
}
