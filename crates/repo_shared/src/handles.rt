//! The ends of a shared repository.
ghost use Rattle.std.specs.Prelude.{◌≡◌, false, []};
ghost use Rattle.std.specs.Arc.{arc_value};
ghost use Rattle.repo_shared.specs.Rule.{StartsWith, elements};
ghost use Rattle.repo_shared.specs.Seats.{AreMine};

use crate::board::{Board, BoardSeat};
use key_elements::ElementList;
use std::sync::Arc;

/// What one node knows of a shared repository: a front of its history. It may move to another
/// thread.
#[derive(Drop)]
pub struct Link<K: Drop> {
    pub(crate) board: Arc<Board<K>>,
    pub(crate) seat: BoardSeat<K>,
    // The history as far as it was seen.
    pub(crate) seen: ElementList,
    pub(crate) calls: u64,
    pub(crate) faults: u64,
    pub(crate) shorts: u64,
    pub(crate) fulls: u64,
    ghost seated: { seat.table_id ≡ (arc_value board).shared.table_id },
    ghost sized: { (seat.table_id.words ≡ 2) × (seat.table_id.slots ≡ 1) },
    ghost free: { (seat.me.0.locks ≡ false) × (seat.me.1 ≡ []) },
    ghost front: { StartsWith (elements seat.me.0.list) seen },
    ghost mine: { AreMine seat.me.0.number seat.me.0.list seen seat.me.0.mine },
}

/// A repository that links share. It may move to another thread.
#[derive(Drop)]
pub struct SharedRepo<K: Drop> {
    pub(crate) board: Arc<Board<K>>,
    pub(crate) seat: BoardSeat<K>,
    // How many links were made.
    pub(crate) made: u32,
    ghost seated: { seat.table_id ≡ (arc_value board).shared.table_id },
    ghost sized: { (seat.table_id.words ≡ 2) × (seat.table_id.slots ≡ 1) },
    ghost free: { (seat.me.0.locks ≡ false) × (seat.me.1 ≡ []) },
}
