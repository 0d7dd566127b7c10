//! A turn, and the answer where it is taken.
ghost use Rattle.std.specs.Prelude.{◌≡◌};

use crate::rule::{About, OneHolder, Stand};
use atomic_table::Table;
use dp_base::Kin;
use std::alloc::Global;
use thiserror::Error;

/// The turn is taken.
#[derive(Clone, Copy, Debug, PartialEq, Eq, Error)]
#[error("seat {holder} holds the turn")]
pub struct Busy {
    /// The number of the seat that held it as this call looked.
    pub holder: u64,
}

/// The turn of a node, with its flight while nobody holds it. Threads may share it.
#[derive(Drop)]
pub struct Turn<F: Kin + Drop> {
    pub(crate) table: Table<Option<F>, Stand<F>, About<F>, OneHolder, Global>,
    ghost sized: { (table.shared.table_id.words ≡ 2) × (table.shared.table_id.slots ≡ 1) },
}
