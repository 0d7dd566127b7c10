//! What makes a cell.
ghost use Rattle.std.specs.Prelude.{◌≡◌, ◌+◌, ◌*◌, ◌<◌, ◌≤◌, ◌∷◌, [], All, length, IfOk};
ghost use Rattle.swap_cell.specs.Cells.{Follows, HaveSlots, StaysSet, setter_cell, viewer_slot, last_set, set_before};

use crate::apart::Apart;
use crate::board::{Item, SLOTS, STRIDE};
use crate::handles::{Setter, Viewer};
use crate::plays::Tell;
use crate::setting::share_to;
use atomic_table::Table;
use dp_base::Memory;
use std::alloc::Global;
use std::snapshot::Snapshot;
use std::sync::Arc;

/// A cell with its first value: the end that sets, and 1 to 64 that look.
pub fn cell<T: Apart + Drop>(
    alloc: Global,
    first: T,
    viewers: u32,
) -> Result<(Setter<T>, Vec<Viewer<T>>), Memory>
    requires { (1 ≤ viewers) × (viewers ≤ 64) }
    ensures last { IfOk result (λ r. last_set r.0 ≡ first) }
    ensures set { IfOk result (λ r. set_before r.0 ≡ first ∷ []) }
    ensures count { IfOk result (λ r. length r.1.items ≡ viewers) }
    ensures viewers { IfOk result (λ r. All (Follows r.0) r.1.items) }
    ensures slots { IfOk result (λ r. HaveSlots r.1.items) }
{
    let count = viewers as usize;
    let mut setter = setter(
        alloc,
        Item {
            value: first,
            number: 0,
        },
        count,
    )?;
    let mut ends = Vec::with_capacity(alloc, count)?;
    for index in 0..count {
        let end = viewer(&mut setter, SLOTS * index)?;
        ends.push(end)?;
    }
    Ok((setter, ends))
}

fn setter<T: Apart + Drop>(
    alloc: Global,
    first: Item<T>,
    viewers: usize,
) -> Result<Setter<T>, Memory>
    requires { (1 ≤ viewers) × (viewers ≤ 64) × (first.number ≡ 0) }
    ensures last { IfOk result (λ s. last_set s ≡ first.value) }
    ensures set { IfOk result (λ s. set_before s ≡ first.value ∷ []) }
    ensures slots { IfOk result (λ s. s.place.table_id.slots ≡ 2 * viewers) }
{
    let count = SLOTS * viewers;
    let mut slots = Vec::with_capacity(alloc, count)?;
    share_to(alloc, &mut slots, &first, viewers)?;
    let words = Vec::from_elem(alloc, 0u64, STRIDE * count)?;
    let room = Vec::with_capacity(alloc, count)?;
    let about = Snapshot::of(&first.value);
    let Ok((table, place)) = Table::new(alloc, words.as_slice(), slots, &about) else {
        return Err(Memory);
    };
    Ok(Setter {
        alloc,
        board: Arc::new(alloc, table)?,
        place,
        last: first,
        room,
    })
}

fn viewer<T: Apart + Drop>(setter: &mut Setter<T>, index: usize) -> Result<Viewer<T>, Memory>
    requires { index + 1 < setter.old.place.table_id.slots }
    ensures cell { setter_cell setter.new ≡ setter_cell setter.old }
    ensures same { StaysSet setter.old setter.new }
    ensures viewer { IfOk result (Follows setter.old) }
    ensures slot { IfOk result (λ v. viewer_slot v ≡ index) }
{
    let board = Arc::try_clone(&setter.board)?;
    let value = setter.last.value.apart(setter.alloc)?;
    let number = setter.last.number;
    let place = setter.board.shared.split_seat::<Tell>(&mut setter.place);
    Ok(Viewer {
        board,
        place,
        index,
        mine: Item { value, number },
        most: number,
    })
}
