//! What a viewer does.
ghost use Rattle.std.specs.Prelude.{◌≡◌, ◌+◌, ◌<◌, Some, IfOk, IfErr};
ghost use Rattle.swap_cell.specs.Rule.{InLine};
ghost use Rattle.swap_cell.specs.Steps.{IsAt, IsFree, StaysKnown};
ghost use Rattle.swap_cell.specs.Cells.{HasLooked, HasLearnt, viewer_cell, viewer_slot, told_cell, known};

use crate::apart::Apart;
use crate::board::{Board, Item, Place, STRIDE};
use crate::handles::{Told, Viewer};
use crate::plays::{Flag, Free, Learn, Line, Lock, Look, Renew, Swap};
use dp_base::Memory;
use std::mem;

// Takes over what lies in the slot, where it is newer. It answers whether the slot was free.
fn refresh<T: Apart + Drop>(
    board: &Board<T>,
    place: &mut Place<T>,
    index: usize,
    mine: &mut Item<T>,
) -> bool
    requires table { IsAt board.now.shared.table_id place.old × (index < place.old.table_id.slots) }
    requires free { IsFree place.old }
    requires has { place.old.me.0.mine ≡ Some mine.old }
    ensures table { place.new.table_id ≡ place.old.table_id }
    ensures free { IsFree place.new }
    ensures has { place.new.me.0.mine ≡ Some mine.new }
    ensures same { StaysKnown place.old place.new }
{
    let word = STRIDE * index;
    let shared = &board.shared;
    if shared.compare_exchange::<Lock>(place, word, 0, 1) != 0 {
        return false;
    }
    if place.slot_mut(shared, index).number > mine.number {
        mem::swap(place.slot_mut(shared, index), mine);
        shared.store::<Swap>(place, word, 0);
    } else {
        shared.store::<Free>(place, word, 0);
    }
    true
}

// Takes over what is newest in the first of two slots, or where that is taken, in the second.
fn refresh_either<T: Apart + Drop>(
    board: &Board<T>,
    place: &mut Place<T>,
    index: usize,
    mine: &mut Item<T>,
)
    requires table { IsAt board.now.shared.table_id place.old
        × (index + 1 < place.old.table_id.slots) }
    requires free { IsFree place.old }
    requires has { place.old.me.0.mine ≡ Some mine.old }
    ensures table { place.new.table_id ≡ place.old.table_id }
    ensures free { IsFree place.new }
    ensures has { place.new.me.0.mine ≡ Some mine.new }
    ensures same { StaysKnown place.old place.new }
{
    if !refresh(board, place, index, mine) {
        refresh(board, place, index + 1, mine);
    }
}

// Takes over what is newest in the two slots of a viewer, of which index is the first.
//
// Each set that has returned put its value, or a later one came there since, into both slots, so
// whichever of them is free has a value that is as new, or gave it to this viewer before. And one of
// them is free. Say that the first is taken twice. The second time the flag is up, and the setter is
// in the first slot: it is done with the second, and comes there again with the next value alone,
// for which it waits until the flag is down. So the second is free now.
fn refresh_any<T: Apart + Drop>(
    board: &Board<T>,
    place: &mut Place<T>,
    index: usize,
    mine: &mut Item<T>,
)
    requires table { IsAt board.now.shared.table_id place.old
        × (index + 1 < place.old.table_id.slots) }
    requires free { IsFree place.old }
    requires has { place.old.me.0.mine ≡ Some mine.old }
    ensures table { place.new.table_id ≡ place.old.table_id }
    ensures free { IsFree place.new }
    ensures has { place.new.me.0.mine ≡ Some mine.new }
    ensures same { StaysKnown place.old place.new }
{
    if refresh(board, place, index, mine) {
        return;
    }
    let flag = STRIDE * index + 1;
    board.shared.store::<Flag>(place, flag, 1);
    refresh_either(board, place, index, mine);
    board.shared.store::<Flag>(place, flag, 0);
}

impl<T: Apart + Drop> Viewer<T> {
    /// The value that is newest here: that of the last `set` that returned before this look began,
    /// or a later one. It waits for nobody.
    pub fn look(&mut self) -> Result<T, Memory>
        ensures cell { viewer_cell self.new ≡ viewer_cell self.old }
        ensures slot { viewer_slot self.new ≡ viewer_slot self.old }
        ensures looked { IfOk result (HasLooked T.extends self.old self.new) }
        ensures memory { IfErr result (λ _. known self.new ≡ known self.old) }
    {
        refresh_any(&self.board, &mut self.place, self.index, &mut self.mine);
        if self.mine.number < self.most {
            return Err(Memory);
        }
        let value = self.mine.value.share()?;
        let word = STRIDE * self.index;
        self.board.shared.load::<Look>(&mut self.place, word);
        self.most = self.mine.number;
        Ok(value)
    }

    /// Learns what was told. From now on a look extends it. All that is known is of one chain.
    pub fn learn(&mut self, told: Told<T>)
        requires cell { told_cell told ≡ viewer_cell self.old }
        ensures cell { viewer_cell self.new ≡ viewer_cell self.old }
        ensures slot { viewer_slot self.new ≡ viewer_slot self.old }
        ensures learnt { HasLearnt told self.old self.new }
        ensures in_line { InLine T.extends (known self.new) }
    {
        self.take_in(told);
        let word = STRIDE * self.index;
        self.board.shared.load::<Line>(&mut self.place, word);
    }

    fn take_in(&mut self, told: Told<T>)
        requires cell { told_cell told ≡ viewer_cell self.old }
        ensures cell { viewer_cell self.new ≡ viewer_cell self.old }
        ensures slot { viewer_slot self.new ≡ viewer_slot self.old }
        ensures learnt { HasLearnt told self.old self.new }
    {
        let Told {
            place,
            last,
            number,
        } = told;
        match last {
            Some(item) if item.number > self.mine.number => {
                self.board.shared.join_seat::<Renew>(&mut self.place, place);
                self.mine = item;
            }
            _older => self.board.shared.join_seat::<Learn>(&mut self.place, place),
        }
        self.most = self.most.max(number);
    }
}
