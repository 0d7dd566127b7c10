//! What the setter does.
ghost use Rattle.std.specs.Prelude.{◌≡◌, ◌*◌, ◌<◌, ◌≤◌, [], ◌∷◌, All, Some, drop, length, IfOk, IfErr};
ghost use Rattle.swap_cell.specs.Rule.{Each};
ghost use Rattle.swap_cell.specs.Steps.{IsAt, IsFree, HasTaken, IsHanding, StaysSeated};
ghost use Rattle.swap_cell.specs.Cells.{HasSet, StaysSet, setter_cell, told_cell, last_set, set_before, told_values};

use crate::apart::Apart;
use crate::board::{Board, Item, Place, SLOTS, STRIDE};
use crate::handles::{SetBack, Setter, Told};
use crate::plays::{Append, Flag, Free, Lock, Tell};
use crossbeam_utils::Backoff;
use dp_base::Memory;
use std::alloc::Global;
use std::sync::Wait;

// Two shares of the item for each viewer, whose owners are counted apart from those of the others.
pub(crate) fn share_to<T: Apart + Drop>(
    alloc: Global,
    room: &mut Vec<Item<T>>,
    item: &Item<T>,
    viewers: usize,
) -> Result<(), Memory>
    requires { room.old.items ≡ [] }
    ensures count { IfOk result (λ _. length room.new.items ≡ 2 * viewers) }
    ensures alike { IfOk result (λ _. All (λ x. x ≡ item.now) room.new.items) }
{
    let number = item.number;
    for _ in 0..viewers {
        let value = item.value.apart(alloc)?;
        let again = value.share()?;
        room.push(Item { value, number })?;
        room.push(Item {
            value: again,
            number,
        })?;
    }
    Ok(())
}

// Waits until the slot is at home, and takes it.
pub(crate) fn lock<T: Apart + Drop, W: Wait>(
    board: &Board<T>,
    place: &mut Place<T>,
    w: &W,
    index: usize,
)
    requires table { IsAt board.now.shared.table_id place.old × (index < place.old.table_id.slots) }
    requires free { place.old.me.1 ≡ [] }
    ensures { HasTaken index place.old place.new }
{
    let backoff = Backoff::new();
    for _ in w.forever() {
        if board
            .shared
            .compare_exchange::<Lock>(place, STRIDE * index, 0, 1)
            == 0
        {
            return;
        }
        backoff.snooze();
    }
    unreachable!()
}

// Waits until the flag beside this slot is down.
fn wait_for_flag<T: Apart + Drop, W: Wait>(
    board: &Board<T>,
    place: &mut Place<T>,
    w: &W,
    index: usize,
)
    requires table { IsAt board.now.shared.table_id place.old × (index < place.old.table_id.slots) }
    ensures { StaysSeated place.old place.new }
{
    let backoff = Backoff::new();
    for _ in w.forever() {
        if board.shared.load::<Flag>(place, STRIDE * index + 1) == 0 {
            return;
        }
        backoff.snooze();
    }
    unreachable!()
}

// Puts the item into the slot.
fn hand<T: Apart + Drop, W: Wait>(
    board: &Board<T>,
    place: &mut Place<T>,
    w: &W,
    index: usize,
    item: Item<T>,
)
    requires table { IsAt board.now.shared.table_id place.old × (index < place.old.table_id.slots) }
    requires free { IsFree place.old }
    requires has { place.old.me.0.mine ≡ Some item }
    ensures { IsHanding place.old place.new }
{
    lock(board, place, w, index);
    let _old = board.shared.exchange(place, index, item);
    board.shared.store::<Free>(place, STRIDE * index, 0);
}

// Hands the items to the viewers, two to each. A viewer's second slot comes before its first, and
// only where its flag is down: a look that raised it and finds the first slot taken then has the
// second one for itself, since the next value comes there first.
fn hand_all<T: Apart + Drop, W: Wait>(
    board: &Board<T>,
    place: &mut Place<T>,
    w: &W,
    room: &mut Vec<Item<T>>,
    item: &Item<T>,
)
    requires table { IsAt board.now.shared.table_id place.old
        × (length room.old.items ≤ place.old.table_id.slots) }
    requires free { IsFree place.old }
    requires has { place.old.me.0.mine ≡ Some item.now }
    requires alike { All (λ x. x ≡ item.now) room.old.items }
    ensures handed { IsHanding place.old place.new }
    ensures room { room.new.items ≡ [] }
{
    while let Some(one) = room.pop() {
        let index = room.len();
        if index % SLOTS == 1 {
            wait_for_flag(board, place, w, index - 1);
        }
        hand(board, place, w, index, one);
    }
}

impl<T: Apart + Drop> Setter<T> {
    /// Sets a value, and hands it to each viewer. It waits while a viewer has one of its slots or
    /// its flag is up. Where there is no memory for the shares of the viewers, the value comes back
    /// and nothing has changed.
    pub fn set<W: Wait>(&mut self, w: &mut W, value: T) -> Result<(), SetBack<T>>
        requires { T.extends value (last_set self.old) }
        ensures cell { setter_cell self.new ≡ setter_cell self.old }
        ensures set { IfOk result (λ _. HasSet self.old self.new value) }
        ensures chain { IfOk result (λ _. Each (T.extends value) (set_before self.old)) }
        ensures back { IfErr result (λ e. (e.value ≡ value) × StaysSet self.old self.new) }
    {
        let Some(number) = self.last.number.checked_add(1) else {
            return Err(SetBack { value });
        };
        let next = Item { value, number };
        let viewers = self.board.slot_count() / SLOTS;
        if share_to(self.alloc, &mut self.room, &next, viewers).is_err() {
            self.room.clear();
            return Err(SetBack { value: next.value });
        }
        self.board
            .shared
            .compare_exchange_with::<Append>(&mut self.place, 0, 2, 2, &next);
        hand_all(&self.board, &mut self.place, w, &mut self.room, &next);
        self.last = next;
        Ok(())
    }

    /// What was set before this call, for a viewer to learn.
    pub fn tell(&mut self) -> Told<T>
        ensures cell { told_cell result ≡ setter_cell self.old }
        ensures here { setter_cell self.new ≡ setter_cell self.old }
        ensures told { told_values result ≡ set_before self.old }
        ensures last { set_before self.old ≡ last_set self.old ∷ drop 1 (set_before self.old) }
        ensures same { StaysSet self.old self.new }
    {
        let number = self.last.number;
        let last = match self.last.value.apart(self.alloc) {
            Ok(value) => Some(Item { value, number }),
            Err(_) => None,
        };
        Told {
            place: self.board.shared.split_seat::<Tell>(&mut self.place),
            last,
            number,
        }
    }
}
