//! What a seat does at the table of a shared repository.
ghost use Rattle.std.specs.Prelude.{◌≡◌, true, length};
ghost use Rattle.key_elements.specs.Lists.{Extends};
ghost use Rattle.repo_shared.specs.Rule.{elements};
ghost use Rattle.repo_shared.specs.Seats.{IsAt, IsFree, HasLock, HasLocked, HasUnlocked, CarriesShelf};
ghost use Rattle.repo_shared.specs.Seats.{list_grown, list_appended, mine_appended};

use crate::board::{Board, BoardSeat};
use crate::plays::{Append, Count, Grow, Lock, Unlock};
use crate::shelf::Shelf;
use std::sync::Wait;

/// Word 0 of the table.
pub(crate) const LOCK: usize = 0;

/// Word 1 of the table.
pub(crate) const COUNT: usize = 1;

/// The one slot of the table.
pub(crate) const SHELF: usize = 0;

// Waits until nobody has the lock, and takes it and the shelf.
pub(crate) fn lock<K, W: Wait>(board: &Board<K>, seat: &mut BoardSeat<K>, w: &W) -> Shelf<K>
    requires table { IsAt board.now.shared.table_id seat.old }
    requires free { IsFree seat.old }
    ensures { HasLocked result seat.old seat.new }
{
    let shared = &board.shared;
    for _ in w.forever() {
        if shared.compare_exchange::<Lock>(seat, LOCK, 0, 1) == 0 {
            return shared.exchange(seat, SHELF, None).unwrap();
        }
        shared.park(w, LOCK, 1);
    }
    unreachable!()
}

// Gives the lock and the shelf back, and loads the count before.
fn unlock<K>(board: &Board<K>, seat: &mut BoardSeat<K>) -> u64
    requires table { IsAt board.now.shared.table_id seat.old }
    requires lock { seat.old.me.0.locks ≡ true }
    requires shelf { CarriesShelf seat.old }
    ensures { HasUnlocked seat.old.me.0.list seat.old.me.0.mine result seat.old seat.new }
{
    let shared = &board.shared;
    let found = shared.load::<Count>(seat, COUNT);
    shared.store::<Unlock>(seat, LOCK, 0);
    shared.wake_one(LOCK);
    found
}

// Gives the lock and the shelf back. What is new on the shelf is of nobody.
pub(crate) fn put_grown<K: Drop>(
    board: &Board<K>,
    seat: &mut BoardSeat<K>,
    shelf: Shelf<K>,
    had: u64,
) -> u64
    requires table { IsAt board.now.shared.table_id seat.old }
    requires lock { HasLock seat.old }
    requires grown { Extends shelf.list (elements seat.old.me.0.list) }
    requires had { had ≡ length seat.old.me.0.list }
    ensures { HasUnlocked (list_grown seat.old shelf) seat.old.me.0.mine result seat.old seat.new }
{
    let more = shelf.list.len() - had;
    let shared = &board.shared;
    let _empty = shared.exchange(seat, SHELF, Some(shelf));
    shared.fetch_add::<Grow>(seat, COUNT, more);
    unlock(board, seat)
}

// The same, where the last element on the shelf is of this seat's link.
pub(crate) fn put_appended<K: Drop>(
    board: &Board<K>,
    seat: &mut BoardSeat<K>,
    shelf: Shelf<K>,
    had: u64,
) -> u64
    requires table { IsAt board.now.shared.table_id seat.old }
    requires lock { HasLock seat.old }
    requires grown { Extends shelf.list (elements seat.old.me.0.list) }
    requires had { had ≡ length seat.old.me.0.list }
    ensures { HasUnlocked (list_appended seat.old shelf) (mine_appended seat.old shelf) result seat.old seat.new }
{
    let more = shelf.list.len() - had;
    let shared = &board.shared;
    let _empty = shared.exchange(seat, SHELF, Some(shelf));
    shared.fetch_add::<Append>(seat, COUNT, more);
    unlock(board, seat)
}
