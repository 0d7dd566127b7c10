//! One call of a link at the table.
ghost use Rattle.std.specs.Prelude.{◌≡◌, ◌++◌, Some, IfOk, IfErr};
ghost use Rattle.key_elements.specs.Record.{IsElement};
ghost use Rattle.repo_keeper.specs.Store.{IsTail, EndsWith, IsCause, IsReadCause, append_tally};
ghost use Rattle.repo_shared.specs.Seats.{IsAt, IsHeld, HasCalled};

use crate::board::{Board, BoardSeat};
use crate::locking::{lock, put_appended, put_grown};
use key_elements::{Element, ElementList};
use repo_keeper::{Keeper, RepoError};
use std::alloc::Global;
use std::sync::Wait;

// Takes the lock, reads the shelf, and loads the count.
pub(crate) fn read_locked<K: Keeper + Drop, W: Wait>(
    board: &Board<K>,
    seat: &mut BoardSeat<K>,
    seen: &mut ElementList,
    w: &W,
    alloc: Global,
    known: u64,
) -> (Result<Vec<Element>, RepoError>, u64)
    requires table { IsAt board.now.shared.table_id seat.old }
    requires held { IsHeld seat.old.me seen.old }
    ensures called { HasCalled result.0 result.1 seat.old seat.new seen.old seen.new }
    ensures mine { seat.new.me.0.mine ≡ seat.old.me.0.mine }
    ensures tail { IfOk result.0 (λ tail. IsTail known tail.items (Some seen.new)) }
    ensures cause { IfErr result.0 (λ why. IsReadCause known (Some seen.new) why) }
{
    let mut shelf = lock(board, seat, w);
    let had = shelf.list.len();
    let answer = shelf.read_into(alloc, known, seen);
    let have = put_grown(board, seat, shelf, had);
    (answer, have)
}

// Takes the lock, appends at the shelf, and loads the count.
pub(crate) fn append_locked<K: Keeper + Drop, W: Wait>(
    board: &Board<K>,
    seat: &mut BoardSeat<K>,
    seen: &mut ElementList,
    w: &W,
    alloc: Global,
    known: u64,
    e: &Element,
) -> (Result<Vec<Element>, RepoError>, u64)
    requires element { IsElement e.now }
    requires table { IsAt board.now.shared.table_id seat.old }
    requires held { IsHeld seat.old.me seen.old }
    ensures called { HasCalled result.0 result.1 seat.old seat.new seen.old seen.new }
    ensures mine { seat.new.me.0.mine
        ≡ seat.old.me.0.mine ++ (append_tally known result.0).places }
    ensures tail { IfOk result.0 (λ tail. IsTail known tail.items (Some seen.new)) }
    ensures last { IfOk result.0 (λ tail. EndsWith e.now tail.items) }
    ensures cause { IfErr result.0 (λ why. IsCause known (Some seen.new) why) }
{
    let mut shelf = lock(board, seat, w);
    let had = shelf.list.len();
    match shelf.append_into(alloc, known, e, seen) {
        Ok(tail) => {
            let have = put_appended(board, seat, shelf, had);
            (Ok(tail), have)
        }
        Err(why) => {
            let have = put_grown(board, seat, shelf, had);
            (Err(why), have)
        }
    }
}
