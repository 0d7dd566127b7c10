//! The end of a shared repository.
ghost use Rattle.std.specs.Prelude.{◌≡◌, ◌≤◌, length, IfOk, IfErr, IfSome};
ghost use Rattle.repo_shared.specs.Seats.{IsAt, IsFree, HasLocked};
ghost use Rattle.repo_shared.specs.Repos.{table_of, made_of};
ghost use Rattle.repo_shared.specs.Closes.{AreOf, AreNumbered, AreGathered, AreFrontsOf, AreAllApart, IsMissing};

use crate::board::{Board, BoardSeat};
use crate::handles::{Link, SharedRepo};
use crate::locking::{LOCK, SHELF};
use crate::meeting::take_in;
use crate::plays::Lock;
use crate::shelf::Shelf;
use key_elements::ElementList;
use std::fmt;
use thiserror::Error;

/// Why a repository isn't closed.
#[derive(Drop, Error)]
pub enum CloseRefused<K: Drop> {
    /// Fewer links were given than were made, and all comes back.
    #[error("{given} of {made} links were given")]
    Missing {
        given: u32,
        made: u32,
        repo: SharedRepo<K>,
        links: Vec<Link<K>>,
    },
    /// Somebody had the lock. The repository and the links are given up.
    #[error("no memory")]
    Memory,
}

// A repository and its links show nothing.
impl<K: Drop> fmt::Debug for CloseRefused<K> {
    fn fmt<W: fmt::Write>(&self, f: &mut fmt::Formatter<W>) -> fmt::Result {
        fmt::Display::fmt(self, f)
    }
}

// Takes the lock and the shelf, where nobody has them.
fn try_lock<K>(board: &Board<K>, seat: &mut BoardSeat<K>) -> Option<Shelf<K>>
    requires table { IsAt board.now.shared.table_id seat.old }
    requires free { IsFree seat.old }
    ensures { IfSome result (λ shelf. HasLocked shelf seat.old seat.new) }
{
    let shared = &board.shared;
    if shared.compare_exchange::<Lock>(seat, LOCK, 0, 1) != 0 {
        return None;
    }
    Some(shared.exchange(seat, SHELF, None).unwrap())
}

// Learns what the links know.
fn gather<K: Drop>(board: &Board<K>, seat: &mut BoardSeat<K>, mut links: Vec<Link<K>>)
    requires table { IsAt board.now.shared.table_id seat.old }
    requires links { AreOf seat.old.table_id links.items }
    requires free { IsFree seat.old }
    ensures table { seat.new.table_id ≡ seat.old.table_id }
    ensures free { IsFree seat.new }
    ensures links { AreGathered 0 seat.new.me.0.list links.items }
{
    while let Some(link) = links.pop() {
        let Link {
            board: _,
            seat: other,
            seen: _,
            calls: _,
            faults: _,
            shorts: _,
            fulls: _,
        } = link;
        take_in(board, seat, other);
    }
}

/// Ends a repository of which all links are given: the history that was loaded, and the keeper. What
/// each link has seen is a front of the history, and each place of its appends holds its element.
pub fn close<K: Drop>(
    repo: SharedRepo<K>,
    links: Vec<Link<K>>,
) -> Result<(ElementList, K), CloseRefused<K>>
    requires links { AreOf (table_of repo) links.items }
    requires numbers { AreNumbered links.items }
    ensures fronts { IfOk result (λ r. AreFrontsOf r.0 links.items) }
    ensures apart { IfOk result (λ _. AreAllApart links.items) }
    ensures missing { IfErr result (λ why. IsMissing repo links.items why) }
    ensures given { IfOk result (λ _. made_of repo ≤ length links.items) }
{
    let given = links.len();
    if given < repo.made as usize {
        return Err(CloseRefused::Missing {
            given: given as u32,
            made: repo.made,
            repo,
            links,
        });
    }
    let SharedRepo {
        board,
        mut seat,
        made: _,
    } = repo;
    gather(&board, &mut seat, links);
    match try_lock(&board, &mut seat) {
        Some(Shelf { keeper, list }) => Ok((list, keeper)),
        None => Err(CloseRefused::Memory),
    }
}
