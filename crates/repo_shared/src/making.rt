//! What makes a shared repository and its links.
ghost use Rattle.std.specs.Prelude.{◌≡◌, ◌+◌, ◌≤◌, [], length, IfOk};
ghost use Rattle.repo_shared.specs.Rule.{opener};
ghost use Rattle.repo_shared.specs.Links.{IsFresh, AreFresh};
ghost use Rattle.repo_shared.specs.Repos.{table_of, made_of, next_of, list_of};

use crate::board::{Board, BoardSeat};
use crate::handles::{Link, SharedRepo};
use crate::plays::Make;
use crate::shelf::Shelf;
use atomic_table::Table;
use dp_base::Memory;
use key_elements::ElementList;
use repo_keeper::Keeper;
use std::alloc::Global;
use std::sync::Arc;

// A table with the shelf at home, and its first seat.
fn board<K: Keeper + Drop>(alloc: Global, keeper: K) -> Result<(Board<K>, BoardSeat<K>), Memory>
    ensures { IfOk result (λ r. (r.0.shared.table_id.words ≡ 2) × (r.0.shared.table_id.slots ≡ 1)
        × (r.1.table_id ≡ r.0.shared.table_id) × (r.1.me ≡ (opener, []))) }
{
    let mut slots = Vec::with_capacity(alloc, 1)?;
    slots.push(Some(Shelf::new(keeper)))?;
    match Table::new(alloc, &[0, 0], slots, &()) {
        Ok(made) => Ok(made),
        Err(_) => Err(Memory),
    }
}

impl<K: Keeper + Drop> SharedRepo<K> {
    /// A repository over a keeper that nobody else uses, and its links, numbered from 1 in their
    /// order. There are 1 to 1,024.
    pub fn open(
        alloc: Global,
        keeper: K,
        links: u32,
    ) -> Result<(SharedRepo<K>, Vec<Link<K>>), Memory>
        requires { (1 ≤ links) × (links ≤ 1024) }
        ensures count { IfOk result (λ r. length r.1.items ≡ links) }
        ensures made { IfOk result (λ r. made_of r.0 ≡ links) }
        ensures each { IfOk result (λ r. AreFresh (table_of r.0) r.1.items) }
    {
        let mut ends = Vec::with_capacity(alloc, links as usize)?;
        let mut repo = SharedRepo::alone(alloc, keeper, links)?;
        for _ in 0..links {
            let link = repo.link()?;
            ends.push(link)?;
        }
        Ok((repo, ends))
    }

    // A repository for so many links, of which none is made yet.
    fn alone(alloc: Global, keeper: K, made: u32) -> Result<SharedRepo<K>, Memory>
        ensures made { IfOk result (λ r. made_of r ≡ made) }
        ensures next { IfOk result (λ r. (next_of r ≡ 1) × (list_of r ≡ [])) }
    {
        let (table, seat) = board(alloc, keeper)?;
        Ok(SharedRepo {
            board: Arc::new(alloc, table)?,
            seat,
            made,
        })
    }

    // The next link.
    fn link(&mut self) -> Result<Link<K>, Memory>
        requires { list_of self.old ≡ [] }
        ensures repo { IfOk result (λ _. (table_of self.new ≡ table_of self.old)
            × (made_of self.new ≡ made_of self.old)
            × (next_of self.new ≡ next_of self.old + 1) × (list_of self.new ≡ [])) }
        ensures link { IfOk result (λ l. IsFresh (table_of self.old) (next_of self.old) l) }
    {
        let board = Arc::try_clone(&self.board)?;
        let seat = self.board.shared.split_seat::<Make>(&mut self.seat);
        Ok(Link {
            board,
            seat,
            seen: ElementList::empty(),
            calls: 0,
            faults: 0,
            shorts: 0,
            fulls: 0,
        })
    }
}
