//! Context headers that are worked out once.

ghost use Rattle.std.specs.Prelude.{◌≡◌};

use context_header::{Header, header_of};
use dp_base::{Alg, code_of};
use once_cell::race::OnceBox;
use std::alloc::Global;

/// A cell for the header of each algorithm, which the first caller fills.
#[derive(Drop)]
pub struct HeaderTable {
    // The header of the code 1 stands first.
    cells: [OnceBox<Header>; 9],
}

impl HeaderTable {
    /// Empty cells. Takes no memory.
    pub fn new(alloc: Global) -> HeaderTable {
        HeaderTable {
            cells: [
                OnceBox::new(alloc),
                OnceBox::new(alloc),
                OnceBox::new(alloc),
                OnceBox::new(alloc),
                OnceBox::new(alloc),
                OnceBox::new(alloc),
                OnceBox::new(alloc),
                OnceBox::new(alloc),
                OnceBox::new(alloc),
            ],
        }
    }

    /// The header of the algorithm. A cell that holds another's isn't used, and a header for which no
    /// memory is found isn't kept.
    pub fn get(&self, alloc: Global, alg: Alg) -> Header
        ensures { result ≡ alg }
    {
        let cell = &self.cells[usize::from(code_of(alg)) - 1];
        match cell.get() {
            Some(header) if header.alg() == alg => header.copied(),
            _ => worked_out(cell, alloc, alg),
        }
    }
}

// The header of the algorithm, of which the cell gets a copy where it is empty.
fn worked_out(cell: &OnceBox<Header>, alloc: Global, alg: Alg) -> Header
    ensures { result ≡ alg }
{
    let header = header_of(alg);
    if let Ok(copy) = Box::new(alloc, header.copied()) {
        let _ = cell.set(copy);
    }
    header
}
