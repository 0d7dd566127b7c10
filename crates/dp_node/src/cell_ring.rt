//! A ring as a node's cell hands it on.

ghost use Rattle.std.specs.Prelude.{◌≡◌, IfOk, IfErr};
ghost use Rattle.key_ring.specs.Ring.{ExtendsRing};
ghost use Rattle.key_ring.specs.Growth.{ExtendsRing-reflexive, ExtendsRing-transitive};
ghost use Rattle.swap_cell.specs.Cells.{HasLooked, viewer_cell, known};

use dp_base::{Grows, Memory};
use key_ring::Ring;
use std::alloc::Global;
use std::marker::Model;
use swap_cell::{Apart, Viewer};

/// A ring whose owners in one pass are counted apart from those in others. Clauses see the ring.
#[derive(Drop)]
pub(crate) struct CellRing {
    pub ring: Ring,
}

impl Model for CellRing {
    ghost use Rattle.key_ring.specs.Ring.{RingOf};

    ghost Value = { RingOf };

    ghost view = { λ cell. cell.ring };
}

impl CellRing {
    fn into_ring(self) -> Ring
        ensures { result ≡ self }
    {
        self.ring
    }
}

/// The ring that is newest at the viewer.
pub(crate) fn look_at(viewer: &mut Viewer<CellRing>) -> Result<Ring, Memory>
    ensures cell { viewer_cell viewer.new ≡ viewer_cell viewer.old }
    ensures looked { IfOk result (HasLooked ExtendsRing viewer.old viewer.new) }
    ensures memory { IfErr result (λ _. known viewer.new ≡ known viewer.old) }
{
    Ok(viewer.look()?.into_ring())
}

impl Grows for CellRing {
    ghost extends = { ExtendsRing };

    fn share(&self) -> Result<CellRing, Memory> {
        Ok(CellRing {
            ring: self.ring.share()?,
        })
    }

    ghost reflexive = { ExtendsRing-reflexive };

    ghost transitive = { ExtendsRing-transitive };
}

impl Apart for CellRing {
    fn apart(&self, alloc: Global) -> Result<CellRing, Memory> {
        Ok(CellRing {
            ring: self.ring.apart(alloc)?,
        })
    }
}
