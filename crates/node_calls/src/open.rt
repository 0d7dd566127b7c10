//! The first ring of a node, at its opening.

ghost use Rattle.std.specs.Prelude.{◌≡◌, ◌≤◌};
ghost use Rattle.dp_base.specs.declared.ticks.TheConstants.{LAST};
ghost use Rattle.node_calls.specs.Opening.{Opens, IsRing, refused_as};

use crate::error::NodeError;
use crate::lent::Sources;
use default_key::Options;
use dp_base::{Draw, Memory};
use key_elements::ElementList;
use key_ring::Ring;
use repo_keeper::Repo;
use ring_world::StepList;
use std::alloc::Global;
use thiserror::Error;

/// Why a node wasn't opened.
#[derive(Clone, Copy, Debug, PartialEq, Eq, Error)]
pub enum OpenRefused {
    /// The repository failed, and counted it.
    #[error("the repository failed")]
    StoreFault,
    /// The draw failed, and counted it.
    #[error("no random bytes were drawn")]
    DrawFault,
    #[error("no memory")]
    Memory,
}

impl From<Memory> for OpenRefused {
    ghost use Rattle.std.specs.Prelude.{◌≡◌};
    ghost use Rattle.node_calls.specs.declared.open.OpenRefused.TheVariants.{Memory};

    ghost from_gives = { λ _ refused. refused ≡ Memory };

    fn from(_: Memory) -> OpenRefused {
        OpenRefused::Memory
    }
}

// The refusal of an opening.
fn refused_as(why: &NodeError) -> OpenRefused
    ensures { result ≡ refused_as why.now }
{
    match why {
        NodeError::StoreFault => OpenRefused::StoreFault,
        NodeError::DrawFault => OpenRefused::DrawFault,
        _ => OpenRefused::Memory,
    }
}

/// The first ring of a node that is opened at the moment, in ticks, over all that the repository
/// holds.
pub fn first_ring<W, R: Repo<W>, D: Draw>(
    w: &mut W,
    alloc: Global,
    repo: &mut R,
    draw: &mut D,
    now: u64,
    options: Options,
) -> Result<Ring, OpenRefused>
    requires moment { now ≤ LAST }
    ensures opened { Opens now options IsRing result (R.store repo.old) (R.store repo.new)
        (D.draws draw.old) (D.draws draw.new) }
{
    let mut steps = StepList::with_room(alloc)?;
    let base = ElementList::empty();
    let mut sources = Sources {
        w,
        alloc,
        repo,
        draw,
        steps: &mut steps,
    };
    match sources.gather(&base, now, &options, true) {
        Ok(ring) => Ok(ring),
        Err(why) => Err(refused_as(&why)),
    }
}
