//! A ring without waiting: one look, and no repository.

ghost use Rattle.std.specs.Prelude.{◌≡◌, ◌≤◌, IfOk, IfErr};
ghost use Rattle.dp_base.specs.declared.ticks.TheConstants.{LAST};
ghost use Rattle.node_calls.specs.Sight.{sight_of, sighted, SeenBy};
ghost use Rattle.node_calls.specs.Now.{why_not, AskRefused, Judged, GivesNow};

use crate::call::At;
use crate::error::Fork;
use crate::host::HostView;
use crate::sight::{Sight, fork, keep_list};
use dp_base::{Grows, Memory};
use key_elements::ElementList;
use key_ring::{Ring, Why};
use thiserror::Error;

/// Why a pass has no ring without waiting.
#[derive(Debug, Drop, Error)]
pub enum NowRefused {
    /// The ring is due, or its list is shorter than what the pass has seen or needs.
    #[error("the ring is due")]
    Due(Why),
    /// The list that was looked at isn't of one history with the one that the pass has seen.
    #[error("two lists differ at place {}", .0.at)]
    Forked(Fork),
    #[error("no memory")]
    Memory,
}

impl From<Memory> for NowRefused {
    ghost use Rattle.std.specs.Prelude.{◌≡◌};
    ghost use Rattle.node_calls.specs.declared.now.NowRefused.TheVariants.{Memory};

    ghost from_gives = { λ _ refused. refused ≡ Memory };

    fn from(_: Memory) -> NowRefused {
        NowRefused::Memory
    }
}

// Why the ring isn't used now, if it isn't.
fn why_not(ring: &Ring, want: u64, now: u64, target: u64) -> Option<Why>
    ensures { result ≡ why_not now target (record { want = want; ring = ring.now }) }
{
    let held = ring.list().len();
    match ring.due(now, want) {
        Some(why) => Some(why),
        None if held < target => Some(Why::Short { held, target }),
        None => None,
    }
}

// The want number and the ring, asked once each.
fn ask<H: HostView>(host: &mut H) -> Result<Sight, Memory>
    ensures host { IfOk result (λ s. H.state host.new ≡ sighted (sight_of s) (H.state host.old)) }
    ensures shows { IfOk result (λ s. SeenBy (sight_of s) (H.state host.old)) }
    ensures err { IfErr result (λ _. AskRefused (H.state host.old) (H.state host.new)) }
{
    let want = host.want();
    let ring = host.look()?;
    Ok(Sight { want, ring })
}

// Whether the ring is used by a pass that has seen the list.
fn judge(own: &ElementList, at: At, sight: &Sight) -> Result<(), NowRefused>
    ensures { Judged own.now at (sight_of sight.now) result }
{
    let list = sight.ring.list();
    if let Some(place) = own.first_difference(list) {
        return Err(NowRefused::Forked(fork(place, own, list)?));
    }
    let target = at.need.max(own.len());
    match why_not(&sight.ring, sight.want, at.now, target) {
        Some(why) => Err(NowRefused::Due(why)),
        None => Ok(()),
    }
}

/// The ring of one look, where it isn't due and has as many elements as the pass has seen and needs.
/// It asks the want number once and looks once, and neither waits nor reads the repository.
pub fn ring_now<H: HostView>(host: &mut H, at: At) -> Result<Ring, NowRefused>
    requires moment { at.now ≤ LAST }
    ensures now { GivesNow at (H.state host.old) result (H.state host.new) }
{
    let sight = ask(host)?;
    judge(host.own(), at, &sight)?;
    keep_list(host, sight.ring.list())?;
    Ok(sight.ring)
}
