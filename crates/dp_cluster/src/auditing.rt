//! The audit of traces against a history.
ghost use Rattle.std.specs.Prelude.{◌↔◌, All, IfErr, IfOk, IsOk, MatchOption};
ghost use Rattle.key_elements.specs.Lists.{Extends};
ghost use Rattle.dp_cluster.specs.Audit.{AreFronts, HasFronts, IsFork, LeavesAt};

use dp_session::Trace;
use key_elements::ElementList;
use thiserror::Error;

/// A trace whose list isn't a front of the history.
#[derive(Clone, Copy, Debug, PartialEq, Eq, Error)]
#[error("trace {trace} differs from the history at place {at}")]
pub struct AuditFork {
    /// The place of the trace among those audited, from 0.
    pub trace: u64,
    /// The first place, from 0, at which its list and the history differ, or the history's length
    /// where the list goes on behind it.
    pub at: u64,
}

// Where the list leaves the history.
fn leaves_at(history: &ElementList, list: &ElementList) -> Option<u64>
    ensures { MatchOption result (Extends history.now list.now) (LeavesAt history.now list.now) }
{
    match history.first_difference(list) {
        Some(at) => Some(at),
        None if history.len() < list.len() => Some(history.len()),
        None => None,
    }
}

/// Accepts traces whose lists are fronts of the history, and else tells the first whose list isn't.
/// It takes no memory.
pub fn audit(history: &ElementList, traces: &[Trace]) -> Result<(), AuditFork>
    ensures ok { IsOk result ↔ AreFronts history.now traces.now }
    ensures fork { IfErr result (IsFork history.now traces.now) }

    // Each request was then answered by a front of the history. It follows from the first clause.
    ensures entries { IfOk result (λ _. All (HasFronts history.now) traces.now) }
{
    for (number, trace) in traces.iter().enumerate() {
        if let Some(at) = leaves_at(history, &trace.list) {
            return Err(AuditFork {
                trace: number as u64,
                at,
            });
        }
    }
    Ok(())
}
