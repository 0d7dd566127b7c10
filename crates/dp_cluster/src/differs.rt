//! What differs where a run isn't what its history says.

use crate::auditing::AuditFork;
use dp_session::Trace;
use key_elements::ElementList;

/// Two things that should be the same and differ.
#[derive(Debug, Drop)]
pub enum Differs {
    /// An audit refused: the history, the trace whose list isn't a front of it, and where.
    Audit {
        history: ElementList,
        trace: Trace,
        fork: AuditFork,
    },
    /// A printed number is another than the one wanted: the line, counted from 1, and both.
    Number {
        line: u32,
        want: u64,
        got: u64,
    },
}
