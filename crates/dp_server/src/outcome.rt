//! How a run ends.

ghost use Rattle.std.specs.Prelude.{◌≡◌, ◌≢◌, None, []};
ghost use Rattle.dp_session.specs.declared.status.Status.TheVariants.{BadInput};
ghost use Rattle.dp_server.specs.Outcomes.{refusal_outcome};

use dp_session::{BadPlace, BadWhy, SessionEnd, Status, Trace};
use key_elements::ListRefused;
use std::alloc::Global;

/// How a run ended.
#[derive(Debug, Drop)]
pub struct Outcome {
    pub status: Status,
    /// Where the input was wrong, at the status of bad input alone.
    pub bad: Option<BadPlace>,
    /// What the requests of a session used; empty where there was none.
    pub trace: Trace,
}

impl Outcome {
    // The end with a status that names no place, of a run that served no request.
    pub(crate) fn of(alloc: Global, status: Status) -> Outcome
        requires { status ≢ BadInput }
        ensures status { result.status ≡ status }
        ensures bad { result.bad ≡ None }
        ensures entries { result.trace.entries ≡ [] }
        ensures list { result.trace.list ≡ [] }
    {
        Outcome {
            status,
            bad: None,
            trace: Trace::empty(alloc),
        }
    }

    // The end of a show.
    pub(crate) fn of_show(alloc: Global, end: ShowEnd) -> Outcome
        ensures status { result.status ≡ end.status }
        ensures bad { result.bad ≡ end.bad }
        ensures entries { result.trace.entries ≡ [] }
        ensures list { result.trace.list ≡ [] }
    {
        Outcome {
            status: end.status,
            bad: end.bad,
            trace: Trace::empty(alloc),
        }
    }

    // The end of a session.
    pub(crate) fn of_session(end: SessionEnd) -> Outcome
        ensures status { result.status ≡ end.status }
        ensures bad { result.bad ≡ end.bad }
        ensures entries { result.trace.entries ≡ end.trace.entries }
        ensures list { result.trace.list ≡ end.trace.list }
    {
        let SessionEnd { status, bad, trace } = end;
        Outcome { status, bad, trace }
    }
}

/// How a show ended.
#[derive(Clone, Copy, Debug, PartialEq, Eq)]
pub(crate) struct ShowEnd {
    pub status: Status,
    pub bad: Option<BadPlace>,
}

impl ShowEnd {
    // The end with a status that names no place.
    pub(crate) fn of(status: Status) -> ShowEnd
        requires { status ≢ BadInput }
        ensures { result ≡ record { status = status; bad = None } }
    {
        ShowEnd { status, bad: None }
    }

    // The end where the input was refused as a list.
    pub(crate) fn of_refusal(refused: ListRefused) -> ShowEnd
        ensures { result ≡ refusal_outcome refused }
    {
        let (place, why) = match refused {
            ListRefused::At { place, why } => (place, BadWhy::Element(why)),
            ListRefused::TooMany { place } => (place, BadWhy::TooMany),
            ListRefused::Memory => return ShowEnd::of(Status::NoMemory),
        };
        ShowEnd {
            status: Status::BadInput,
            bad: Some(BadPlace { place, why }),
        }
    }
}
