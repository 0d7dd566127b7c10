//! What a run ends with.

ghost use Rattle.std.specs.Prelude.{◌≡◌, option_map};
ghost use Rattle.dp_session.specs.Statuses.{number_of, message_of};

/// The status of a run.
#[derive(Clone, Copy, Debug, PartialEq, Eq)]
pub enum Status {
    /// The input was read to its end, and all was written.
    Done = 0,
    /// The words are of no lawful form.
    BadWords = 2,
    /// The input is no list of elements, or not made of whole frames.
    BadInput = 3,
    /// The source failed.
    ReadFault = 4,
    /// The sink failed.
    WriteFault = 5,
    /// The repository failed as the node was opened.
    StoreFault = 6,
    /// The draw failed as the node was opened.
    DrawFault = 7,
    /// No memory was found.
    NoMemory = 8,
    /// As many requests were served as one session serves, and there is more input.
    Spent = 9,
    /// An audit refused, or a number isn't the one that its run is to have.
    Forked = 10,
}

impl Status {
    /// The number that the process ends with.
    pub fn number(self) -> u8
        ensures { result ≡ number_of self }
    {
        self as u8
    }

    /// The line that is printed on standard error, if there is a fixed one: that of bad input names
    /// its place.
    pub fn message(self) -> Option<&'static str>
        ensures { option_map (λ m. m.now) result ≡ message_of self }
    {
        match self {
            Status::Done | Status::BadInput => None,
            Status::BadWords => Some("dp_server: bad words"),
            Status::ReadFault => Some("dp_server: reading failed"),
            Status::WriteFault => Some("dp_server: writing failed"),
            Status::StoreFault => Some("dp_server: the repository failed"),
            Status::DrawFault => Some("dp_server: drawing random bytes failed"),
            Status::NoMemory => Some("dp_server: out of memory"),
            Status::Spent => Some("dp_server: too many requests in one session"),
            Status::Forked => Some("dp_server: the run differs from its history"),
        }
    }
}
