//! A session: framed requests, each served in turn by a lawful path and answered before the next is
//! read, with a trace of what each used. What one request comes to, and the single calls, are those of
//! `dp_answer`.
#![tactic(auto)]

mod end;
mod gate;
mod log;
mod reading;
mod serving;
mod session;
mod status;

pub use dp_answer::{
    Answered, AppName, AppRefused, CallRefused, Drawn, Entries, Entry, MAX_APP, Setup, Trace, Used,
    protect, protect_now, unprotect, unprotect_now,
};
pub use end::{BadPlace, BadWhy, SessionEnd};
pub use gate::{Gate, NoGate};
pub use session::{MAX_REQUESTS, serve_session};
pub use status::Status;

#[cfg(test)]
mod node_tests;
#[cfg(test)]
mod now_tests;
#[cfg(test)]
mod payload_tests;
#[cfg(test)]
mod tests;
