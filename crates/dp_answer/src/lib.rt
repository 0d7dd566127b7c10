//! What one request comes to at a node: it takes a lawful path to a ring or to a place, and is
//! answered by that (`request`); and single calls that protect and unprotect at a node (`calls`), or
//! do so without waiting (`calls_now`).
#![tactic(auto)]

mod app;
mod calls;
mod calls_now;
mod needs;
mod opening;
mod placing;
mod protecting;
mod request;
mod response;
mod trace;

pub use app::{AppName, AppRefused, MAX_APP, Setting, Setup};
pub use calls::{Answered, CallRefused, protect, unprotect};
pub use calls_now::{protect_now, unprotect_now};
pub use needs::need_of;
pub use request::answer;
pub use response::Response;
pub use trace::{Drawn, Entries, Entry, Trace, Used};
