//! Elements of a key repository: their records, and lists of them.
#![tactic(auto)]

mod element;
mod list;
mod reading;
mod reason;
mod refused;
mod writing;

pub use element::{Element, KeyRecord, MAX_RECORD};
pub use list::{ElementList, MAX_ELEMENTS, TooMany};
pub use reading::{no_record_begins_another, read_element, read_list, read_reason};
pub use reason::{MAX_REASON, Reason, TooLong};
pub use refused::{ElementRefused, ListRefused};
pub use writing::encode;

#[cfg(test)]
mod tests;
