//! What a session keeps of what its requests used.

ghost use Rattle.std.specs.Prelude.{◌≡◌, []};

use dp_answer::{Entries, Entry, Trace};
use key_elements::ElementList;
use std::alloc::Global;

/// What a session keeps as it goes on, which becomes its trace.
#[derive(Drop)]
pub(crate) struct Log {
    pub entries: Vec<Entry>,
    pub list: ElementList,
}

impl Log {
    /// Nothing yet.
    pub(crate) fn new(alloc: Global) -> Log
        ensures entries { result.entries.items ≡ [] }
        ensures list { result.list ≡ [] }
    {
        Log {
            entries: Vec::new(alloc),
            list: ElementList::empty(),
        }
    }

    /// The trace.
    pub(crate) fn into_trace(self) -> Trace
        ensures list { result.list ≡ self.list }
        ensures entries { result.entries ≡ self.entries.items }
    {
        let Log { entries, list } = self;
        Trace {
            list,
            entries: Entries::of(entries),
        }
    }
}
