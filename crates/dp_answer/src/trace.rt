//! What the requests of a session used.

ghost use Rattle.std.specs.Prelude.{◌≡◌, ◌≤◌, [], length};

use dp_base::MAX_TAPE;
use key_elements::ElementList;
use node_calls::NodeError;
use ring_world::StepList;
use std::alloc::Global;
use std::marker::Model;

/// What a request was answered by.
#[derive(Debug, Drop)]
pub enum Used {
    /// A ring: how many elements its list has, and the moment at which it was made, in ticks.
    Ring { front: u64, made_at: u64 },
    /// A new element, at the place, from 0.
    Placed { place: u64 },
    Refused(NodeError),
    /// The body is that of no request: the offset of the first field that is wrong.
    BadRequest { place: u32 },
    NoMemory,
}

/// The bytes that a request drew, at most `MAX_TAPE`. Clauses see them as a list.
#[derive(Debug, Drop)]
pub struct Drawn {
    room: [u8; MAX_TAPE],
    // So many of the room's front count.
    count: usize,
}

impl Model for Drawn {
    ghost use Rattle.std.specs.Prelude.{List, ℕ, ◌≤◌, take};
    ghost use Rattle.dp_base.specs.declared.draw.TheConstants.{MAX_TAPE};

    ghost Value = { List ℕ };

    ghost view = { λ d. take d.count d.room };

    ghost invariant = { λ d. d.count ≤ MAX_TAPE };
}

impl Drawn {
    /// No bytes.
    pub fn none() -> Drawn
        ensures { result ≡ [] }
    {
        Drawn {
            room: [0; MAX_TAPE],
            count: 0,
        }
    }

    /// A copy of the bytes, of which there are few enough.
    pub fn of(bytes: &[u8]) -> Drawn
        requires { length bytes.now ≤ MAX_TAPE }
        ensures { result ≡ bytes.now }
    {
        let mut room = [0; MAX_TAPE];
        room[..bytes.len()].copy_from_slice(bytes);
        Drawn {
            room,
            count: bytes.len(),
        }
    }

    /// The bytes in order.
    pub fn as_slice(&self) -> &[u8]
        ensures { result.now ≡ self.now }
    {
        &self.room[..self.count]
    }
}

/// What one request did and used.
#[derive(Debug, Drop)]
pub struct Entry {
    /// The moment that it was served at, in ticks.
    pub now: u64,
    /// How many elements it asked for; 0 where it named no number or wasn't kept.
    pub need: u64,
    /// How many elements the pass had seen before it.
    pub seen: u64,
    pub used: Used,
    pub steps: StepList,
    pub drawn: Drawn,
}

/// The entries of a session, one for each request served. Clauses see them as a list.
#[derive(Debug, Drop)]
pub struct Entries {
    items: Vec<Entry>,
}

impl Model for Entries {
    ghost use Rattle.std.specs.Prelude.{List};
    ghost use Rattle.dp_answer.specs.declared.trace.Entry.{Entry};

    ghost Value = { List Entry };

    ghost view = { λ e. e.items.items };
}

impl Entries {
    /// The entries of a vector.
    pub fn of(items: Vec<Entry>) -> Entries
        ensures { result ≡ items.items }
    {
        Entries { items }
    }

    /// The entries in order.
    pub fn as_slice(&self) -> &[Entry]
        ensures { result.now ≡ self.now }
    {
        self.items.as_slice()
    }

    /// The entries as a vector.
    pub fn into_inner(self) -> Vec<Entry>
        ensures { result.items ≡ self }
    {
        let Entries { items } = self;
        items
    }
}

/// What a session used: the longest list, of which each entry's list is the first `front` elements,
/// or the first `place + 1`; and the entries in order.
#[derive(Debug, Drop)]
pub struct Trace {
    pub list: ElementList,
    pub entries: Entries,
}

impl Trace {
    /// The trace of no request.
    pub fn empty(alloc: Global) -> Trace
        ensures list { result.list ≡ [] }
        ensures entries { result.entries ≡ [] }
    {
        Trace {
            list: ElementList::empty(),
            entries: Entries::of(Vec::new(alloc)),
        }
    }
}
