//! The steps of a call.

ghost use Rattle.std.specs.Prelude.{◌≡◌, ◌<◌, ◌++◌, [], ◌∷◌, IfOk, length};

use dp_base::Memory;
use std::alloc::Global;
use std::marker::Model;

/// The most steps of a call.
pub const MAX_STEPS: usize = 24;

/// How long after its opening a node tries once more for a key that is missing, in ticks: two
/// minutes.
pub const SECOND_TRY_SPAN: u64 = 1_200_000_000;

const _: () = prove!(SECOND_TRY_SPAN == 1_200_000_000);

/// One step of a call. Moments are ticks, and `front` is how many elements a list has.
#[derive(Clone, Copy, Debug, PartialEq, Eq)]
pub enum Step {
    /// The want number of the node was asked.
    Want {
        n: u64,
    },
    /// The ring of the node was looked at.
    Look {
        front: u64,
        made_at: u64,
        until: u64,
        excused: u64,
    },
    /// The turn was free, and was taken.
    Take,
    /// The turn was held by this seat.
    Busy {
        holder: u64,
    },
    /// The turn was given back.
    Give,
    /// The repository was read on for a ring that is to be published.
    Read {
        front: u64,
    },
    /// The repository was read on for a ring of the call's own.
    PrivateRead {
        front: u64,
    },
    /// A read failed.
    ReadFailed,
    /// A call of the repository found fewer elements than were known.
    WentBack {
        had: u64,
        got: u64,
    },
    /// So many bytes were drawn.
    Drawn {
        bytes: u32,
    },
    /// A draw failed.
    DrawFailed,
    /// An element was appended at the place, from 0.
    Appended {
        place: u64,
    },
    /// The repository had no place for an element.
    AppendFull,
    /// An append failed.
    AppendFailed,
    /// A ring was published.
    Publish {
        front: u64,
        until: u64,
    },
    /// The ring that was looked at was published once more, for a short time.
    Extend {
        until: u64,
        excused: u64,
    },
    /// The want number of the node became at least this one.
    RaiseWant {
        n: u64,
    },
    /// The call was answered.
    Answer,
}

/// What one call did, in order, with room for `MAX_STEPS`. Clauses see it as a list.
#[derive(Debug, Drop)]
pub struct StepList {
    steps: Vec<Step>,
}

impl Model for StepList {
    ghost use Rattle.std.specs.Prelude.{List, ◌≤◌, vec_capacity};
    ghost use Rattle.ring_world.specs.declared.step.Step.{Step};

    ghost Value = { List Step };

    ghost view = { λ s. s.steps.items };

    ghost invariant = { λ s. 24 ≤ vec_capacity s.steps };
}

impl StepList {
    /// No steps, with room for `MAX_STEPS`.
    pub fn with_room(alloc: Global) -> Result<StepList, Memory>
        ensures { IfOk result (λ steps. steps ≡ []) }
    {
        Ok(StepList {
            steps: Vec::with_capacity(alloc, MAX_STEPS)?,
        })
    }

    /// The steps in order.
    pub fn as_slice(&self) -> &[Step]
        ensures { result.now ≡ self.now }
    {
        self.steps.as_slice()
    }

    /// Records a step. It takes no memory.
    pub fn push(&mut self, step: Step)
        requires { length self.old < MAX_STEPS }
        ensures { self.new ≡ self.old ++ step ∷ [] }
    {
        let _ = self.steps.push(step);
    }
}
