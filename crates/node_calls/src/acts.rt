//! The last acts of a host.

ghost use Rattle.std.specs.Prelude.{◌≡◌, [], ◌∷◌, ◌++◌};
ghost use Rattle.node_calls.specs.HostState.{latest};

use ring_world::Step;
use std::marker::Model;

/// The last 24 acts, in order.
#[derive(Debug, Drop)]
pub struct Acts {
    // From the front, so many count.
    kept: [Step; 24],
    len: usize,
}

impl Model for Acts {
    ghost use Rattle.std.specs.Prelude.{List, ◌≤◌, ◌≡◌, take, length};
    ghost use Rattle.ring_world.specs.declared.step.Step.{Step};

    ghost Value = { List Step };

    ghost view = { λ a. take a.len a.kept };

    ghost invariant = { λ a. (a.len ≤ 24) × (length a.kept ≡ 24) };
}

impl Acts {
    /// No acts.
    pub fn new() -> Acts
        ensures { result ≡ [] }
    {
        Acts {
            kept: [Step::Answer; 24],
            len: 0,
        }
    }

    /// Adds an act; of 24 the first goes.
    pub fn push(&mut self, act: Step)
        ensures { self.new ≡ latest (self.old ++ act ∷ []) }
    {
        if self.len == 24 {
            self.kept.rotate_left(1);
            self.kept[23] = act;
        } else {
            self.kept[self.len] = act;
            self.len += 1;
        }
    }
}
