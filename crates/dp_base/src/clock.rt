//! Where moments come from.

ghost use Rattle.std.specs.Prelude.{◌≡◌, ℕ, List, Option, Some};
ghost use Rattle.dp_base.specs.Clocks.{ShowsMoment, next_moment, later_moments};

use std::marker::Model;

/// A clock. It can't fail.
pub trait Clock {
    // The moments to come, where they are told.
    ghost moments: { Self → Option (List ℕ) };

    /// The moment, in ticks. A clock may show any number, one above `MAX_TICKS` too, and may go
    /// back.
    fn now(&mut self) -> u64
        ensures { ShowsMoment (moments self.old) (moments self.new) result };
}

/// A clock of moments in memory: each in order, and then the last one again, or 0 where there was
/// none.
#[derive(Debug, Drop)]
pub struct MemClock {
    moments: Vec<u64>,
    at: usize,
}

impl Model for MemClock {
    ghost use Rattle.std.specs.Prelude.{ℕ, ◌<◌, ◌⊎◌, ◌≡◌, List, vec_len, drop};

    ghost Value = { List ℕ };

    ghost view = { λ c. drop c.at c.moments.items };

    ghost invariant = { λ c. (c.at < vec_len c.moments) ⊎ (c.at ≡ 0) };
}

impl MemClock {
    /// A clock of the moments.
    pub fn new(moments: Vec<u64>) -> MemClock
        ensures { result ≡ moments.items }
    {
        MemClock { moments, at: 0 }
    }
}

impl Clock for MemClock {
    ghost moments = { λ c. Some c };

    fn now(&mut self) -> u64
        ensures value { result ≡ next_moment self.old }
        ensures later { self.new ≡ later_moments self.old }
    {
        match self.moments.get(self.at) {
            Some(moment) => {
                let moment = *moment;
                if self.at + 1 < self.moments.len() {
                    self.at += 1;
                }
                moment
            }
            None => 0,
        }
    }
}
