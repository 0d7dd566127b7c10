//! A lent draw whose bytes are kept.

ghost use Rattle.std.specs.Prelude.{◌≡◌, Some, [], IfSome};
ghost use Rattle.dp_base.specs.Draws.{gave, taped};

use crate::draw::{Draw, MAX_TAPE};
use crate::source::Failed;
use std::marker::Model;

// The bytes given so far, while they are at most `MAX_TAPE`: the first `count` of the room. A count
// above is that of a tape that is too short.
#[derive(Drop)]
struct Tape {
    room: [u8; MAX_TAPE],
    count: usize,
}

impl Model for Tape {
    ghost use Rattle.std.specs.Prelude.{Option, Some, None, List, ℕ, take, nat_le, if◌then◌else◌};
    ghost use Rattle.dp_base.specs.declared.draw.TheConstants.{MAX_TAPE};

    ghost Value = { Option (List ℕ) };

    ghost view = { λ t. if nat_le t.count MAX_TAPE then Some (take t.count t.room) else None };
}

impl Tape {
    fn new() -> Tape
        ensures { result ≡ Some [] }
    {
        Tape {
            room: [0; MAX_TAPE],
            count: 0,
        }
    }

    fn keep(&mut self, bytes: &[u8])
        ensures { self.new ≡ gave self.old bytes.now }
    {
        if self.count > MAX_TAPE {
            return;
        }
        let end = self.count.saturating_add(bytes.len());
        if end <= MAX_TAPE {
            self.room[self.count..end].copy_from_slice(bytes);
            self.count = end;
        } else {
            self.count = MAX_TAPE + 1;
        }
    }

    fn bytes(&self) -> &[u8]
        ensures { IfSome self.now (λ given. result.now ≡ given) }
    {
        &self.room[..self.count.min(MAX_TAPE)]
    }
}

/// A draw over a lent one, whose calls and faults are its own. It keeps the bytes that it gives, and
/// tells them while they are at most `MAX_TAPE`. It takes no memory.
#[derive(Drop)]
pub struct Taped<'a, D> {
    draw: &'a mut D,
    tape: Tape,
}

impl<'a, D: Draw> Taped<'a, D> {
    /// A tape of no byte yet over the draw.
    pub fn new(draw: &'a mut D) -> Taped<'a, D>
        ensures loan { result.draw.ghost_name ≡ draw.entry.ghost_name }
        ensures draws { ⟦<Taped<'a, D> as Draw>⟧.draws result
            ≡ taped (D.draws draw.old) draw.entry.ghost_name (Some []) }
    {
        Taped {
            draw,
            tape: Tape::new(),
        }
    }

    /// The bytes given, where they are told.
    pub fn bytes(&self) -> &[u8]
        ensures { IfSome (⟦<Taped<'a, D> as Draw>⟧.draws self.now).given
            (λ given. result.now ≡ given) }
    {
        self.tape.bytes()
    }
}

impl<D: Draw> Draw for Taped<'_, D> {
    ghost draws = { λ t. taped (D.draws t.draw.now) t.draw.ghost_name t.tape };

    fn fill(&mut self, out: &mut [u8]) -> Result<(), Failed> {
        self.draw.fill(out)?;
        self.tape.keep(out);
        Ok(())
    }
}
