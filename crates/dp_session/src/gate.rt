//! What each request of a session passes before it is served.

ghost use Rattle.std.specs.Prelude.{ℕ};

/// A gate, which may count those who pass, or hold them for as long as `W` lets it wait.
pub trait Gate<W> {
    // The call with this number, from 0, of the session of this worker passed. Nothing but a pass
    // tells it of a gate that isn't known.
    ghost passed: { Self → ℕ → ℕ → Type 0 } = { λ _ _ _. Unit {0} };

    /// Passes, for a call of the session of the worker. Calls have numbers from 0.
    fn pass(&self, w: &mut W, worker: u32, call: u64)
        ensures { passed self.now worker call };
}

/// A gate that does nothing.
#[derive(Clone, Copy, Debug, PartialEq, Eq)]
pub struct NoGate;

impl<W> Gate<W> for NoGate {
    fn pass(&self, _w: &mut W, _worker: u32, _call: u64) {}
}
