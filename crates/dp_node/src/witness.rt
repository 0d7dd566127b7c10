//! A value that clauses alone see, for what goes to another thread.
ghost use Rattle.std.specs.Prelude.{◌≡◌};
ghost use Rattle.std.specs.Borrow.{ftrue};

use std::marker::{Model, PhantomData};

/// A value as clauses see it. It takes no memory and owns nothing, so only a clause ties `value`.
/// Unlike a `Snapshot` of std, it lets the struct that has it be `Send` with no proof.
#[derive(Drop)]
pub struct Witness<T> {
    marker: PhantomData<T>,
    pub ghost value: { T },
}

impl<T> Model for Witness<T> {
    ghost also_owns = { λ _. ftrue };
}

// It owns nothing.
unsafe impl<T> Send for Witness<T> {}

impl<T> Witness<T> {
    /// The value that the reference shows.
    pub fn of(x: &T) -> Witness<T>
        ensures { result.value ≡ x.now }
    {
        let _ = x;
        Witness {
            marker: PhantomData,
        }
    }
}
