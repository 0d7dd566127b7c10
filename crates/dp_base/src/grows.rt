//! Values that grow and are shared.

ghost use Rattle.std.specs.Prelude.{◌≡◌, IfOk};

use crate::want::Memory;

/// A value that is shared by a counted pointer, of a kind whose values only ever grow.
pub trait Grows {
    // The first value extends the second: it is the second, grown.
    ghost extends: { Self → Self → Type 0 };

    /// The same value once more. It copies no content, and the count of owners may have no room.
    fn share(&self) -> Result<Self, Memory>
        ensures { IfOk result (λ shared. shared ≡ self.now) };

    ghost reflexive: { (x : Self) → extends x x };

    ghost transitive: { (x y z : Self) → extends x y → extends y z → extends x z };
}
