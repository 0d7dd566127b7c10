//! Values whose owners can be counted apart.

ghost use Rattle.std.specs.Prelude.{◌≡◌, IfOk};

use dp_base::{Grows, Memory};
use std::alloc::Global;

/// A value that a cell hands to its viewers.
pub trait Apart: Grows {
    /// The same value, with a count of owners of its own. Who shares and drops it writes nothing
    /// that other viewers read.
    fn apart(&self, alloc: Global) -> Result<Self, Memory>
        ensures { IfOk result (λ value. value ≡ self.now) };
}
