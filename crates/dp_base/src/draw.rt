//! Where random bytes come from.

ghost use Rattle.std.specs.Prelude.{[], OnOk, OnErr};
ghost use Rattle.dp_base.specs.Draws.{DrawState, Draws};

use crate::source::Failed;

/// The most bytes that a draw tells of those that it gave.
pub const MAX_TAPE: usize = 128;

const _: () = prove!(MAX_TAPE == 128);

/// A source of random bytes. It counts its faults.
pub trait Draw {
    // What is told of its bytes, and how many calls failed.
    ghost draws: { Self → DrawState };

    /// Fills the whole buffer, or nothing is given.
    fn fill(&mut self, out: &mut [u8]) -> Result<(), Failed>
        ensures ok { OnOk result (Draws 0 out.new (draws self.old) (draws self.new)) }
        ensures err { OnErr result (Draws 1 [] (draws self.old) (draws self.new)) };
}
