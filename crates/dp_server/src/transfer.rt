//! Reading all input, up to a limit.

ghost use Rattle.std.specs.Prelude.{◌≡◌, ◌≢◌, ◌+◌, Err, IfOk};
ghost use Rattle.dp_base.specs.Counts.{one_more};
ghost use Rattle.dp_server.specs.declared.transfer.ReadRefused.TheVariants as reads;
ghost use Rattle.dp_base.specs.Transfer.{TakesFront, TakesAtMost};

use dp_base::{Failed, Source};
use key_elements::{MAX_ELEMENTS, MAX_RECORD};
use std::alloc::{AllocError, Global};

/// The most bytes of a list of elements.
pub const MAX_INPUT: usize = MAX_ELEMENTS as usize * MAX_RECORD;

const _: () = prove!(MAX_INPUT == 17_219_584);

// How many bytes a read asks for.
const PIECE: usize = 4_096;

/// Why input wasn't read.
#[derive(Clone, Copy, Debug, PartialEq, Eq)]
pub enum ReadRefused {
    /// The source failed.
    Failed,
    /// No memory was found for the bytes.
    Memory,
}

impl From<Failed> for ReadRefused {
    ghost from_gives = { λ _ refused. refused ≡ reads.Failed };

    fn from(_: Failed) -> ReadRefused {
        ReadRefused::Failed
    }
}

impl From<AllocError> for ReadRefused {
    ghost from_gives = { λ _ refused. refused ≡ reads.Memory };

    fn from(_: AllocError) -> ReadRefused {
        ReadRefused::Memory
    }
}

/// Reads to the end of input, or to one byte more than a list may have. So much is no list, and is
/// refused by who reads the records.
pub fn read_input<I: Source>(alloc: Global, input: &mut I) -> Result<Vec<u8>, ReadRefused>
    ensures value { IfOk result (λ bytes.
        TakesFront (MAX_INPUT + 1) (I.left input.old) (I.left input.new) bytes.items) }
    ensures fault { result ≡ Err reads.Failed
        → I.faults input.new ≡ one_more (I.faults input.old) }
    ensures no_fault { result ≢ Err reads.Failed → I.faults input.new ≡ I.faults input.old }
    ensures takes { TakesAtMost (MAX_INPUT + 1) (I.left input.old) (I.left input.new) }
{
    let mut bytes = Vec::new(alloc);
    let mut buffer = [0; PIECE];
    while bytes.len() <= MAX_INPUT {
        let room = PIECE.min(MAX_INPUT + 1 - bytes.len());
        let count = input.read(&mut buffer[..room])?;
        if count == 0 {
            return Ok(bytes);
        }
        bytes.extend_from_slice(&buffer[..count])?;
    }
    Ok(bytes)
}
