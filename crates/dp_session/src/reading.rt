//! Reading one frame of a session's input.

ghost use Rattle.std.specs.Prelude.{◌≡◌, ◌≢◌, ◌<◌, ◌≤◌, ◌+◌, ℕ, List, length, Err, IfOk, IfErr, OnOk, OnErr};
ghost use Rattle.std.specs.Int.{w32, to_be_bytes, from_be_bytes};
ghost use Rattle.dp_base.specs.Counts.{one_more};
ghost use Rattle.dp_base.specs.Transfer.{TakesFront, TakesFewer};
ghost use Rattle.dp_session.specs.declared.end.BadWhy.TheVariants.{Cut};
ghost use Rattle.dp_session.specs.declared.reading.Unread.TheVariants as unread;
ghost use Rattle.dp_wire.specs.Frame.{IsBodyLen};
ghost use Rattle.dp_session.specs.Frames.{IsBadLen, ReadsBody, ReadsFrame, why_of};

use crate::end::BadWhy;
use dp_base::{Failed, Source, read_full};
use dp_wire::{FrameRefused, frame_len};
use std::alloc::Global;

// How many bytes are read at once of a body that isn't kept.
const PIECE: usize = 4_096;

/// A request's body, which is kept where memory was found for it. It was read to its end.
#[derive(Debug, Drop)]
pub(crate) struct Body {
    pub kept: Option<Vec<u8>>,
    pub len: u32,
}

/// What stands next in the input: nothing, or a frame.
#[derive(Debug, Drop)]
pub(crate) enum Frame {
    End,
    Whole(Body),
}

/// Why no frame was read.
#[derive(Clone, Copy, Debug, PartialEq, Eq)]
pub(crate) enum Unread {
    Bad(BadWhy),
    Failed,
}

impl From<Failed> for Unread {
    ghost use Rattle.std.specs.Prelude.{◌≡◌};
    ghost use Rattle.dp_session.specs.declared.reading.Unread.TheVariants.{Failed};

    ghost from_gives = { λ _ refused. refused ≡ Failed };

    fn from(_: Failed) -> Unread {
        Unread::Failed
    }
}

// Reads so many bytes, or up to the end of input, and keeps none. Answers how many there were.
fn pass_over<I: Source>(input: &mut I, count: usize) -> Result<usize, Failed>
    ensures bound { IfOk result (λ n. n ≤ count) }
    ensures value { IfOk result (λ n. (bytes : List ℕ) × (length bytes ≡ n)
        × TakesFront count (I.left input.old) (I.left input.new) bytes) }
    ensures fewer { OnErr result (TakesFewer count (I.left input.old) (I.left input.new)) }
    ensures no_fault { OnOk result (I.faults input.new ≡ I.faults input.old) }
    ensures fault { OnErr result (I.faults input.new ≡ one_more (I.faults input.old)) }
{
    let mut piece = [0; PIECE];
    let mut done = 0;
    while done < count {
        let room = PIECE.min(count - done);
        let more = read_full(input, &mut piece[..room])?;
        done += more;
        if more < room {
            return Ok(done);
        }
    }
    Ok(done)
}

// The refusal of a body that ends early: so many of its bytes came.
fn cut(count: usize, len: u32) -> Unread
    requires { count < len }
    ensures { result ≡ unread.Bad (Cut (4 + count) (4 + len)) }
{
    Unread::Bad(BadWhy::Cut {
        have: 4 + count as u64,
        want: 4 + u64::from(len),
    })
}

// A body of so many bytes; one that finds no memory is passed over.
fn read_body<I: Source>(alloc: Global, input: &mut I, len: u32) -> Result<Body, Unread>
    ensures body { ReadsBody len result (I.left input.old) (I.left input.new) }
    ensures fault { result ≡ Err unread.Failed
        → I.faults input.new ≡ one_more (I.faults input.old) }
    ensures no_fault { result ≢ Err unread.Failed → I.faults input.new ≡ I.faults input.old }
{
    let count = len as usize;
    match Vec::from_elem(alloc, 0u8, count) {
        Ok(mut body) => {
            let found = read_full(input, body.as_mut_slice())?;
            if found < count {
                return Err(cut(found, len));
            }
            let kept = Some(body);
            Ok(Body { kept, len })
        }
        Err(_) => {
            let found = pass_over(input, count)?;
            if found < count {
                return Err(cut(found, len));
            }
            Ok(Body { kept: None, len })
        }
    }
}

fn why_of(refused: FrameRefused) -> BadWhy
    ensures { result ≡ why_of refused }
{
    match refused {
        FrameRefused::Zero => BadWhy::Zero,
        FrameRefused::TooLarge { len } => BadWhy::TooLarge { len },
    }
}

// The length of a body, by the first four bytes of its frame.
fn body_len(head: &[u8; 4]) -> Result<u32, BadWhy>
    ensures len { IfOk result (λ n. IsBodyLen n × (head.now ≡ to_be_bytes w32 n)) }
    ensures bad { IfErr result (IsBadLen (from_be_bytes w32 head.now)) }
{
    match frame_len(head) {
        Ok(len) => Ok(len),
        Err(refused) => Err(why_of(refused)),
    }
}

/// Reads one frame. The input ends lawfully only where none has begun.
pub(crate) fn read_frame<I: Source>(alloc: Global, input: &mut I) -> Result<Frame, Unread>
    ensures frame { ReadsFrame result (I.left input.old) (I.left input.new) }
    ensures fault { result ≡ Err unread.Failed
        → I.faults input.new ≡ one_more (I.faults input.old) }
    ensures no_fault { result ≢ Err unread.Failed → I.faults input.new ≡ I.faults input.old }
{
    let mut head = [0; 4];
    let count = read_full(input, &mut head)?;
    if count == 0 {
        return Ok(Frame::End);
    }
    if count < 4 {
        let have = count as u64;
        return Err(Unread::Bad(BadWhy::Cut { have, want: 4 }));
    }
    match body_len(&head) {
        Ok(len) => Ok(Frame::Whole(read_body(alloc, input, len)?)),
        Err(why) => Err(Unread::Bad(why)),
    }
}
