//! Reading until a buffer is full, and writing all of a text.

ghost use Rattle.std.specs.Prelude.{◌≡◌, ◌≤◌, IfOk, OnOk, OnErr, length, take};
ghost use Rattle.dp_base.specs.Counts.{one_more};
ghost use Rattle.dp_base.specs.Transfer.{TakesFront, TakesAtMost, TakesFewer, Writes, WritesFront};

use crate::sink::Sink;
use crate::source::{Failed, Source};

/// Reads until the buffer is full or the input ends, and answers how many bytes were read. After a
/// failure fewer than the buffer has room for are gone from the input.
pub fn read_full<I: Source>(input: &mut I, buffer: &mut [u8]) -> Result<usize, Failed>
    ensures bound { IfOk result (λ n. n ≤ length buffer.new) }
    ensures value { IfOk result (λ n.
        TakesFront (length buffer.new) (I.left input.old) (I.left input.new) (take n buffer.new)) }
    ensures takes { TakesAtMost (length buffer.new) (I.left input.old) (I.left input.new) }
    ensures fewer { OnErr result
        (TakesFewer (length buffer.new) (I.left input.old) (I.left input.new)) }
    ensures no_fault { OnOk result (I.faults input.new ≡ I.faults input.old) }
    ensures fault { OnErr result (I.faults input.new ≡ one_more (I.faults input.old)) }
{
    let mut count = 0;
    while count < buffer.len() {
        let more = input.read(&mut buffer[count..])?;
        if more == 0 {
            return Ok(count);
        }
        count += more;
    }
    Ok(count)
}

/// Writes all the bytes; after a failure a front of them is written.
pub fn write_all<O: Sink>(output: &mut O, bytes: &[u8]) -> Result<(), Failed>
    ensures ok { OnOk result (Writes (O.written output.old) (O.written output.new) bytes.now) }
    ensures err { OnErr result
        (WritesFront (O.written output.old) (O.written output.new) bytes.now) }
    ensures no_fault { OnOk result (O.faults output.new ≡ O.faults output.old) }
    ensures fault { OnErr result (O.faults output.new ≡ one_more (O.faults output.old)) }
{
    let mut at = 0;
    while at < bytes.len() {
        at += output.write(&bytes[at..])?;
    }
    Ok(())
}
