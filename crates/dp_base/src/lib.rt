//! What every crate of the key ring stands on: key ids, big-endian fields, algorithm codes, moments
//! in ticks, and the traits of the outside with their forms in memory and on the standard streams.
#![tactic(auto)]

mod alg;
mod cipher;
mod clock;
mod draw;
mod fields;
mod grows;
mod key_id;
mod kin;
mod mem_draw;
mod seven_bit;
mod sink;
mod source;
mod standard_streams;
mod streams;
mod system;
mod tape;
mod ticks;
mod transfer;
mod want;
mod xor;

pub use alg::{AesSize, Alg, BadCode, alg_of, code_of, iv_len, tag_len};
pub use cipher::{BlockCipher, Prf};
pub use clock::{Clock, MemClock};
pub use draw::{Draw, MAX_TAPE};
pub use fields::{be32, be64, take_be32, take_be64};
pub use grows::Grows;
pub use key_id::{
    KeyId, guid_bytes, guid_one_to_one, key_id_from_guid, key_id_of_draw, key_id_text,
};
pub use kin::Kin;
pub use mem_draw::{ChaChaDraw, MemDraw};
pub use seven_bit::{SevenBit, no_7bit_begins_another, put_7bit, take_7bit};
pub use sink::Sink;
pub use source::{Failed, Source};
pub use standard_streams::{ReadSource, StdSink, StdSource, WriteSink};
pub use streams::{MemSink, MemSource};
pub use system::{OsDraw, SystemClock};
pub use tape::Taped;
pub use ticks::{LAST, MAX_TICKS, TICKS_PER_DAY};
pub use transfer::{read_full, write_all};
pub use want::Memory;
pub use xor::xor_into;

#[cfg(test)]
mod tests;
