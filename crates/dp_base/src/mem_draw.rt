//! Draws from memory, and from a stream of ChaCha20 (RFC 8439, with 64 bits of counter and of
//! stream number).

ghost use Rattle.std.specs.Prelude.{◌≡◌, ◌<◌, ◌≤◌, take, length, [], None, Some, IsTrue, IsFalse, IsErr, OnOk, OnErr, IsOk};
ghost use Rattle.rand_core.specs.Steps.{fill_via_u32};
ghost use Rattle.rand_chacha.specs.ChaCha.{key_of, next_word};
ghost use Rattle.dp_base.specs.Streams.{fails, draw_leaves, draw_failed};

use crate::draw::Draw;
use crate::source::Failed;
use rand_chacha::ChaCha20Rng;
use rand_core::SeedableRng;
use rand_core::utils::fill_bytes_via_u32;
use std::marker::Model;

/// A draw of bytes in memory. It tells them.
#[derive(Debug, Drop)]
pub struct MemDraw {
    bytes: Vec<u8>,
    at: usize,
    fail: Vec<u64>,
    calls: u64,
    faults: u64,
}

impl Model for MemDraw {
    ghost use Rattle.std.specs.Prelude.{◌≤◌, vec_len, drop};
    ghost use Rattle.dp_base.specs.Streams.{Coming};

    ghost Value = { Coming };

    ghost view = { λ d. record {
      coming = drop d.at d.bytes.items;
      fail = d.fail.items;
      calls = d.calls;
      faults = d.faults;
    } };

    ghost invariant = { λ d. d.at ≤ vec_len d.bytes };
}

impl MemDraw {
    /// A draw of the bytes, in order. The calls whose numbers, from 0, are in `fail` fail, and so
    /// does one that asks for more bytes than are left.
    pub fn new(bytes: Vec<u8>, fail: Vec<u64>) -> MemDraw
        ensures { result ≡ record {
          coming = bytes.items;
          fail = fail.items;
          calls = 0;
          faults = 0;
        } }
    {
        MemDraw {
            bytes,
            at: 0,
            fail,
            calls: 0,
            faults: 0,
        }
    }
}

impl Draw for MemDraw {
    ghost draws = { λ d. record {
      coming = Some d.coming;
      given = None;
      faults = d.faults;
      loan = None;
      lenders = [];
    } };

    fn fill(&mut self, out: &mut [u8]) -> Result<(), Failed>
        ensures told { IsTrue (fails self.old.fail self.old.calls) → IsErr result }
        ensures few { length self.old.coming < length out.new → IsErr result }
        ensures gives { IsFalse (fails self.old.fail self.old.calls)
            → length out.new ≤ length self.old.coming → IsOk result }
        ensures bytes { OnOk result (out.new ≡ take (length out.new) self.old.coming) }
        ensures ok { OnOk result (self.new ≡ draw_leaves self.old (length out.new)) }
        ensures err { OnErr result (self.new ≡ draw_failed self.old) }
    {
        let call = self.calls;
        self.calls = call.saturating_add(1);
        if self.fail.contains(&call) {
            self.faults = self.faults.saturating_add(1);
            return Err(Failed);
        }
        let rest = &self.bytes[self.at..];
        if rest.len() < out.len() {
            self.faults = self.faults.saturating_add(1);
            return Err(Failed);
        }
        out.copy_from_slice(&rest[..out.len()]);
        self.at += out.len();
        Ok(())
    }
}

/// A draw of a stream of ChaCha20: its words, each as 4 bytes, low byte first. What a call leaves of
/// a last word is dropped. It never fails.
#[derive(Drop)]
pub struct ChaChaDraw {
    rng: ChaCha20Rng,
}

impl Model for ChaChaDraw {
    ghost use Rattle.rand_chacha.specs.ChaCha.{ChaCha};

    ghost Value = { ChaCha };

    ghost view = { λ d. d.rng };
}

impl ChaChaDraw {
    /// The stream of this number under the key, from its beginning.
    pub fn new(key: [u8; 32], stream: u64) -> ChaChaDraw
        ensures { result ≡ record { key = key_of key; stream = stream; word_pos = 0 } }
    {
        let mut rng = ChaCha20Rng::from_seed(key);
        rng.set_stream(stream);
        ChaChaDraw { rng }
    }
}

impl Draw for ChaChaDraw {
    ghost draws = { λ _. record { coming = None; given = None; faults = 0; loan = None; lenders = [] } };

    fn fill(&mut self, out: &mut [u8]) -> Result<(), Failed>
        ensures ok { IsOk result }
        ensures bytes { (out.new, self.new)
            ≡ fill_via_u32 (next_word 10) (length out.old) self.old }
    {
        fill_bytes_via_u32(&mut self.rng, out);
        Ok(())
    }
}
