//! A source and a sink in memory, which move so many bytes a call and fail at the calls that they
//! are told.

ghost use Rattle.std.specs.Prelude.{◌≡◌, ◌<◌, ◌≤◌, ◌↔◌, ℕ, List, [], min, length, take, Some, IsTrue, IsErr, IfOk, OnErr};
ghost use Rattle.dp_base.specs.Streams.{fails, moved, read_leaves, read_failed, write_leaves, write_failed};

use crate::sink::Sink;
use crate::source::{Failed, Source};
use std::alloc::Global;
use std::marker::Model;

/// A source over bytes in memory. It tells them.
#[derive(Debug, Drop)]
pub struct MemSource {
    bytes: Vec<u8>,
    at: usize,
    piece: usize,
    fail: Vec<u64>,
    calls: u64,
    faults: u64,
}

impl Model for MemSource {
    ghost use Rattle.std.specs.Prelude.{◌≤◌, vec_len, drop};
    ghost use Rattle.dp_base.specs.Streams.{Input};

    ghost Value = { Input };

    ghost view = { λ s. record {
      left = drop s.at s.bytes.items;
      piece = s.piece;
      fail = s.fail.items;
      calls = s.calls;
      faults = s.faults;
    } };

    ghost invariant = { λ s. (s.at ≤ vec_len s.bytes) × (1 ≤ s.piece) };
}

impl MemSource {
    /// A source of the bytes that moves at most `piece` of them a call. The calls whose numbers,
    /// from 0, are in `fail` fail.
    pub fn new(bytes: Vec<u8>, piece: usize, fail: Vec<u64>) -> MemSource
        requires { 1 ≤ piece }
        ensures { result ≡ record {
          left = bytes.items;
          piece = piece;
          fail = fail.items;
          calls = 0;
          faults = 0;
        } }
    {
        MemSource {
            bytes,
            at: 0,
            piece,
            fail,
            calls: 0,
            faults: 0,
        }
    }
}

impl Source for MemSource {
    ghost left = { λ s. Some s.left };

    ghost faults = { λ s. s.faults };

    fn read(&mut self, buffer: &mut [u8]) -> Result<usize, Failed>
        ensures told { IsErr result ↔ IsTrue (fails self.old.fail self.old.calls) }
        ensures count { IfOk result (λ n. n ≡ moved self.old (length buffer.new)) }
        ensures bytes { IfOk result (λ n. take n buffer.new ≡ take n self.old.left) }
        ensures end { IfOk result (λ n. 0 < length buffer.new → n ≡ 0 → self.old.left ≡ []) }
        ensures ok { IfOk result (λ n. self.new ≡ read_leaves self.old n) }
        ensures err { OnErr result (self.new ≡ read_failed self.old) }
    {
        let call = self.calls;
        self.calls = call.saturating_add(1);
        if self.fail.contains(&call) {
            self.faults = self.faults.saturating_add(1);
            return Err(Failed);
        }
        let rest = &self.bytes[self.at..];
        let count = self.piece.min(buffer.len()).min(rest.len());
        buffer[..count].copy_from_slice(&rest[..count]);
        self.at += count;
        Ok(count)
    }
}

/// A sink into memory. It tells the bytes written.
#[derive(Debug, Drop)]
pub struct MemSink {
    bytes: Vec<u8>,
    piece: usize,
    fail: Vec<u64>,
    calls: u64,
    faults: u64,
}

impl Model for MemSink {
    ghost use Rattle.std.specs.Prelude.{◌≤◌};
    ghost use Rattle.dp_base.specs.Streams.{Output};

    ghost Value = { Output };

    ghost view = { λ s. record {
      written = s.bytes.items;
      piece = s.piece;
      fail = s.fail.items;
      calls = s.calls;
      faults = s.faults;
    } };

    ghost invariant = { λ s. 1 ≤ s.piece };
}

impl MemSink {
    /// An empty sink that takes at most `piece` bytes a call. The calls whose numbers, from 0, are
    /// in `fail` fail, and so does one that finds no memory for its bytes.
    pub fn new(alloc: Global, piece: usize, fail: Vec<u64>) -> MemSink
        requires { 1 ≤ piece }
        ensures { result ≡ record {
          written = [];
          piece = piece;
          fail = fail.items;
          calls = 0;
          faults = 0;
        } }
    {
        MemSink {
            bytes: Vec::new(alloc),
            piece,
            fail,
            calls: 0,
            faults: 0,
        }
    }

    /// The bytes written.
    pub fn into_bytes(self) -> Vec<u8>
        ensures { result.items ≡ self.written }
    {
        let MemSink {
            bytes,
            piece: _,
            fail: _,
            calls: _,
            faults: _,
        } = self;
        bytes
    }
}

impl Sink for MemSink {
    ghost written = { λ s. Some s.written };

    ghost faults = { λ s. s.faults };

    fn write(&mut self, piece: &[u8]) -> Result<usize, Failed>
        // A call that isn't to fail fails for want of memory alone.
        ensures told { IsTrue (fails self.old.fail self.old.calls) → IsErr result }
        ensures count { IfOk result (λ n. n ≡ min self.old.piece (length piece.now)) }
        ensures some { IfOk result (λ n. 0 < length piece.now → 0 < n) }
        ensures ok { IfOk result (λ n. self.new ≡ write_leaves self.old (take n piece.now)) }
        ensures err { OnErr result (self.new ≡ write_failed self.old) }
    {
        let call = self.calls;
        self.calls = call.saturating_add(1);
        let count = self.piece.min(piece.len());
        if self.fail.contains(&call) || self.bytes.extend_from_slice(&piece[..count]).is_err() {
            self.faults = self.faults.saturating_add(1);
            return Err(Failed);
        }
        Ok(count)
    }
}
