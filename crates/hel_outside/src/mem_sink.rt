ghost use Rattle.std.specs.Prelude.{◌≡◌, ◌≤◌, ◌↔◌, [], length, take, IsTrue, IsErr, IfOk, OnErr, Some};
ghost use Rattle.hel_outside.specs.MemSink.{new_sink, write_fails, fitting, after_write, after_fault};

use crate::sink::{Failed, Sink};
use hel_lists::OutOfMemory;
use std::alloc::Global;
use std::marker::Model;

/// A sink in memory, with room for a number of bytes. A write fails where its number, from 1, is
/// one of those listed when the sink was made, or where none of its bytes fits, and never
/// otherwise. It takes no memory.
#[derive(Debug, Drop)]
pub struct MemSink {
    bytes: Vec<u8>,
    room: usize,
    failing: Vec<u64>,
    calls: u64,
    faults: u64,
}

impl Model for MemSink {
    ghost use Rattle.std.specs.Prelude.{◌+◌, ◌≤◌, vec_len, vec_capacity};
    ghost use Rattle.hel_outside.specs.MemSink.{SinkInMemory};

    ghost Value = { SinkInMemory };

    ghost view = { λ s. record {
      bytes = s.bytes.items;
      room = s.room;
      failing = s.failing.items;
      calls = s.calls;
      faults = s.faults;
    } };

    ghost invariant = { λ s. vec_len s.bytes + s.room ≤ vec_capacity s.bytes };
}

impl MemSink {
    /// A sink with room for so many bytes, whose calls of these numbers are to fail.
    pub fn new(alloc: Global, room: usize, failing: &[u64]) -> Result<MemSink, OutOfMemory>
        ensures { IfOk result (λ made. made ≡ new_sink room failing.now) }
    {
        let bytes = Vec::with_capacity(alloc, room)?;
        let failing = failing.to_vec(alloc)?;
        Ok(MemSink {
            bytes,
            room,
            failing,
            calls: 0,
            faults: 0,
        })
    }

    /// Takes the bytes that fit; the answer is how many.
    pub fn write(&mut self, bytes: &[u8]) -> Result<usize, Failed>
        ensures fails { IsErr result ↔ IsTrue (write_fails self.old bytes.now) }
        ensures takes { IfOk result (λ n. n ≡ fitting self.old bytes.now) }
        ensures ok { IfOk result (λ n. self.new ≡ after_write self.old bytes.now n) }
        ensures err { OnErr result (self.new ≡ after_fault self.old) }
        ensures later { self.old.faults ≤ self.new.faults }
    {
        self.calls = self.calls.saturating_add(1);
        let taken = bytes.len().min(self.room);
        let is_full = taken == 0 && !bytes.is_empty();
        if is_full || self.failing.contains(&self.calls) {
            self.faults = self.faults.saturating_add(1);
            return Err(Failed);
        }
        self.bytes.extend_from_slice(&bytes[..taken]).unwrap();
        self.room -= taken;
        Ok(taken)
    }

    /// What was written.
    pub fn bytes(&self) -> &[u8]
        ensures { result.now ≡ self.now.bytes }
    {
        &self.bytes
    }

    /// How many more bytes fit.
    pub fn room(&self) -> usize
        ensures { result ≡ self.now.room }
    {
        self.room
    }

    /// How many calls were made.
    pub fn calls(&self) -> u64
        ensures { result ≡ self.now.calls }
    {
        self.calls
    }

    /// How many calls have failed.
    pub fn faults(&self) -> u64
        ensures { result ≡ self.now.faults }
    {
        self.faults
    }
}

impl Sink for MemSink {
    ghost faults = { λ s. s.faults };

    ghost written = { λ s. Some s.bytes };

    fn write(&mut self, bytes: &[u8]) -> Result<usize, Failed> {
        MemSink::write(self, bytes)
    }
}
