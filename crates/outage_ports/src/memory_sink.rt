//! An output in memory, for tests.
ghost use Rattle.std.specs.Prelude.{◌≡◌, ◌≤◌, ◌<◌, ◌↔◌, ◌++◌, ◌==◌, [], Some, true, length, take, IfOk, OnOk, OnErr, IsErr};
ghost use Rattle.std.specs.List.{list_any};
ghost use Rattle.std.specs.Io.KnownBytes.{WriteAppends};
ghost use Rattle.outage_ports.specs.Causes.{HasCause, one_more};
ghost use Rattle.outage_ports.specs.MemorySink.{call_fails, write_fails, next_count, next_call};

use crate::faults::fault;
use crate::{Failed, Sink};
use std::alloc::{AllocError, Global};
use std::marker::Model;

/// An output in memory, of which one write takes at most so many bytes, and all together no more
/// than its room.
#[derive(Drop)]
pub struct MemorySink {
    bytes: Vec<u8>,
    failing: Vec<u64>,
    piece: usize,
    room: usize,
    calls: u64,
    faults: u64,
}

impl Model for MemorySink {
    ghost use Rattle.std.specs.Prelude.{◌<◌, ◌≤◌, vec_len, vec_capacity};
    ghost use Rattle.outage_ports.specs.MemorySink.{SinkState};

    ghost Value = { SinkState };

    ghost view = { λ s. record { bytes = s.bytes.items; failing = s.failing.items; piece = s.piece; room = s.room; calls = s.calls; faults = s.faults } };

    ghost invariant = { λ s. (0 < s.piece) × (vec_len s.bytes ≤ s.room) × (s.room ≤ vec_capacity s.bytes) };
}

impl MemorySink {
    /// An empty output with this room, of which one write takes at most `piece` bytes, and the
    /// calls of these numbers fail. Writes and flushes are numbered together from 0, and any past
    /// the number 2^64 - 1 have this number too. Fails where memory for the room is wanting.
    pub fn new(
        alloc: Global,
        failing: Vec<u64>,
        piece: usize,
        room: usize,
    ) -> Result<MemorySink, AllocError>
        requires { 0 < piece }
        ensures empty { IfOk result (λ sink. sink.bytes ≡ []) }
        ensures failing { IfOk result (λ sink. sink.failing ≡ failing.items) }
        ensures piece { IfOk result (λ sink. sink.piece ≡ piece) }
        ensures room { IfOk result (λ sink. sink.room ≡ room) }
        ensures no_calls { IfOk result (λ sink. sink.calls ≡ 0) }
        ensures no_faults { IfOk result (λ sink. sink.faults ≡ 0) }
    {
        Ok(MemorySink {
            bytes: Vec::with_capacity(alloc, room)?,
            failing,
            piece,
            room,
            calls: 0,
            faults: 0,
        })
    }

    // Numbers a call, and says whether it is one of those that fail.
    fn begin_call(&mut self) -> bool
        ensures fails { result ≡ call_fails self.old }
        ensures numbered { self.new ≡ record self.old { calls = next_call self.old.calls } }
    {
        let call = self.calls;
        self.calls = call.saturating_add(1);
        self.failing.iter().any(|failing| *failing == call)
    }

    /// The bytes that were written.
    pub fn bytes(&self) -> &[u8]
        ensures { result.now ≡ self.now.bytes }
    {
        &self.bytes
    }
}

impl Sink for MemorySink {
    ghost written = { λ sink. Some sink.bytes };

    ghost faults = { λ sink. sink.faults };

    fn write(&mut self, piece: &[u8]) -> Result<usize, Failed>
        requires { 0 < length piece.now }
        ensures some { IfOk result (λ n. 0 < n) }
        ensures bound { IfOk result (λ n. n ≤ length piece.now) }
        ensures bytes { WriteAppends (Some self.old.bytes) (Some self.new.bytes) result piece.now }
        ensures cause { HasCause self.old.faults self.new.faults result }
        ensures fails { IsErr result ↔ (write_fails self.old ≡ true) }
        ensures count { IfOk result (λ n. n ≡ next_count self.old (length piece.now)) }
        ensures ok { IfOk result (λ n. self.new ≡ record self.old { bytes = self.old.bytes ++ take n piece.now; calls = next_call self.old.calls }) }
        ensures err { OnErr result (self.new ≡ record self.old { calls = next_call self.old.calls; faults = one_more self.old.faults }) }
    {
        let fails = self.begin_call();
        let left = self.room - self.bytes.len();
        if fails || left == 0 {
            return fault(&mut self.faults);
        }
        let count = piece.len().min(self.piece).min(left);
        self.bytes.extend_from_slice(&piece[..count]).unwrap();
        Ok(count)
    }

    fn flush(&mut self) -> Result<(), Failed>
        ensures bytes { Some self.new.bytes ≡ Some self.old.bytes }
        ensures cause { HasCause self.old.faults self.new.faults result }
        ensures fails { IsErr result ↔ (call_fails self.old ≡ true) }
        ensures ok { OnOk result (self.new ≡ record self.old { calls = next_call self.old.calls }) }
        ensures err { OnErr result (self.new ≡ record self.old { calls = next_call self.old.calls; faults = one_more self.old.faults }) }
    {
        if self.begin_call() {
            return fault(&mut self.faults);
        }
        Ok(())
    }
}
