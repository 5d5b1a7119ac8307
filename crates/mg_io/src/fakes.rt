//! A source and a sink in memory, which fail where they are told to.

ghost use Rattle.std.specs.Prelude.{◌≡◌, ◌≤◌, ◌<◌, ◌↔◌, [], min, take, length, Some, IfOk, IsTrue, OnOk};
ghost use Rattle.std.specs.Result.{IsErrOf};
ghost use Rattle.std.specs.Io.{ReadsAtMost, WritesAtMost};
ghost use Rattle.std.specs.Io.KnownBytes.{ReadConsumes, WriteAppends};
ghost use Rattle.mg_faults.specs.Causes.{HasCause, CountsOnce, kept_count};
ghost use Rattle.mg_faults.specs.Calls.{no_calls, next_fails, after_call};
ghost use Rattle.mg_io.specs.Fakes.{read_answer};

use crate::errors::IoError;
use crate::traits::{Sink, Source};
use mg_faults::CallCounter;
use std::alloc::Global;
use std::marker::Model;

/// A source in memory. It gives at most `step` bytes a read, and the calls fail whose numbers, from 1, are
/// listed.
#[derive(Debug, Drop)]
pub struct MemSource {
    bytes: Vec<u8>,
    given: usize,
    step: usize,
    calls: CallCounter,
}

impl Model for MemSource {
    ghost use Rattle.std.specs.Prelude.{◌≤◌, drop, length};
    ghost use Rattle.mg_io.specs.Fakes.{SourceState};

    ghost Value = { SourceState };

    ghost view = { λ s. record { left = drop s.given s.bytes.items; step = s.step; calls = s.calls } };

    ghost invariant = { λ s. (s.given ≤ length s.bytes.items) × (1 ≤ s.step) };
}

impl MemSource {
    pub fn new(bytes: Vec<u8>, step: usize, failing: Vec<u64>) -> MemSource
        requires { 1 ≤ step }
        ensures { result ≡ record { left = bytes.items; step = step; calls = no_calls failing.items } }
    {
        MemSource {
            bytes,
            given: 0,
            step,
            calls: CallCounter::new(failing),
        }
    }
}

/// Copies as many bytes as fit, and as the limit allows.
fn copy_front(from: &[u8], limit: usize, into: &mut [u8]) -> usize
    ensures count { result ≡ min (min (length from.now) limit) (length into.old) }
    ensures bytes { take result into.new ≡ take result from.now }
{
    let count = from.len().min(limit).min(into.len());
    into[..count].copy_from_slice(&from[..count]);
    count
}

impl Source for MemSource {
    ghost left = { λ s. Some s.left };

    ghost use Rattle.mg_faults.proofs.CallLaws.{kept_is_bounded};

    ghost faults = { λ s. kept_count s.calls.faults };

    ghost bounded = { λ s. kept_is_bounded s.calls.faults };

    fn read(&mut self, buf: &mut [u8]) -> Result<usize, IoError>
        ensures bound { ReadsAtMost result buf.new }
        ensures bytes { ReadConsumes (Some self.old.left) (Some self.new.left) result buf.new }
        ensures cause { HasCause IoError.Failed (kept_count self.old.calls.faults) (kept_count self.new.calls.faults) result }
        ensures once { CountsOnce (kept_count self.old.calls.faults) (kept_count self.new.calls.faults) result }

        // It fails exactly where it is told to, and else gives all that it may.
        ensures exact { result ≡ read_answer self.old (length buf.old) }
        ensures counted { self.new.calls ≡ after_call self.old.calls }
        ensures step { self.new.step ≡ self.old.step }
    {
        if self.calls.count() {
            return Err(IoError::Failed);
        }
        let count = copy_front(&self.bytes[self.given..], self.step, buf);
        self.given += count;
        Ok(count)
    }
}

/// A sink in memory. The calls fail whose numbers, from 1, are listed.
#[derive(Debug, Drop)]
pub struct MemSink {
    written: Vec<u8>,
    calls: CallCounter,
}

impl Model for MemSink {
    ghost use Rattle.mg_io.specs.Fakes.{SinkState};

    ghost Value = { SinkState };

    ghost view = { λ s. record { written = s.written.items; calls = s.calls } };
}

impl MemSink {
    /// Takes no memory of its own until something is written.
    pub fn new(alloc: Global, failing: Vec<u64>) -> MemSink
        ensures { result ≡ record { written = []; calls = no_calls failing.items } }
    {
        MemSink {
            written: Vec::new(alloc),
            calls: CallCounter::new(failing),
        }
    }

    /// All bytes that were written.
    pub fn bytes(&self) -> &[u8]
        ensures { result.now ≡ self.now.written }
    {
        self.written.as_slice()
    }
}

impl Sink for MemSink {
    ghost written = { λ s. Some s.written };

    ghost use Rattle.mg_faults.proofs.CallLaws.{kept_is_bounded};

    ghost faults = { λ s. kept_count s.calls.faults };

    ghost bounded = { λ s. kept_is_bounded s.calls.faults };

    fn write(&mut self, bytes: &[u8]) -> Result<usize, IoError>
        ensures bound { WritesAtMost result bytes.now }
        ensures some { 0 < length bytes.now → IfOk result (λ count. 1 ≤ count) }
        ensures bytes { WriteAppends (Some self.old.written) (Some self.new.written) result bytes.now }
        ensures cause { HasCause IoError.Failed (kept_count self.old.calls.faults) (kept_count self.new.calls.faults) result }
        ensures once { CountsOnce (kept_count self.old.calls.faults) (kept_count self.new.calls.faults) result }

        // It fails exactly where it is told to, and else takes the whole piece.
        ensures fails { IsErrOf result IoError.Failed ↔ IsTrue (next_fails self.old.calls) }
        ensures count { IfOk result (λ count. count ≡ length bytes.now) }
        ensures counted { self.new.calls ≡ after_call self.old.calls }
    {
        if self.calls.count() {
            return Err(IoError::Failed);
        }
        self.written.extend_from_slice(bytes)?;
        Ok(bytes.len())
    }
}
