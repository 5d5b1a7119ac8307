//! Readers and writers of `std` as sources and sinks.

ghost use Rattle.std.specs.Prelude.{◌≡◌, ◌<◌, ◌≤◌, length, IfOk, OnErr, OnOk};
ghost use Rattle.std.specs.Result.{IsErrOf};
ghost use Rattle.std.specs.Io.{ReadsAtMost, WritesAtMost};
ghost use Rattle.std.specs.Io.KnownBytes.{ReadConsumes, WriteAppends};
ghost use Rattle.mg_faults.specs.Causes.{HasCause, CountsOnce, kept_count, raised};

use crate::errors::IoError;
use crate::traits::{Sink, Source};
use mg_faults::FaultCount;
use std::io::{Read, Write};
use std::marker::Model;

/// A reader of `std` as a source: it tells what the reader tells, and counts each error.
#[derive(Debug, Drop)]
pub struct StdSource<R: Read> {
    inner: R,
    faults: FaultCount,
}

impl<R: Read> Model for StdSource<R> {
    ghost use Rattle.mg_io.specs.Told.{ToldBytes};

    ghost Value = { ToldBytes };

    ghost view = { λ s. record { bytes = R.remaining s.inner; faults = s.faults } };
}

impl<R: Read> StdSource<R> {
    pub fn new(inner: R) -> StdSource<R>
        ensures { result ≡ record { bytes = R.remaining inner; faults = 0 } }
    {
        StdSource {
            inner,
            faults: FaultCount::new(),
        }
    }
}

impl<R: Read> Source for StdSource<R> {
    ghost left = { λ s. s.bytes };

    ghost use Rattle.mg_faults.proofs.CallLaws.{kept_is_bounded};

    ghost faults = { λ s. kept_count s.faults };

    ghost bounded = { λ s. kept_is_bounded s.faults };

    fn read(&mut self, buf: &mut [u8]) -> Result<usize, IoError>
        ensures bound { ReadsAtMost result buf.new }
        ensures bytes { ReadConsumes self.old.bytes self.new.bytes result buf.new }
        ensures cause { HasCause IoError.Failed (kept_count self.old.faults) (kept_count self.new.faults) result }
        ensures once { CountsOnce (kept_count self.old.faults) (kept_count self.new.faults) result }
        ensures good { OnOk result (self.new.faults ≡ self.old.faults) }
        ensures failed { OnErr result (self.new.faults ≡ raised self.old.faults 1) }
        ensures memory { IsErrOf result IoError.NoMemory → ⊥ }
    {
        match self.inner.read(buf) {
            Ok(count) => Ok(count),
            Err(_) => {
                self.faults.rise();
                Err(IoError::Failed)
            }
        }
    }
}

/// A writer of `std` as a sink: it tells what the writer tells, and counts each error. A writer that takes
/// nothing of a piece counts as failed.
#[derive(Debug, Drop)]
pub struct StdSink<W: Write> {
    inner: W,
    faults: FaultCount,
}

impl<W: Write> Model for StdSink<W> {
    ghost use Rattle.mg_io.specs.Told.{ToldBytes};

    ghost Value = { ToldBytes };

    ghost view = { λ s. record { bytes = W.contents s.inner; faults = s.faults } };
}

impl<W: Write> StdSink<W> {
    pub fn new(inner: W) -> StdSink<W>
        ensures { result ≡ record { bytes = W.contents inner; faults = 0 } }
    {
        StdSink {
            inner,
            faults: FaultCount::new(),
        }
    }
}

impl<W: Write> Sink for StdSink<W> {
    ghost written = { λ s. s.bytes };

    ghost use Rattle.mg_faults.proofs.CallLaws.{kept_is_bounded};

    ghost faults = { λ s. kept_count s.faults };

    ghost bounded = { λ s. kept_is_bounded s.faults };

    fn write(&mut self, bytes: &[u8]) -> Result<usize, IoError>
        ensures bound { WritesAtMost result bytes.now }
        ensures bytes { WriteAppends self.old.bytes self.new.bytes result bytes.now }
        ensures some { 0 < length bytes.now → IfOk result (λ count. 1 ≤ count) }
        ensures cause { HasCause IoError.Failed (kept_count self.old.faults) (kept_count self.new.faults) result }
        ensures once { CountsOnce (kept_count self.old.faults) (kept_count self.new.faults) result }
        ensures good { OnOk result (self.new.faults ≡ self.old.faults) }
        ensures failed { OnErr result (self.new.faults ≡ raised self.old.faults 1) }
        ensures memory { IsErrOf result IoError.NoMemory → ⊥ }
    {
        match self.inner.write(bytes) {
            Ok(count) if count > 0 || bytes.is_empty() => Ok(count),
            Ok(_) | Err(_) => {
                self.faults.rise();
                Err(IoError::Failed)
            }
        }
    }
}
