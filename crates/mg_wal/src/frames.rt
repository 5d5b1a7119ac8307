//! Frames that wait in memory.

ghost use Rattle.std.specs.Prelude.{◌≡◌, ◌++◌, ◌<◌, ◌≤◌, ◌^◌, [], length, take, drop, IfSome, OnOk, OnErr};
ghost use Rattle.mg_frame.specs.Frame.{frame};
ghost use Rattle.mg_wal_format.specs.Records.{mark_of, record_body, IsChange};

use mg_model::Change;
use mg_wal_format::put_record_frame;
use std::alloc::{AllocError, Global};
use std::marker::Model;

/// The frames of the pushed records that the next sync writes, and behind them that of the staged record.
#[derive(Debug, Drop)]
pub(crate) struct Frames {
    bytes: Vec<u8>,
    // how many of the bytes are of pushed records
    pushed: usize,
}

impl Model for Frames {
    ghost use Rattle.std.specs.Prelude.{◌≤◌, length, take, drop};
    ghost use Rattle.mg_wal.specs.Book as book;

    ghost Value = { book.Frames };

    ghost view = { λ f. record { waiting = take f.pushed f.bytes.items; staged = drop f.pushed f.bytes.items } };

    ghost invariant = { λ f. f.pushed ≤ length f.bytes.items };
}

/// Cuts the bytes from `start` to `end` out.
fn cut(bytes: &mut Vec<u8>, start: usize, end: usize)
    requires order { start ≤ end }
    requires within { end ≤ length bytes.old.items }
    ensures { bytes.new.items ≡ take start bytes.old.items ++ drop end bytes.old.items }
{
    drop(bytes.drain(start..end));
}

impl Frames {
    /// Takes no memory.
    pub(crate) fn new(alloc: Global) -> Frames
        ensures { result ≡ record { waiting = []; staged = [] } }
    {
        Frames {
            bytes: Vec::new(alloc),
            pushed: 0,
        }
    }

    /// The frames of the pushed records, one after another.
    pub(crate) fn waiting(&self) -> &[u8]
        ensures { result.now ≡ self.now.waiting }
    {
        &self.bytes[..self.pushed]
    }

    /// Spells a record in place of the staged one. The change is copied once.
    pub(crate) fn stage(
        &mut self,
        number: u64,
        part: u16,
        change: u64,
        what: &Change,
    ) -> Result<(), AllocError>
        requires number { number < 2 ^ 62 }
        requires change { change < 2 ^ 62 }
        requires mark { IfSome (mark_of what.now) (λ mark. mark < 2 ^ 62) }
        ensures ok { OnOk result (self.new ≡ record self.old { staged = frame number (record_body part change what.now) }) }
        ensures err { OnErr result (self.new ≡ self.old) }
        ensures form { IsChange what.now }
    {
        let end = self.bytes.len();
        put_record_frame(number, part, change, what, &mut self.bytes)?;
        cut(&mut self.bytes, self.pushed, end);
        Ok(())
    }

    /// What waited is written, so nothing waits any more.
    pub(crate) fn written(&mut self)
        ensures { self.new ≡ record self.old { waiting = [] } }
    {
        cut(&mut self.bytes, 0, self.pushed);
        self.pushed = 0;
    }

    /// The staged frame waits behind the others.
    pub(crate) fn push(&mut self)
        ensures { self.new ≡ record { waiting = self.old.waiting ++ self.old.staged; staged = [] } }
    {
        self.pushed = self.bytes.len();
    }
}
