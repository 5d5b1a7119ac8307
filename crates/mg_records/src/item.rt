//! A mutation with its number as a record of a file.

ghost use Rattle.std.specs.Prelude.{◌≡◌, ◌++◌, ◌↔◌, length, take, IfOk, IsTrue, OnOk};
ghost use Rattle.mg_records.specs.Record.{IsContents, IsTaken, Measures};
ghost use Rattle.mg_records.specs.ItemRecord.{item_kind};

use crate::contents::Contents;
use crate::record::Record;
use mg_types::Item;
use std::alloc::{AllocError, Global};

impl Record for Item {
    ghost use Rattle.mg_records.specs.ItemRecord.{item_kind};
    ghost use Rattle.mg_records.specs.ItemLaws.{item_framed, item_lawful};

    ghost kind = { item_kind };

    fn seq(&self) -> u64 {
        self.seq
    }

    fn size(&self) -> u32 {
        Contents::of(self).size()
    }

    fn fits(&self) -> bool {
        let _contents = Contents::of(self);
        true
    }

    fn contents_len(&self) -> usize {
        Contents::of(self).spelled_len()
    }

    fn put_contents(&self, out: &mut Vec<u8>) -> Result<(), AllocError> {
        Contents::of(self).put(out)
    }

    fn measure(bytes: &[u8]) -> Option<usize> {
        let contents = Contents::read(bytes)?;
        Some(contents.spelled_len())
    }

    fn take(alloc: Global, seq: u64, contents: &[u8]) -> Result<Item, AllocError> {
        Contents::read(contents).unwrap().to_item(alloc, seq)
    }

    ghost lawful = { item_lawful };

    ghost framed = { item_framed };
}
