//! An entry of a delete list as a record of a file.

ghost use Rattle.std.specs.Prelude.{◌≡◌, ◌++◌, ◌↔◌, length, take, IfOk, IsTrue, OnOk};
ghost use Rattle.mg_records.specs.DeadRecord.{dead_kind};
ghost use Rattle.mg_records.specs.Record.{IsContents, IsTaken, Measures};

use crate::record::Record;
use mg_frame::{put_u32, split_u32};
use mg_types::{Dead, is_size};
use std::alloc::{AllocError, Global};

/// The bytes of a size.
const SIZE_LEN: usize = 4;

impl Record for Dead {
    ghost use Rattle.mg_records.specs.DeadRecord.{dead_kind};
    ghost use Rattle.mg_records.specs.DeadLaws.{dead_framed, dead_lawful};

    ghost kind = { dead_kind };

    fn seq(&self) -> u64 {
        self.seq
    }

    fn size(&self) -> u32 {
        self.size
    }

    fn fits(&self) -> bool {
        is_size(self.size)
    }

    fn contents_len(&self) -> usize {
        SIZE_LEN
    }

    fn put_contents(&self, out: &mut Vec<u8>) -> Result<(), AllocError> {
        put_u32(self.size, out)
    }

    fn measure(bytes: &[u8]) -> Option<usize> {
        let (size, _) = split_u32(bytes)?;
        if !is_size(size) {
            return None;
        }
        Some(SIZE_LEN)
    }

    fn take(_alloc: Global, seq: u64, contents: &[u8]) -> Result<Dead, AllocError> {
        let (size, _) = split_u32(contents).unwrap();
        Ok(Dead { seq, size })
    }

    ghost lawful = { dead_lawful };

    ghost framed = { dead_framed };
}
