//! Sequence numbers as first keys, in files of records.

ghost use Rattle.std.specs.Prelude.{◌≡◌, ◌+◌};
ghost use Rattle.mg_indexed.specs.Index.{first_after};
ghost use Rattle.mg_indexed.specs.NumberKeys.{number_keys};

use crate::handle::BlockHandle;
use crate::key::BlockKey;
use mg_frame::{put_u64, split_u64};
use mg_sealed::{check_numbers, malformed};
use mg_types::{Fault, FileId};
use std::alloc::{AllocError, Global};

/// The bytes of a number.
const NUMBER_LEN: usize = 8;

impl BlockKey for u64 {
    ghost use Rattle.mg_indexed.specs.NumberKeys.{number_keys};
    ghost use Rattle.mg_indexed.specs.NumberKeyLaws.{number_lawful};

    ghost keys = { number_keys };

    fn put(&self, out: &mut Vec<u8>) -> Result<(), AllocError> {
        put_u64(*self, out)
    }

    fn is_before(&self, other: &u64) -> bool {
        self < other
    }

    fn spelled_len(&self) -> u64 {
        NUMBER_LEN as u64
    }

    fn split(bytes: &[u8]) -> Option<(&[u8], &[u8])> {
        split_u64(bytes)?;
        Some(bytes.split_at(NUMBER_LEN))
    }

    fn read(
        _alloc: Global,
        id: FileId,
        at: u64,
        before: &[BlockHandle<u64>],
        spelled: &[u8],
    ) -> Result<u64, Fault> {
        let (number, _) = split_u64(spelled).unwrap();
        check_numbers(id, at, &[number])?;
        if number <= last_number(before) {
            return Err(malformed(id, at));
        }
        Ok(number)
    }

    ghost lawful = { number_lawful };
}

/// The first number of the last block, 0 where there is none.
fn last_number(handles: &[BlockHandle<u64>]) -> u64
    ensures { result ≡ first_after 0 handles.now }
{
    match handles.last() {
        Some(handle) => handle.first,
        None => 0,
    }
}
