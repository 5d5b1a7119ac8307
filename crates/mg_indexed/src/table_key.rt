//! Keys as first keys, in tables.

ghost use Rattle.std.specs.Prelude.{◌≡◌, ◌↔◌, [], IsTrue};
ghost use Rattle.mg_indexed.specs.Index.{first_after};
ghost use Rattle.mg_indexed.specs.TableKeys.{table_keys, MayFollow};

use crate::handle::BlockHandle;
use crate::key::BlockKey;
use mg_frame::{put_short, split_short};
use mg_sealed::malformed;
use mg_types::{Fault, FileId, Key};
use std::alloc::{AllocError, Global};
use std::cmp::Ordering;

impl BlockKey for Key {
    ghost use Rattle.mg_indexed.specs.TableKeys.{table_keys};
    ghost use Rattle.mg_indexed.specs.TableKeyLaws.{table_lawful};

    ghost keys = { table_keys };

    fn put(&self, out: &mut Vec<u8>) -> Result<(), AllocError> {
        put_short(self.bytes(), out)
    }

    fn is_before(&self, other: &Key) -> bool {
        self.bytes().cmp(other.bytes()) == Ordering::Less
    }

    fn spelled_len(&self) -> u64 {
        1 + self.bytes().len() as u64
    }

    fn split(bytes: &[u8]) -> Option<(&[u8], &[u8])> {
        let (key, _) = split_short(bytes)?;
        Some(bytes.split_at(1 + key.len()))
    }

    fn read(
        alloc: Global,
        id: FileId,
        at: u64,
        before: &[BlockHandle<Key>],
        spelled: &[u8],
    ) -> Result<Key, Fault> {
        let (key, _) = split_short(spelled).unwrap();
        if !may_follow(last_key(before), key) {
            return Err(malformed(id, at));
        }
        let key = Key::new(alloc, key)?;
        Ok(key.unwrap())
    }

    ghost lawful = { table_lawful };
}

/// Whether a block with this first key may follow one with the key `previous`.
fn may_follow(previous: &[u8], key: &[u8]) -> bool
    ensures { IsTrue result ↔ MayFollow previous.now key.now }
{
    previous.cmp(key) == Ordering::Less && key.len() <= Key::MAX_LEN
}

/// The first key of the last block, empty where there is none.
fn last_key(handles: &[BlockHandle<Key>]) -> &[u8]
    ensures { result.now ≡ first_after [] handles.now }
{
    match handles.last() {
        Some(handle) => handle.first.bytes(),
        None => &[],
    }
}
