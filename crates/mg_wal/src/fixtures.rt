//! Volumes in memory and openings of them, for tests.

ghost use Rattle.std.specs.Prelude.{◌≡◌, None, IfOk};
ghost use Rattle.mg_memdisk.specs.Volumes.{IsSettled};
ghost use Rattle.mg_wal_format.specs.Records.{mark_of};
ghost use Rattle.mg_wal.specs.Book.{parts_in};
ghost use Rattle.mg_wal.specs.States.{book_of};

use crate::known::log_name;
use crate::recovery::{RecoverError, recover};
use crate::state::WalState;
use mg_disk::{DiskError, Host, Kind, Volume, numbers};
use mg_frame::put_frame;
use mg_memdisk::{MemHost, MemVolume};
use mg_model::Change;
use mg_types::{Doc, Fault, Key};
use mg_wal_format::Rec;
use std::alloc::Global;
use std::test::Fail;

pub(crate) fn set(alloc: Global, key: &[u8], doc: &[u8]) -> Result<Change, Fail>
    ensures { IfOk result (λ change. mark_of change ≡ None) }
{
    Ok(Change::Set {
        key: Key::new(alloc, key)?.ok_or("no key")?,
        doc: Doc::new(alloc, doc)?.ok_or("no document")?,
    })
}

/// The frames of these numbers and bodies.
pub(crate) fn frames(alloc: Global, entries: &[(u64, &[u8])]) -> Result<Vec<u8>, Fail> {
    let mut bytes = Vec::new(alloc);
    for (number, body) in entries {
        if body.len() < 1000 {
            put_frame(*number, body, &mut bytes)?;
        }
    }
    Ok(bytes)
}

/// Whether the volume has a log of this number, of these bytes.
pub(crate) fn has_log<V: Volume>(
    alloc: Global,
    vol: &mut V,
    number: u64,
    want: &[u8],
) -> Result<bool, Fail> {
    let name = log_name(number);
    if !vol.names(alloc)?.contains(&name) {
        return Ok(false);
    }
    let mut buf = Vec::new(alloc);
    buf.resize(1000, 0u8)?;
    let count = vol.read_log(alloc, name, 0, &mut buf)?;
    Ok(&buf[..count] == want)
}

/// The numbers of the volume's logs, in their order.
pub(crate) fn log_numbers(alloc: Global, vol: &mut MemVolume) -> Result<Vec<u64>, Fail> {
    let names = vol.names(alloc)?;
    Ok(numbers(alloc, &names, Kind::Wal)?)
}

/// Makes a log of these bytes, by two calls.
fn put_log(alloc: Global, vol: &mut MemVolume, number: u64, bytes: &[u8]) -> Result<(), DiskError> {
    let name = log_name(number);
    let mut log = vol.new_log(alloc, name)?;
    vol.append(alloc, &mut log, bytes)
}

/// A volume that has these logs, each made by two calls. Its calls with these numbers fail.
pub(crate) fn volume_with(
    alloc: Global,
    failing: &[u64],
    logs: &[(u64, Vec<u8>)],
) -> Result<MemVolume, Fail> {
    let mut vol = MemVolume::new(alloc, failing.to_vec(alloc)?);
    for (number, bytes) in logs {
        put_log(alloc, &mut vol, *number, bytes)?;
    }
    Ok(vol)
}

/// The volume with all that it has made lasting.
fn at_rest(alloc: Global, vol: MemVolume) -> Result<MemVolume, Fail>
    ensures { IfOk result (λ vol. IsSettled vol) }
{
    let mut host = MemHost::new(alloc, None);
    host.put(3, vol)?;
    Ok(host.volume(alloc, 3)?)
}

fn fault_of(error: RecoverError<MemVolume>) -> Fault {
    error.fault
}

/// What an opening of the volume for so many partitions gives, once all that it has is lasting.
pub(crate) fn opened(
    alloc: Global,
    vol: MemVolume,
    parts: u16,
) -> Result<(WalState<MemVolume>, Vec<Rec>, Vec<u64>), Fail>
    ensures parts { IfOk result (λ found. parts_in (book_of found.0) ≡ parts) }
{
    let vol = at_rest(alloc, vol)?;
    Ok(recover(alloc, vol, parts).map_err(fault_of)?)
}

/// The refusal of an opening of the volume, once all that it has is lasting. None where it opens.
pub(crate) fn refused(
    alloc: Global,
    vol: MemVolume,
    parts: u16,
) -> Result<Option<RecoverError<MemVolume>>, Fail> {
    let vol = at_rest(alloc, vol)?;
    Ok(recover(alloc, vol, parts).err())
}
