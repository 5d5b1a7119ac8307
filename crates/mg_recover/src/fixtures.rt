//! Stores on volumes in memory, their calls and crashes, for tests.

ghost use Rattle.std.specs.Prelude.{◌≡◌, None, IfOk};
ghost use Rattle.mg_memdisk.specs.Volumes.{IsSettled};
ghost use Rattle.mg_recover.specs.Answers.{IsServed};
ghost use Rattle.mg_wal_format.specs.Recovery.{log_name};

use crate::opening::open;
use crate::store::Store;
use mg_disk::{DiskError, Host, Kind, Name, Volume};
use mg_frame::put_frame;
use mg_memdisk::{MemHost, MemVolume};
use mg_model::{Answer, Call, Doc, Fault, Key, Reply};
use mg_wal::RecoverError;
use std::alloc::Global;
use std::test::Fail;

/// A call of a row.
#[derive(Clone, Copy, Debug)]
pub(crate) enum Step {
    Set(&'static str, &'static str),
    Del(&'static str),
    Get(&'static str),
    /// A feed of at most five items, by the epoch and the number before them.
    Feed(u64, u64),
    Sync,
    Stats,
}

fn key(alloc: Global, name: &str) -> Result<Key, Fail> {
    Ok(Key::new(alloc, name.as_bytes())?.ok_or("no key")?)
}

fn call_of(alloc: Global, step: Step) -> Result<Call, Fail>
    ensures { IfOk result IsServed }
{
    Ok(match step {
        Step::Set(name, doc) => Call::Set {
            key: key(alloc, name)?,
            doc: Doc::new(alloc, doc.as_bytes())?.ok_or("no document")?,
        },
        Step::Del(name) => Call::Del {
            key: key(alloc, name)?,
        },
        Step::Get(name) => Call::Get {
            key: key(alloc, name)?,
        },
        Step::Feed(epoch, after) => Call::Feed {
            epoch,
            after,
            limit: 5,
        },
        Step::Sync => Call::Sync,
        Step::Stats => Call::Stats,
    })
}

/// The answer to a call of the partition.
pub(crate) fn ask(
    alloc: Global,
    store: &mut Store<MemVolume>,
    part: u16,
    step: Step,
) -> Result<Answer, Fail> {
    let call = call_of(alloc, step)?;
    if usize::from(part) >= store.partitions.len() {
        return Err(Fail::from("no such partition"));
    }
    if store.places(part) >= 1 << 62 {
        return Err(Fail::from("no place is left"));
    }
    Ok(store.call(alloc, part, call))
}

/// What an answer says as text: of a feed's items their numbers, of a document its bytes as numbers.
pub(crate) fn text_of(alloc: Global, answer: &Answer) -> Result<String, Fail> {
    Ok(match &answer.result {
        Ok(Reply::Found { seq, doc }) => format!(in alloc; "Found {seq} {:?}", doc.bytes())?,
        Ok(Reply::Feed { epoch, end, items }) => {
            let mut seqs = Vec::new(alloc);
            for item in items.as_slice() {
                seqs.push(item.seq)?;
            }
            format!(in alloc; "Feed {epoch} {end} {:?}", seqs.as_slice())?
        }
        Ok(other) => format!(in alloc; "{other:?}")?,
        Err(fault) => format!(in alloc; "{fault:?}")?,
    })
}

/// A call of a partition, with the place and the text of its answer.
pub(crate) type Row = (u16, Step, Option<u64>, &'static str);

/// Whether the store answers these calls so, one after the other; else the first that it answers otherwise, and how.
pub(crate) fn other_answer(
    alloc: Global,
    store: &mut Store<MemVolume>,
    rows: &[Row],
) -> Result<Option<String>, Fail> {
    for (part, step, place, text) in rows {
        let answer = ask(alloc, store, *part, *step)?;
        let told = text_of(alloc, &answer)?;
        if answer.place != *place || told.as_str() != *text {
            let other = format!(in alloc; "{part} {step:?}: {:?} {told}", answer.place)?;
            return Ok(Some(other));
        }
    }
    Ok(None)
}

/// Makes these calls, whatever they are answered.
pub(crate) fn ask_all(
    alloc: Global,
    store: &mut Store<MemVolume>,
    steps: &[(u16, Step)],
) -> Result<(), Fail> {
    for (part, step) in steps {
        ask(alloc, store, *part, *step)?;
    }
    Ok(())
}

/// Makes all changes lasting, where the store has a partition.
pub(crate) fn finish(alloc: Global, store: &mut Store<MemVolume>) -> Result<(), Fail> {
    if store.partitions.is_empty() {
        return Err(Fail::from("no partition"));
    }
    store.finish(alloc)?;
    Ok(())
}

/// The lengths and epochs of the partitions.
pub(crate) fn lengths_of(alloc: Global, store: &Store<MemVolume>) -> Result<Vec<(u64, u64)>, Fail> {
    let mut lengths = Vec::new(alloc);
    for partition in &store.partitions {
        lengths.push((partition.plain.length(), partition.plain.epoch()))?;
    }
    Ok(lengths)
}

/// The name of the log with this number.
fn log_name(number: u64) -> Name
    ensures { result ≡ log_name number }
{
    Name {
        kind: Kind::Wal,
        number,
    }
}

/// The bytes of the log with this number, up to 1000.
pub(crate) fn log_bytes<V: Volume>(
    alloc: Global,
    vol: &mut V,
    number: u64,
) -> Result<Vec<u8>, Fail> {
    let name = log_name(number);
    if !vol.names(alloc)?.contains(&name) {
        return Err(Fail::from("no such log"));
    }
    let mut bytes = Vec::new(alloc);
    bytes.resize(1000, 0u8)?;
    let count = vol.read_log(alloc, name, 0, &mut bytes)?;
    bytes.truncate(count);
    Ok(bytes)
}

/// The frames of these numbers and bodies.
pub(crate) fn frames(alloc: Global, entries: &[(u64, &[u8])]) -> Result<Vec<u8>, Fail> {
    let mut bytes = Vec::new(alloc);
    for (number, body) in entries {
        if body.len() < 1000 {
            put_frame(*number, body, &mut bytes)?;
        }
    }
    Ok(bytes)
}

/// Makes a log of these bytes.
fn put_log(alloc: Global, vol: &mut MemVolume, number: u64, bytes: &[u8]) -> Result<(), DiskError> {
    let name = log_name(number);
    let mut log = vol.new_log(alloc, name)?;
    vol.append(alloc, &mut log, bytes)
}

/// A volume that has logs of these frames.
pub(crate) fn volume_with(
    alloc: Global,
    logs: &[(u64, &[(u64, &[u8])])],
) -> Result<MemVolume, Fail> {
    let mut vol = MemVolume::new(alloc, Vec::new(alloc));
    for (number, entries) in logs {
        put_log(alloc, &mut vol, *number, &frames(alloc, entries)?)?;
    }
    Ok(vol)
}

/// A volume without a log, whose calls with these numbers fail. The opening of a store makes the first.
pub(crate) fn failing(alloc: Global, calls: &[u64]) -> Result<MemVolume, Fail> {
    Ok(MemVolume::new(alloc, calls.to_vec(alloc)?))
}

/// The volume with all that it has made lasting.
fn at_rest(alloc: Global, vol: MemVolume) -> Result<MemVolume, Fail>
    ensures { IfOk result (λ vol. IsSettled vol) }
{
    let mut host = MemHost::new(alloc, None);
    host.put(3, vol)?;
    Ok(host.volume(alloc, 3)?)
}

fn fault_of(error: RecoverError<MemVolume>) -> Fault {
    error.fault
}

/// The store of so many partitions on the volume, once all that the volume has is lasting.
pub(crate) fn opened(alloc: Global, vol: MemVolume, parts: u16) -> Result<Store<MemVolume>, Fail> {
    let vol = at_rest(alloc, vol)?;
    Ok(open(alloc, vol, parts).map_err(fault_of)?)
}

/// The refusal of an opening of the volume, once all that it has is lasting. None where it opens.
pub(crate) fn refused(
    alloc: Global,
    vol: MemVolume,
    parts: u16,
) -> Result<Option<RecoverError<MemVolume>>, Fail> {
    let vol = at_rest(alloc, vol)?;
    Ok(open(alloc, vol, parts).err())
}
