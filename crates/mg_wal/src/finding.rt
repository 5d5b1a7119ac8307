//! The logs of a volume, and the first frame of each.

ghost use Rattle.std.specs.Prelude.{◌≡◌, ◌≤◌, ◌⊎◌, ℕ, List, length, take, IfOk, IfErr, IsSome, IsTrue};
ghost use Rattle.std.specs.List.{AllByRecursion};
ghost use Rattle.std.specs.List.Sorted.{IsStrictlyIncreasing};
ghost use Rattle.mg_disk.specs.Images.{Stays};
ghost use Rattle.mg_faults.specs.Causes.{CountsOnce, HasCause};
ghost use Rattle.mg_wal_format.specs.Recovery.{log_name};
ghost use Rattle.mg_wal.specs.Findings.{AreNumbers, HasFound, IsBody, IsFirstBody, IsFirstSize, IsSize};

use crate::devices::read_fault;
use crate::known::log_name;
use crate::pieces::read_piece;
use mg_disk::{Kind, Volume, numbers};
use mg_frame::{FRAME_HEADER, Taken, take_frame};
use mg_items::Items;
use mg_types::Fault;
use std::alloc::{AllocError, Global};

/// A log whose first frame is whole, with that frame's body.
#[derive(Debug, Drop)]
pub(crate) struct HeadFrame {
    pub(crate) number: u64,
    pub(crate) body: Items<u8>,
}

/// The logs of a volume.
#[derive(Debug, Drop)]
pub(crate) struct FoundLogs {
    // those that begin with the whole frame of their own number, in the order of their numbers
    pub(crate) whole: Vec<HeadFrame>,
    // the numbers of the others, in their order
    pub(crate) strays: Vec<u64>,
    // the greatest number of all; 0 without a log
    pub(crate) newest: u64,
}

/// The logs of a volume. Of each only the first frame is read.
pub(crate) fn find_logs<V: Volume>(alloc: Global, vol: &mut V) -> Result<FoundLogs, Fault>
    ensures found { IsTrue V.tells → IfOk result (λ logs. HasFound (V.view vol.old).contents logs) }
    ensures below { IfOk result (λ logs. AllByRecursion (λ log. log.number ≤ logs.newest) logs.whole.items) }
    ensures stays { IsTrue V.tells → Stays (V.view vol.old) (V.view vol.new) }
    ensures kinds { IfErr result (λ fault. (fault ≡ Fault.NoMemory) ⊎ (fault ≡ Fault.ReadFault)) }
    ensures cause { HasCause Fault.ReadFault (V.faults vol.old) (V.faults vol.new) result }
    ensures once { CountsOnce (V.faults vol.old) (V.faults vol.new) result }
{
    let numbers = log_numbers(alloc, vol)?;
    let newest = numbers.last().copied().unwrap_or(0);
    let mut whole = Vec::new(alloc);
    let mut strays = Vec::new(alloc);
    for number in &numbers {
        let number = *number;
        match read_first(alloc, vol, number)? {
            Some(body) => whole.push(HeadFrame { number, body })?,
            None => strays.push(number)?,
        }
    }
    Ok(FoundLogs {
        whole,
        strays,
        newest,
    })
}

/// The numbers of the logs in rising order. A volume that doesn't tell what it holds may name a log twice.
fn log_numbers<V: Volume>(alloc: Global, vol: &mut V) -> Result<Vec<u64>, Fault>
    ensures all { IsTrue V.tells → IfOk result (λ numbers. AreNumbers (V.view vol.old).contents numbers.items) }
    ensures rise { IfOk result (λ numbers. IsStrictlyIncreasing numbers.items) }
    ensures stays { IsTrue V.tells → Stays (V.view vol.old) (V.view vol.new) }
    ensures kinds { IfErr result (λ fault. (fault ≡ Fault.NoMemory) ⊎ (fault ≡ Fault.ReadFault)) }
    ensures cause { HasCause Fault.ReadFault (V.faults vol.old) (V.faults vol.new) result }
    ensures once { CountsOnce (V.faults vol.old) (V.faults vol.new) result }
{
    let names = vol.names(alloc).map_err(read_fault)?;
    let mut numbers = numbers(alloc, &names, Kind::Wal)?;
    numbers.dedup();
    Ok(numbers)
}

/// The body of the log's first frame, where that is whole and has the log's own number.
fn read_first<V: Volume>(
    alloc: Global,
    vol: &mut V,
    number: u64,
) -> Result<Option<Items<u8>>, Fault>
    requires there { IsTrue V.tells → IsSome ((V.view vol.old).contents (log_name number)) }
    ensures first { IsTrue V.tells → IfOk result (λ body. IsFirstBody (V.view vol.old).contents number body) }
    ensures stays { IsTrue V.tells → Stays (V.view vol.old) (V.view vol.new) }
    ensures kinds { IfErr result (λ fault. (fault ≡ Fault.NoMemory) ⊎ (fault ≡ Fault.ReadFault)) }
    ensures cause { HasCause Fault.ReadFault (V.faults vol.old) (V.faults vol.new) result }
    ensures once { CountsOnce (V.faults vol.old) (V.faults vol.new) result }
{
    let Some(size) = first_size(alloc, vol, number)? else {
        return Ok(None);
    };
    let name = log_name(number);
    let frame = read_piece(alloc, vol, name, 0, size)?;
    let body = body_of(alloc, &frame, number)?;
    Ok(body)
}

/// The body of the frame of this number, where that is whole.
fn body_of(alloc: Global, frame: &[u8], number: u64) -> Result<Option<Items<u8>>, AllocError>
    ensures { IfOk result (λ body. IsBody number frame.now body) }
{
    let Taken::Whole { start, end, .. } = take_frame(frame, 0, number) else {
        return Ok(None);
    };
    let body = Items::from_slice(alloc, &frame[start..end])?;
    Ok(Some(body))
}

/// How many bytes the log's first frame has by its header, where the log is that long.
fn first_size<V: Volume>(alloc: Global, vol: &mut V, number: u64) -> Result<Option<usize>, Fault>
    requires there { IsTrue V.tells → IsSome ((V.view vol.old).contents (log_name number)) }
    ensures size { IsTrue V.tells → IfOk result (λ size. IsFirstSize (V.view vol.old).contents number size) }
    ensures stays { IsTrue V.tells → Stays (V.view vol.old) (V.view vol.new) }
    ensures kinds { IfErr result (λ fault. (fault ≡ Fault.NoMemory) ⊎ (fault ≡ Fault.ReadFault)) }
    ensures cause { HasCause Fault.ReadFault (V.faults vol.old) (V.faults vol.new) result }
    ensures once { CountsOnce (V.faults vol.old) (V.faults vol.new) result }
{
    let name = log_name(number);
    let len = vol.log_len(alloc, name).map_err(read_fault)?;
    let header = read_piece(alloc, vol, name, 0, FRAME_HEADER)?;
    Ok(size_by(&header, len, number))
}

/// How many bytes the frame with this header has, where there are so many. Of fewer bytes than a header has, all are given.
fn size_by(header: &[u8], len: u64, number: u64) -> Option<usize>
    ensures { (bytes : List ℕ) → len ≡ length bytes → header.now ≡ take 12 bytes → IsSize number bytes result }
{
    let Taken::Short { want, .. } = take_frame(header, 0, number) else {
        return None;
    };
    if want <= len {
        Some(want as usize)
    } else {
        None
    }
}
