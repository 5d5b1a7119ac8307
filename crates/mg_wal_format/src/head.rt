//! Heads: what the first frame of a log says of all changes before the log. The frame has the log's number; here is its body.

ghost use Rattle.std.specs.Prelude.{◌≡◌, ◌*◌, ◌++◌, ◌<◌, ◌^◌, ◌⊎◌, length, take, IfOk, IfErr, OnOk, IsOkUnless};
ghost use Rattle.mg_wal_format.specs.Faults.{head_fault, IsHeadRefused, IsNewestHeadFine, IsNewestHeadRefused};
ghost use Rattle.mg_wal_format.specs.Heads.{head_bytes, numbers_bytes, AreNumbers, IsHead, IsSoundHead};
ghost use Rattle.mg_wal_format.specs.Records.{IsReading};

use crate::faults::too_great;
use mg_frame::{put_u8, put_u16, put_u64, split_u8, split_u16, split_u64};
use mg_items::Items;
use mg_types::{Fault, FileId, is_number};
use std::alloc::{AllocError, Global};

/// The format of logs that this crate writes.
const FORMAT: u8 = 1;

/// The head of a log.
#[derive(Debug, Drop)]
pub struct Head {
    /// The number of the log's first record.
    pub first: u64,
    /// For each partition the number of its changes before that record.
    pub before: Items<u64>,
}

/// Appends the body of the head's frame. After an error a front of it may stand there.
#[tactic(auto, unfolding(crate::specs::Heads::head_bytes))]
pub fn put_head(head: &Head, out: &mut Vec<u8>) -> Result<(), AllocError>
    requires { IsSoundHead head.now }
    ensures ok { OnOk result (out.new.items ≡ out.old.items ++ head_bytes head.now) }
    ensures front { take (length out.old.items) out.new.items ≡ out.old.items }
{
    put_u8(FORMAT, out)?;
    put_u64(head.first, out)?;
    put_u16(head.before.len() as u16, out)?;
    put_numbers(head.before.as_slice(), out)
}

fn put_numbers(numbers: &[u64], out: &mut Vec<u8>) -> Result<(), AllocError>
    ensures ok { OnOk result (out.new.items ≡ out.old.items ++ numbers_bytes numbers.now) }
    ensures front { take (length out.old.items) out.new.items ≡ out.old.items }
{
    for number in numbers {
        put_u64(*number, out)?;
    }
    Ok(())
}

/// The numbers that the bytes spell.
fn read_numbers(alloc: Global, count: u16, bytes: &[u8]) -> Result<Items<u64>, Fault>
    requires { length bytes.now ≡ 8 * count }
    ensures read { IfOk result (λ numbers. AreNumbers numbers × (bytes.now ≡ numbers_bytes numbers)) }
    ensures err { IsOkUnless result Fault.NoMemory }
{
    let mut numbers = Vec::with_capacity(alloc, usize::from(count))?;
    let mut rest = bytes;
    for _ in 0..count {
        let (number, behind) = split_u64(rest).unwrap();
        numbers.push(number)?;
        rest = behind;
    }
    Ok(Items::from_vec(numbers))
}

/// The head that the body spells, all of it; none where it spells none.
#[tactic(auto, unfolding(crate::specs::Heads::head_bytes))]
fn split_head(alloc: Global, body: &[u8]) -> Result<Option<Head>, Fault>
    ensures read { IfOk result (λ found. IsReading IsHead head_bytes body.now found) }
    ensures err { IsOkUnless result Fault.NoMemory }
{
    let Some((format, rest)) = split_u8(body) else {
        return Ok(None);
    };
    if format != FORMAT {
        return Ok(None);
    }
    let Some((first, rest)) = split_u64(rest) else {
        return Ok(None);
    };
    let Some((count, rest)) = split_u16(rest) else {
        return Ok(None);
    };
    if rest.len() != 8 * usize::from(count) {
        return Ok(None);
    }
    let before = read_numbers(alloc, count, rest)?;
    Ok(Some(Head { first, before }))
}

/// Judges the newest head before all others: whether its body spells a head, and whether the partitions that are asked for
/// have room for those that it counts. What else may be wrong with it is left to `read_head`.
pub fn check_newest(alloc: Global, file: FileId, body: &[u8], parts: u16) -> Result<(), Fault>
    ensures fine { OnOk result (IsNewestHeadFine parts body.now) }
    ensures refusals { IfErr result (λ fault. (fault ≡ Fault.NoMemory) ⊎ IsNewestHeadRefused file parts body.now fault) }
{
    let Some(head) = split_head(alloc, body)? else {
        return Err(Fault::Malformed { file, at: 0 });
    };
    let kept = head.before.len() as u16;
    if parts < kept {
        return Err(Fault::FewerParts { asked: parts, kept });
    }
    Ok(())
}

/// What is wrong with the head of this log.
fn head_fault(file: FileId, head: &Head) -> Option<Fault>
    ensures { result ≡ head_fault file head.now }
{
    if !is_number(file.number) {
        return Some(too_great(file, 0, file.number));
    }
    if !is_number(head.first) {
        return Some(too_great(file, 0, head.first));
    }
    if head.first == 0 {
        return Some(Fault::Malformed { file, at: 0 });
    }
    for number in head.before.as_slice() {
        if !is_number(*number) {
            return Some(too_great(file, 0, *number));
        }
    }
    None
}

/// The head of this log, whose body stands in the frame at offset 0. A body that spells no head is malformed. Else the frame's
/// number, which is the log's own, and then the fields are judged from left to right: a first number of 0 is malformed, and a
/// number of 2^62 or more is damaged.
pub fn read_head(alloc: Global, file: FileId, body: &[u8]) -> Result<Head, Fault>
    ensures number { OnOk result (file.number < 2 ^ 62) }
    ensures head { IfOk result (λ head. IsSoundHead head × (body.now ≡ head_bytes head)) }
    ensures refusals { IfErr result (λ fault. (fault ≡ Fault.NoMemory) ⊎ IsHeadRefused file body.now fault) }
{
    let Some(head) = split_head(alloc, body)? else {
        return Err(Fault::Malformed { file, at: 0 });
    };
    match head_fault(file, &head) {
        Some(fault) => Err(fault),
        None => Ok(head),
    }
}
