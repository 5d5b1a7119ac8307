//! Entries and their payloads in blocks.

ghost use Rattle.std.specs.Prelude.{◌≡◌, ◌++◌, OnOk};
ghost use Rattle.mg_table.specs.Entries.{payload_of};
ghost use Rattle.mg_table.specs.Payload.{judged_payload};

use mg_frame::{get_u8, get_u32, get_u64, put_u8, put_u32, put_u64};
use mg_types::{Entry, MAX_SIZE, NUMBER_LIMIT};
use std::alloc::AllocError;

/// Appends the entry's payload in a block, or a front of it for want of memory.
#[tactic(auto, unfolding(crate::specs::Entries::payload_of))]
pub(crate) fn put_payload(entry: &Entry, out: &mut Vec<u8>) -> Result<(), AllocError>
    ensures { OnOk result (out.new.items ≡ out.old.items ++ payload_of entry.now) }
{
    put_u64(entry.seq, out)?;
    put_u32(entry.size, out)?;
    put_u8(u8::from(entry.gone), out)
}

/// What is wrong with the payload of an entry.
#[derive(Clone, Copy, Debug, PartialEq, Eq)]
pub(crate) enum Refused {
    /// A number of 2^62 or more.
    Number(u64),
    /// Anything else.
    Form,
}

/// The numbers of an entry.
#[derive(Clone, Copy, Debug, PartialEq, Eq)]
pub(crate) struct Payload {
    pub seq: u64,
    pub size: u32,
    pub gone: bool,
}

/// The numbers in a payload, or what is wrong with it. Fields are judged from left to right.
#[tactic(auto, unfolding(crate::specs::Payload::judged_payload, mg_frame::specs::BigEndian::front_number))]
pub(crate) fn take_payload(payload: &[u8]) -> Result<Payload, Refused>
    ensures { result ≡ judged_payload payload.now }
{
    if payload.len() != 13 {
        return Err(Refused::Form);
    }
    let seq = get_u64(payload, 0).unwrap_or(0);
    let size = get_u32(payload, 8).unwrap_or(0);
    let gone = get_u8(payload, 12).unwrap_or(0);
    if seq >= NUMBER_LIMIT {
        return Err(Refused::Number(seq));
    }
    if seq < 1 || size < 1 || size > MAX_SIZE || gone > 1 {
        return Err(Refused::Form);
    }
    let gone = gone == 1;
    Ok(Payload { seq, size, gone })
}
