//! A transcript: a line for each answer, and an end line for each partition.

ghost use Rattle.std.specs.Prelude.{◌≡◌, ◌↔◌, ◌<◌, ◌∷◌, ◌++◌, decimal, IfErr, IsOkUnless, IsTrue, OnOk};
ghost use Rattle.std.specs.List.{flat_map};
ghost use Rattle.mg_script.specs.Lines.{call_fields, HasLine, line_parts, line_text, verb_word};
ghost use Rattle.mg_script.specs.Tokens.{byte_text, hex_digit, token_of};
ghost use Rattle.mg_script.specs.Transcript.{answer_line, change_text, end_line, fault_word, field, item_text, IsLineFault, mark_text, place_text, reply_text, result_text};

use crate::script::Line;
use crate::tokens::is_plain_byte;
use itoa::Buffer;
use mg_model::{Answer, Call, Doc, Fault, Item, Key, Reply};
use std::alloc::AllocError;

pub fn put(out: &mut Vec<u8>, bytes: &[u8]) -> Result<(), AllocError>
    ensures { OnOk result (out.new.items ≡ out.old.items ++ bytes.now) }
{
    out.extend_from_slice(bytes)
}

pub fn put_number(out: &mut Vec<u8>, number: u64) -> Result<(), AllocError>
    ensures { OnOk result (out.new.items ≡ out.old.items ++ decimal number) }
{
    let mut buffer = Buffer::new();
    put(out, buffer.format(number).as_bytes())
}

pub fn put_field(out: &mut Vec<u8>, word: &[u8], number: u64) -> Result<(), AllocError>
    ensures { OnOk result (out.new.items ≡ out.old.items ++ field word.now number) }
{
    put(out, word)?;
    put_number(out, number)
}

fn hex_digit_of(number: u8) -> u8
    requires { number < 16 }
    ensures { result ≡ hex_digit number }
{
    if number < 10 {
        b'0' + number
    } else {
        b'A' - 10 + number
    }
}

#[tactic(auto, unfolding(crate::specs::Tokens::byte_text))]
fn put_byte(out: &mut Vec<u8>, byte: u8) -> Result<(), AllocError>
    ensures { OnOk result (out.new.items ≡ out.old.items ++ byte_text byte) }
{
    if is_plain_byte(byte) {
        put(out, &[byte])
    } else {
        put(
            out,
            &[b'%', hex_digit_of(byte / 16), hex_digit_of(byte % 16)],
        )
    }
}

#[tactic(auto, unfolding(crate::specs::Tokens::token_of))]
pub fn put_token(out: &mut Vec<u8>, bytes: &[u8]) -> Result<(), AllocError>
    ensures { OnOk result (out.new.items ≡ out.old.items ++ token_of bytes.now) }
{
    if bytes.is_empty() {
        return put(out, b"%");
    }
    for byte in bytes {
        put_byte(out, *byte)?;
    }
    Ok(())
}

fn put_change(out: &mut Vec<u8>, key: &Key, doc: &Option<Doc>) -> Result<(), AllocError>
    ensures { OnOk result (out.new.items ≡ out.old.items ++ change_text key.now doc.now) }
{
    match doc {
        None => {
            put(out, b" del ")?;
            put_token(out, key.bytes())
        }
        Some(doc) => {
            put(out, b" set ")?;
            put_token(out, key.bytes())?;
            put(out, b" ")?;
            put_token(out, doc.bytes())
        }
    }
}

#[tactic(auto, unfolding(crate::specs::Transcript::item_text))]
fn put_item(out: &mut Vec<u8>, item: &Item) -> Result<(), AllocError>
    ensures { OnOk result (out.new.items ≡ out.old.items ++ item_text item.now) }
{
    put_field(out, b" [", item.seq)?;
    put_change(out, &item.key, &item.doc)?;
    put(out, b"]")
}

fn put_items(out: &mut Vec<u8>, items: &[Item]) -> Result<(), AllocError>
    ensures { OnOk result (out.new.items ≡ out.old.items ++ flat_map item_text items.now) }
{
    for item in items {
        put_item(out, item)?;
    }
    Ok(())
}

fn put_mark(out: &mut Vec<u8>, mark: Option<u64>) -> Result<(), AllocError>
    ensures { OnOk result (out.new.items ≡ out.old.items ++ mark_text mark) }
{
    match mark {
        None => put(out, b"-"),
        Some(mark) => put_number(out, mark),
    }
}

#[tactic(auto, unfolding(crate::specs::Transcript::reply_text))]
fn put_reply(out: &mut Vec<u8>, reply: &Reply) -> Result<(), AllocError>
    ensures { OnOk result (out.new.items ≡ out.old.items ++ reply_text reply.now) }
{
    match reply {
        Reply::Seq { seq } => put_field(out, b"seq ", *seq),
        Reply::Found { seq, doc } => {
            put_field(out, b"doc ", *seq)?;
            put(out, b" ")?;
            put_token(out, doc.bytes())
        }
        Reply::Absent => put(out, b"none"),
        Reply::Feed { epoch, end, items } => {
            put_field(out, b"feed ", *epoch)?;
            put_field(out, b" ", *end)?;
            put_items(out, items.as_slice())
        }
        Reply::Ahead { length } => put_field(out, b"ahead ", *length),
        Reply::Epoch { epoch } => put_field(out, b"epoch ", *epoch),
        Reply::Marked { mark } => put_field(out, b"marked ", *mark),
        Reply::Full { kept } => put_field(out, b"full ", u64::from(*kept)),
        Reply::Forgot { mark } => put_field(out, b"forgot ", *mark),
        Reply::NoMark { mark } => put_field(out, b"nomark ", *mark),
        Reply::Back { mark, epoch } => {
            put_field(out, b"back ", *mark)?;
            put_field(out, b" ", *epoch)
        }
        Reply::Reset { least } => {
            put(out, b"reset ")?;
            put_mark(out, *least)
        }
        Reply::Cleared { epoch } => put_field(out, b"cleared ", *epoch),
        Reply::Synced => put(out, b"synced"),
        Reply::Compacted {
            through,
            keys,
            bytes,
        } => {
            put_field(out, b"compact ", *through)?;
            put_field(out, b" ", *keys)?;
            put_field(out, b" ", *bytes)
        }
        Reply::Stats {
            length,
            live,
            bytes,
            marks,
            epoch,
        } => {
            put_field(out, b"stats ", *length)?;
            put_field(out, b" ", *live)?;
            put_field(out, b" ", *bytes)?;
            put_field(out, b" ", *marks)?;
            put_field(out, b" ", *epoch)
        }
    }
}

fn put_result(out: &mut Vec<u8>, result_of: &Result<Reply, Fault>) -> Result<(), AllocError>
    requires { IfErr result_of.now IsLineFault }
    ensures { OnOk result (out.new.items ≡ out.old.items ++ result_text result_of.now) }
{
    match result_of {
        Ok(reply) => put_reply(out, reply),
        Err(Fault::NoMemory) => put(out, b"fault memory"),
        Err(Fault::ReadFault) => put(out, b"fault read"),
        Err(Fault::WriteFault) => put(out, b"fault write"),
        Err(Fault::Damaged { .. }) => put(out, b"fault damaged"),
        Err(Fault::Malformed { .. }) => put(out, b"fault malformed"),
        Err(Fault::Worn { .. }) => put(out, b"fault worn"),
        Err(_) => Ok(()),
    }
}

fn put_place(out: &mut Vec<u8>, place: Option<u64>) -> Result<(), AllocError>
    ensures { OnOk result (out.new.items ≡ out.old.items ++ place_text place) }
{
    match place {
        None => put(out, b" @-"),
        Some(place) => put_field(out, b" @", place),
    }
}

/// Appends the line of an answer: the client, which of its calls this is, counted from 1, the partition, the
/// place and what the call gave. After an error, the only one being want of memory, a front of the line may
/// have been appended.
#[tactic(auto, unfolding(crate::specs::Transcript::answer_line))]
pub fn put_answer(
    client: u8,
    n: u64,
    part: u16,
    answer: &Answer,
    out: &mut Vec<u8>,
) -> Result<(), Fault>
    requires { IfErr answer.now.result IsLineFault }
    ensures ok { OnOk result (out.new.items ≡ out.old.items ++ answer_line client n part answer.now) }
    ensures err { IsOkUnless result Fault.NoMemory }
{
    put_number(out, u64::from(client))?;
    put_field(out, b" ", n)?;
    put_field(out, b" ", u64::from(part))?;
    put_place(out, answer.place)?;
    put(out, b" ")?;
    put_result(out, &answer.result)?;
    put(out, b"\n")?;
    Ok(())
}

/// Appends the end line of a partition: how many calls it answered, its length and its epoch. After an error,
/// the only one being want of memory, a front of the line may have been appended.
#[tactic(auto, unfolding(crate::specs::Transcript::end_line))]
pub fn put_end(
    part: u16,
    calls: u64,
    length: u64,
    epoch: u64,
    out: &mut Vec<u8>,
) -> Result<(), Fault>
    ensures ok { OnOk result (out.new.items ≡ out.old.items ++ end_line part calls length epoch) }
    ensures err { IsOkUnless result Fault.NoMemory }
{
    put_field(out, b"end ", u64::from(part))?;
    put_field(out, b" ", calls)?;
    put_field(out, b" ", length)?;
    put_field(out, b" ", epoch)?;
    put(out, b"\n")?;
    Ok(())
}

/// Whether the call has a line: a feed's limit is from 1 to 1,000, and a compaction's `through` is 0.
pub fn has_line(call: &Call) -> bool
    ensures { IsTrue result ↔ HasLine call.now }
{
    match call {
        Call::Feed { limit, .. } => 1 <= *limit && *limit <= 1000,
        Call::Compact { through } => *through == 0,
        _ => true,
    }
}

/// Appends the line of a call, whichever its verb; a compaction's line doesn't say how far it goes. After an error, the
/// only one being want of memory, a front of the line may have been appended.
pub fn put_line(line: &Line, out: &mut Vec<u8>) -> Result<(), Fault>
    requires { HasLine line.now.call }
    ensures ok { OnOk result (out.new.items ≡ out.old.items ++ line_text line.now) }
    ensures err { IsOkUnless result Fault.NoMemory }
{
    put_parts(out, line)?;
    Ok(())
}

fn put_parts(out: &mut Vec<u8>, line: &Line) -> Result<(), AllocError>
    ensures { OnOk result (out.new.items ≡ out.old.items ++ line_parts line.now) }
{
    put_number(out, u64::from(line.client))?;
    put(out, b" ")?;
    put(out, verb_of_call(&line.call))?;
    put(out, b" ")?;
    put_number(out, u64::from(line.part))?;
    put_fields(out, &line.call)?;
    put(out, b"\n")
}

fn verb_of_call(call: &Call) -> &'static [u8]
    ensures { result.now ≡ verb_word call.now }
{
    match call {
        Call::Set { .. } => b"set",
        Call::Del { .. } => b"del",
        Call::Get { .. } => b"get",
        Call::Feed { .. } => b"feed",
        Call::Mark => b"mark",
        Call::Forget { .. } => b"forget",
        Call::Rollback { .. } => b"rollback",
        Call::Clear => b"clear",
        Call::Sync => b"sync",
        Call::Compact { .. } => b"compact",
        Call::Stats => b"stats",
    }
}

/// Appends the fields behind the partition, each behind a space.
fn put_fields(out: &mut Vec<u8>, call: &Call) -> Result<(), AllocError>
    ensures { OnOk result (out.new.items ≡ out.old.items ++ flat_map (λ field. 32 ∷ field) (call_fields call.now)) }
{
    match call {
        Call::Set { key, doc } => {
            put(out, b" ")?;
            put_token(out, key.bytes())?;
            put(out, b" ")?;
            put_token(out, doc.bytes())
        }
        Call::Del { key } | Call::Get { key } => {
            put(out, b" ")?;
            put_token(out, key.bytes())
        }
        Call::Feed {
            epoch,
            after,
            limit,
        } => {
            put_field(out, b" ", *epoch)?;
            put_field(out, b" ", *after)?;
            put_field(out, b" ", u64::from(*limit))
        }
        Call::Forget { mark: number } | Call::Rollback { to: number } => {
            put_field(out, b" ", *number)
        }
        Call::Mark | Call::Clear | Call::Sync | Call::Compact { .. } | Call::Stats => Ok(()),
    }
}
