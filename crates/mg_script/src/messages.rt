//! The text of a fault.

ghost use Rattle.std.specs.Prelude.{◌≡◌, ◌++◌, codes, IsOkUnless, OnOk};
ghost use Rattle.mg_script.specs.Transcript.{fault_message, field, file_text, why_word};

use crate::transcript::{put, put_field};
use mg_model::{Fault, FileId, Why};
use std::alloc::AllocError;

fn put_file(out: &mut Vec<u8>, word: &[u8], file: FileId) -> Result<(), AllocError>
    ensures { OnOk result (out.new.items ≡ out.old.items ++ file_text word.now file) }
{
    put_field(out, word, u64::from(file.part))?;
    put_field(out, b" ", u64::from(file.kind.code()))?;
    put_field(out, b" ", file.number)
}

fn put_why(out: &mut Vec<u8>, why: Why) -> Result<(), AllocError>
    ensures { OnOk result (out.new.items ≡ out.old.items ++ why_word why) }
{
    match why {
        Why::Ending => put(out, b"ending"),
        Why::Client => put(out, b"client"),
        Why::Verb => put(out, b"verb"),
        Why::Part => put(out, b"partition"),
        Why::Key => put(out, b"key"),
        Why::Doc => put(out, b"document"),
        Why::Number => put(out, b"number"),
        Why::Extra => put(out, b"extra"),
    }
}

fn put_fewer(out: &mut Vec<u8>, asked: u16, kept: u16) -> Result<(), AllocError>
    ensures { OnOk result (out.new.items ≡ out.old.items ++ field (codes "partitions asked ") asked ++ field (codes " kept ") kept) }
{
    put_field(out, b"partitions asked ", u64::from(asked))?;
    put_field(out, b" kept ", u64::from(kept))
}

/// Appends what the program says of a fault, without a line feed. After an error, the only one being want of
/// memory, a front of the text may have been appended.
pub fn fault_text(fault: &Fault, out: &mut Vec<u8>) -> Result<(), Fault>
    ensures ok { OnOk result (out.new.items ≡ out.old.items ++ fault_message fault.now) }
    ensures err { IsOkUnless result Fault.NoMemory }
{
    put_message(fault, out)?;
    Ok(())
}

#[tactic(auto, unfolding(crate::specs::Transcript::fault_message))]
fn put_message(fault: &Fault, out: &mut Vec<u8>) -> Result<(), AllocError>
    ensures { OnOk result (out.new.items ≡ out.old.items ++ fault_message fault.now) }
{
    match *fault {
        Fault::NoMemory => put(out, b"no memory"),
        Fault::ReadFault => put(out, b"read fault"),
        Fault::WriteFault => put(out, b"write fault"),
        Fault::Damaged {
            file,
            at,
            kept,
            found,
        } => {
            put_file(out, b"damaged ", file)?;
            put_field(out, b" at ", at)?;
            put_field(out, b" kept ", kept)?;
            put_field(out, b" found ", found)
        }
        Fault::Missing { file } => put_file(out, b"missing ", file),
        Fault::Gap {
            part,
            applied,
            low,
            high,
        } => {
            put_field(out, b"gap ", u64::from(part))?;
            put_field(out, b" applied ", applied)?;
            put_field(out, b" low ", low)?;
            put_field(out, b" high ", high)
        }
        Fault::BadLine { line, why } => {
            put_field(out, b"line ", line)?;
            put(out, b": ")?;
            put_why(out, why)
        }
        Fault::TooLong { limit } => {
            put_field(out, b"input over ", limit)?;
            put(out, b" bytes")
        }
        Fault::BadWords => put(out, b"bad words"),
        Fault::BadSettings { at } => put_field(out, b"settings ", u64::from(at)),
        Fault::FewerParts { asked, kept } => put_fewer(out, asked, kept),
        Fault::Malformed { file, at } => {
            put_file(out, b"malformed ", file)?;
            put_field(out, b" at ", at)
        }
        Fault::Worn { kept } => put_field(out, b"worn ", kept),
    }
}
