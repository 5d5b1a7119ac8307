//! A frame is the body's length (4 bytes), the frame's number (8 bytes), the body, and the first 8 bytes of the SHA-256
//! digest (FIPS 180-4) of all that. Numbers are big-endian.

ghost use Rattle.std.specs.Prelude.{◌≡◌, ◌+◌, ◌++◌, ◌<◌, ◌≤◌, ◌^◌, ℕ, List, length, drop, IfOk, OnOk, OnErr};
ghost use Rattle.mg_frame.specs.Frame.{digest, frame, frame_header, said_length, compared, judged, taken, Means, TakesWritten, EndsLog};

use crate::fields::{front_u32, front_u64};
use sha2::{Digest, Sha256};
use std::alloc::AllocError;

/// How many bytes of a frame stand before its body: the body's length and the frame's number.
pub const FRAME_HEADER: usize = 12;

/// How many bytes a frame has more than its body: the header, and the digest after the body.
pub const FRAME_OVERHEAD: usize = 20;

/// What stands at an offset where a frame should begin. The tests are made in the order of `End`, `Short`, `Number`, `Torn`.
#[derive(Clone, Copy, Debug, PartialEq, Eq)]
pub enum Taken {
    /// The frame's body is from `start` to `end`, and what follows the frame begins at `next`.
    Whole {
        start: usize,
        end: usize,
        next: usize,
    },
    /// No byte is left.
    End,
    /// `have` bytes are left, and the header or the whole frame needs `want`.
    Short {
        want: u64,
        have: u64,
    },
    /// The frame's number is not the one that was asked for.
    Number {
        kept: u64,
        asked: u64,
    },
    /// The digest that stands in the frame is not that of its bytes. Both are given as big-endian numbers.
    Torn {
        kept: u64,
        found: u64,
    },
}

fn digest(covered: &[u8]) -> [u8; 8]
    ensures { result ≡ digest covered.now }
{
    let [a, b, c, d, e, f, g, h, ..] = Sha256::digest(covered);
    [a, b, c, d, e, f, g, h]
}

/// Appends the frame of this number and body. The body is copied once.
pub fn put_frame(number: u64, body: &[u8], out: &mut Vec<u8>) -> Result<(), AllocError>
    requires { length body.now < 2 ^ 32 }
    ensures ok { OnOk result (out.new.items ≡ out.old.items ++ frame number body.now) }
    ensures err { OnErr result (out.new.items ≡ out.old.items) }
{
    out.reserve(FRAME_OVERHEAD + body.len())?;
    let start = out.len();
    out.extend_from_slice(&(body.len() as u32).to_be_bytes())?;
    out.extend_from_slice(&number.to_be_bytes())?;
    out.extend_from_slice(body)?;
    let digest = digest(&out[start..]);
    out.extend_from_slice(&digest)
}

/// Begins a frame whose body is written in place, and gives the offset where it begins: appends the header of the frame of
/// this number, and takes the room for the whole frame. The body, of so many bytes, is to be put behind it, and then
/// `end_frame` is called.
pub fn begin_frame(number: u64, body_len: usize, out: &mut Vec<u8>) -> Result<usize, AllocError>
    requires { body_len < 2 ^ 32 }
    ensures start { IfOk result (λ start. start ≡ length out.old.items) }
    ensures ok { OnOk result (out.new.items ≡ out.old.items ++ frame_header number body_len) }
    ensures err { OnErr result (out.new.items ≡ out.old.items) }
{
    out.reserve(FRAME_OVERHEAD + body_len)?;
    let start = out.len();
    out.extend_from_slice(&(body_len as u32).to_be_bytes())?;
    out.extend_from_slice(&number.to_be_bytes())?;
    Ok(start)
}

/// Ends the frame that begins at `start`: appends its digest behind the header and the body that stand from there on.
pub fn end_frame(start: usize, out: &mut Vec<u8>) -> Result<(), AllocError>
    requires { start ≤ length out.old.items }
    ensures ok { (before : List ℕ) (number : ℕ) (body : List ℕ) → length before ≡ start
        → out.old.items ≡ before ++ (frame_header number (length body) ++ body)
        → OnOk result (out.new.items ≡ before ++ frame number body) }
    ensures digest { OnOk result (out.new.items ≡ out.old.items ++ digest (drop start out.old.items)) }
    ensures err { OnErr result (out.new.items ≡ out.old.items) }
{
    let digest = digest(&out[start..]);
    out.extend_from_slice(&digest)
}

/// Compares the digests of the frame that `left` begins with, whose body has `body` bytes.
fn judge_digest(left: &[u8], at: usize, body: usize) -> Taken
    requires in_range { at + length left.now < 2 ^ 63 }
    requires body { body ≡ said_length left.now }
    requires whole { body + FRAME_OVERHEAD ≤ length left.now }
    ensures { result ≡ compared left.now at }
{
    let (covered, rest) = left.split_at(FRAME_HEADER + body);
    let kept = front_u64(rest);
    let found = u64::from_be_bytes(digest(covered));
    if kept != found {
        return Taken::Torn { kept, found };
    }
    let start = at + FRAME_HEADER;
    Taken::Whole {
        start,
        end: start + body,
        next: at + FRAME_OVERHEAD + body,
    }
}

/// Judges the frame that `left` begins with, where `left` is what remains from the offset `at` on.
#[tactic(auto, unfolding(crate::specs::Frame::judged, crate::specs::Frame::said_length, crate::specs::Frame::said_number))]
fn judge(left: &[u8], at: usize, number: u64) -> Taken
    requires { at + length left.now < 2 ^ 63 }
    ensures { result ≡ judged left.now at number }
{
    let have = left.len() as u64;
    if left.is_empty() {
        return Taken::End;
    }
    if left.len() < FRAME_HEADER {
        let want = FRAME_HEADER as u64;
        return Taken::Short { want, have };
    }
    let body = front_u32(left) as usize;
    if left.len() < body + FRAME_OVERHEAD {
        let want = (body + FRAME_OVERHEAD) as u64;
        return Taken::Short { want, have };
    }
    let kept = front_u64(&left[4..]);
    if kept != number {
        let asked = number;
        return Taken::Number { kept, asked };
    }
    judge_digest(left, at, body)
}

/// Reads the frame at `at`, and tells whether it is whole and has the number asked for. The body is not copied.
pub fn take_frame(bytes: &[u8], at: usize, number: u64) -> Taken
    requires { at ≤ length bytes.now }
    ensures exact { result ≡ taken bytes.now at number }
    ensures meaning { Means bytes.now at number result }
    ensures written { TakesWritten bytes.now at number result }
    ensures ends { EndsLog bytes.now at number result }
{
    judge(&bytes[at..], at, number)
}
