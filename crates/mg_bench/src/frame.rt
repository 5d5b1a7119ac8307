//! Workloads over frames. Each does its work `count` times over bodies of `size` bytes, at most 1 MiB, and answers a checksum.

ghost use Rattle.std.specs.Prelude.{◌≤◌, ◌^◌, length, IfOk};

use mg_frame::{FRAME_HEADER, Taken, put_frame, take_frame};
use sha2::{Digest, Sha256};
use std::alloc::{AllocError, Global};

const MOST_BYTES: usize = 1 << 20;

/// `size` bytes, at most `MOST_BYTES`.
fn body_of(alloc: Global, size: usize) -> Result<Vec<u8>, AllocError>
    ensures { IfOk result (λ body. length body.items ≤ 2 ^ 20) }
{
    vec![in alloc; b'v'; size.min(MOST_BYTES)]
}

fn mixed(checksum: u64, value: u64) -> u64 {
    checksum.rotate_left(5) ^ value
}

pub fn put_frames(alloc: Global, count: u64, size: usize) -> Result<u64, AllocError> {
    let body = body_of(alloc, size)?;
    let mut out = Vec::new(alloc);
    let mut checksum = 0;
    for number in 0..count {
        out.clear();
        put_frame(number, &body, &mut out)?;
        checksum = mixed(checksum, out.last().copied().map_or(0, u64::from));
    }
    Ok(checksum)
}

pub fn take_frames(alloc: Global, count: u64, size: usize) -> Result<u64, AllocError> {
    let body = body_of(alloc, size)?;
    let mut out = Vec::new(alloc);
    put_frame(1, &body, &mut out)?;
    let mut checksum = 0;
    for number in 0..count {
        if let Taken::Whole { start, end, .. } = take_frame(&out, 0, 1) {
            checksum = mixed(checksum, number ^ start as u64 ^ end as u64);
        }
    }
    Ok(checksum)
}

/// The digests alone, over as many bytes as those of a frame cover.
pub fn digest_only(alloc: Global, count: u64, size: usize) -> Result<u64, AllocError> {
    let mut bytes = body_of(alloc, size)?;
    bytes.extend_from_slice(&[0; FRAME_HEADER])?;
    let mut checksum = 0;
    for _ in 0..count {
        let digest = Sha256::digest(&bytes);
        checksum = mixed(checksum, u64::from(digest[0]));
    }
    Ok(checksum)
}
