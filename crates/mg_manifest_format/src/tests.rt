use super::*;
use mg_items::Items;
use mg_types::{Fault, FileId, Kind};
use std::alloc::{AllocError, Global};
use std::test::Fail;

const LOG: FileId = FileId {
    part: 3,
    kind: Kind::Manifest,
    number: 7,
};

/// The epoch 2, 9 changes applied, the receipt 11, 5 flushed, the next file 20.
const NUMBERS: &[u8] =
    b"\x01\0\0\0\0\0\0\0\x02\0\0\0\0\0\0\0\x09\0\0\0\0\0\0\0\x0b\0\0\0\0\0\0\0\x05\0\0\0\0\0\0\0\x14";

/// A layout without files.
const NO_FILES: &[u8] = b"\0\0\0\0\0\0\0\0\0\0";

/// Two runs: over (0, 3] the tables 4 of 189 bytes and 19 of 258, and over (3, 5] the table 2 of 190; the segment 12 of 157
/// bytes; the delete lists 7 of 137 and 8 of 149.
const FILES: &[u8] = b"\0\x02\
    \0\0\0\0\0\0\0\0\0\0\0\0\0\0\0\x03\0\x02\
    \0\0\0\0\0\0\0\x04\0\0\0\0\0\0\0\xbd\0\0\0\0\0\0\0\x13\0\0\0\0\0\0\x01\x02\
    \0\0\0\0\0\0\0\x03\0\0\0\0\0\0\0\x05\0\x01\
    \0\0\0\0\0\0\0\x02\0\0\0\0\0\0\0\xbe\
    \0\0\0\x01\0\0\0\0\0\0\0\x0c\0\0\0\0\0\0\0\x9d\
    \0\0\0\x02\0\0\0\0\0\0\0\x07\0\0\0\0\0\0\0\x89\0\0\0\0\0\0\0\x08\0\0\0\0\0\0\0\x95";

/// Two marks: 0 without files, and 5 with the segment 1 of 200 bytes.
const MARKS: &[u8] = b"\x02\
    \0\0\0\0\0\0\0\0\0\0\0\0\0\0\0\0\0\0\
    \0\0\0\0\0\0\0\x05\0\0\0\0\0\x01\0\0\0\0\0\0\0\x01\0\0\0\0\0\0\0\xc8\0\0\0\0";

fn joined(alloc: Global, parts: &[&[u8]]) -> Result<Vec<u8>, AllocError> {
    let mut bytes = Vec::new(alloc);
    for part in parts {
        bytes.extend_from_slice(*part)?;
    }
    Ok(bytes)
}

/// Whether the files have these numbers and lengths.
fn are_files(found: &Items<NamedFile>, want: &[(u64, u64)]) -> bool {
    if found.len() != want.len() {
        return false;
    }
    for (file, (number, len)) in found.as_slice().iter().zip(want) {
        if file.number != *number || file.len != *len {
            return false;
        }
    }
    true
}

#[test]
fn a_record_without_files(rt: HostRuntime) -> Result<(), Fail> {
    let alloc = rt.alloc();
    let body = joined(alloc, &[NUMBERS, NO_FILES, b"\0"])?;
    assert_eq!(rt; body.len(), 52);
    let rec = read_manifest(alloc, LOG, 72, 6, &body)?;
    assert!(rt; rec.version == 6 && rec.epoch == 2 && rec.applied == 9 && rec.receipt == 11);
    assert!(rt; rec.flushed == 5 && rec.next_file == 20);
    assert!(rt; rec.layout.runs.is_empty() && rec.layout.segments.is_empty());
    assert!(rt; rec.layout.deletes.is_empty() && rec.marks.is_empty());
    let mut out = vec![in alloc; 9u8]?;
    put_manifest(&rec, &mut out)?;
    assert_eq!(rt; manifest_len(&rec), body.len());
    assert!(rt; out[0] == 9 && &out[1..] == body.as_slice());
    let mut frame = Vec::new(alloc);
    mg_frame::put_frame(6, &body, &mut frame)?;
    assert_eq!(rt; frame.len(), 72);
    Ok(())
}

#[test]
fn a_record_with_files_and_marks(rt: HostRuntime) -> Result<(), Fail> {
    let alloc = rt.alloc();
    let body = joined(alloc, &[NUMBERS, FILES, MARKS])?;
    let rec = read_manifest(alloc, LOG, 0, 1, &body)?;
    let [first, second] = rec.layout.runs.as_slice() else {
        return Err("not two runs".into());
    };
    assert!(rt; first.lo == 0 && first.hi == 3 && are_files(&first.files, &[(4, 189), (19, 258)]));
    assert!(rt; second.lo == 3 && second.hi == 5 && are_files(&second.files, &[(2, 190)]));
    assert!(rt; are_files(&rec.layout.segments, &[(12, 157)]));
    assert!(rt; are_files(&rec.layout.deletes, &[(7, 137), (8, 149)]));
    let [none, last] = rec.marks.as_slice() else {
        return Err("not two marks".into());
    };
    assert!(rt; none.mark == 0 && none.layout.segments.is_empty());
    assert!(rt; last.mark == 5 && are_files(&last.layout.segments, &[(1, 200)]));
    let mut out = Vec::new(alloc);
    put_manifest(&rec, &mut out)?;
    assert_eq!(rt; manifest_len(&rec), body.len());
    assert!(rt; out.as_slice() == body.as_slice());
    Ok(())
}

#[test]
fn what_is_no_record(rt: HostRuntime) -> Result<(), Fail> {
    let alloc = rt.alloc();
    let whole = joined(alloc, &[NUMBERS, FILES, MARKS])?;
    for len in 0..whole.len() {
        let read = read_manifest(alloc, LOG, 72, 1, &whole[..len]);
        assert!(rt;
            read.err() == Some(Fault::Malformed { file: LOG, at: 72 }),
            "{len}"
        );
    }
    for parts in [
        // another format, and a byte too many
        [b"\x02".as_slice(), &NUMBERS[1..], NO_FILES, b"\0"].as_slice(),
        &[NUMBERS, NO_FILES, b"\0\0"],
        // 2^32 - 1 segments and 255 marks without a byte of them
        &[NUMBERS, b"\0\0\xff\xff\xff\xff\0\0\0\0\0"],
        &[NUMBERS, NO_FILES, b"\xff"],
    ] {
        let read = read_manifest(alloc, LOG, 72, 1, &joined(alloc, parts)?);
        assert!(rt;
            read.err() == Some(Fault::Malformed { file: LOG, at: 72 }),
            "{parts:?}"
        );
    }
    Ok(())
}

/// 2^62, and the numbers 0, 5, 19 and 20.
const GREAT: &[u8] = b"\x40\0\0\0\0\0\0\0";

const ZERO: &[u8] = b"\0\0\0\0\0\0\0\0";

const FIVE: &[u8] = b"\0\0\0\0\0\0\0\x05";

const LAST: &[u8] = b"\0\0\0\0\0\0\0\x13";

const NEXT: &[u8] = b"\0\0\0\0\0\0\0\x14";

#[test]
fn what_breaks_a_rule_or_is_too_great(rt: HostRuntime) -> Result<(), Fail> {
    let alloc = rt.alloc();
    let malformed = Some(Fault::Malformed { file: LOG, at: 72 });
    let great = Some(Fault::Damaged {
        file: LOG,
        at: 72,
        kept: 1 << 62,
        found: 1 << 62,
    });
    // What is flushed is 2^40 - 1 here, and 2^40 there.
    let most = b"\0\0\0\xff\xff\xff\xff\xff".as_slice();
    let more = b"\0\0\x01\0\0\0\0\0".as_slice();
    for (parts, fault) in [
        // the numbers: epoch, applied, receipt, flushed and the next file
        (
            [
                b"\x01".as_slice(),
                ZERO,
                ZERO,
                ZERO,
                most,
                ZERO,
                NO_FILES,
                b"\0",
            ]
            .as_slice(),
            None,
        ),
        (
            &[b"\x01", GREAT, ZERO, ZERO, ZERO, ZERO, NO_FILES, b"\0"],
            great,
        ),
        (
            &[b"\x01", ZERO, GREAT, ZERO, ZERO, ZERO, NO_FILES, b"\0"],
            great,
        ),
        (
            &[b"\x01", ZERO, ZERO, GREAT, ZERO, ZERO, NO_FILES, b"\0"],
            great,
        ),
        (
            &[b"\x01", ZERO, ZERO, ZERO, more, ZERO, NO_FILES, b"\0"],
            malformed,
        ),
        (
            &[b"\x01", ZERO, ZERO, ZERO, GREAT, ZERO, NO_FILES, b"\0"],
            great,
        ),
        (
            &[b"\x01", ZERO, ZERO, ZERO, ZERO, GREAT, NO_FILES, b"\0"],
            great,
        ),
        // the first from the left is told
        (
            &[b"\x01", ZERO, ZERO, ZERO, more, GREAT, NO_FILES, b"\0"],
            malformed,
        ),
        (
            &[b"\x01", ZERO, ZERO, GREAT, more, GREAT, NO_FILES, b"\0"],
            great,
        ),
        // a run: lo, hi, the number of its files, a file's number and its length
        (
            &[
                NUMBERS, b"\0\x01", FIVE, ZERO, b"\0\x01", LAST, ZERO, ZERO, b"\0",
            ],
            None,
        ),
        (
            &[
                NUMBERS, b"\0\x01", GREAT, ZERO, b"\0\x01", LAST, ZERO, ZERO, b"\0",
            ],
            great,
        ),
        (
            &[
                NUMBERS, b"\0\x01", ZERO, GREAT, b"\0\x01", LAST, ZERO, ZERO, b"\0",
            ],
            great,
        ),
        (
            &[NUMBERS, b"\0\x01", ZERO, FIVE, b"\0\0", ZERO, b"\0"],
            malformed,
        ),
        (
            &[
                NUMBERS, b"\0\x01", ZERO, FIVE, b"\0\x01", NEXT, ZERO, ZERO, b"\0",
            ],
            malformed,
        ),
        (
            &[
                NUMBERS, b"\0\x01", ZERO, FIVE, b"\0\x01", GREAT, ZERO, ZERO, b"\0",
            ],
            great,
        ),
        (
            &[
                NUMBERS, b"\0\x01", ZERO, FIVE, b"\0\x01", LAST, GREAT, ZERO, b"\0",
            ],
            great,
        ),
        // a segment, a delete list
        (
            &[NUMBERS, b"\0\0\0\0\0\x01", LAST, ZERO, b"\0\0\0\0\0"],
            None,
        ),
        (
            &[NUMBERS, b"\0\0\0\0\0\x01", NEXT, ZERO, b"\0\0\0\0\0"],
            malformed,
        ),
        (
            &[NUMBERS, b"\0\0\0\0\0\x01", LAST, GREAT, b"\0\0\0\0\0"],
            great,
        ),
        (
            &[NUMBERS, b"\0\0\0\0\0\0\0\0\0\x01", LAST, ZERO, b"\0"],
            None,
        ),
        (
            &[NUMBERS, b"\0\0\0\0\0\0\0\0\0\x01", NEXT, ZERO, b"\0"],
            malformed,
        ),
        (
            &[NUMBERS, b"\0\0\0\0\0\0\0\0\0\x01", LAST, GREAT, b"\0"],
            great,
        ),
        // marks: their order, the last one's number, and a file of a mark's layout
        (
            &[NUMBERS, NO_FILES, b"\x02", ZERO, NO_FILES, FIVE, NO_FILES],
            None,
        ),
        (
            &[NUMBERS, NO_FILES, b"\x02", FIVE, NO_FILES, FIVE, NO_FILES],
            malformed,
        ),
        (
            &[NUMBERS, NO_FILES, b"\x02", FIVE, NO_FILES, ZERO, NO_FILES],
            malformed,
        ),
        (&[NUMBERS, NO_FILES, b"\x01", LAST, NO_FILES], malformed),
        (&[NUMBERS, NO_FILES, b"\x01", GREAT, NO_FILES], great),
        (
            &[
                NUMBERS,
                NO_FILES,
                b"\x01",
                FIVE,
                b"\0\0\0\0\0\x01",
                NEXT,
                ZERO,
                b"\0\0\0\0",
            ],
            malformed,
        ),
    ] {
        let read = read_manifest(alloc, LOG, 72, 1, &joined(alloc, parts)?);
        assert!(rt; read.err() == fault, "{parts:?}");
    }
    // The version is judged behind the form and before the fields.
    for (parts, fault) in [
        ([NUMBERS, NO_FILES].as_slice(), malformed),
        (&[NUMBERS, NO_FILES, b"\0"], great),
        (&[NUMBERS, NO_FILES, b"\x01", LAST, NO_FILES], great),
    ] {
        let read = read_manifest(alloc, LOG, 72, 1 << 62, &joined(alloc, parts)?);
        assert!(rt; read.err() == fault, "{parts:?}");
    }
    Ok(())
}

#[test]
fn there_are_at_most_16_runs_and_16_marks(rt: HostRuntime) -> Result<(), Fail> {
    let alloc = rt.alloc();
    for (count, fine) in [(16, true), (17, false)] {
        let mut runs = joined(alloc, &[NUMBERS, b"\0"])?;
        runs.push(count)?;
        // Up to 19 is flushed.
        let numbers = [b"\x01".as_slice(), ZERO, ZERO, ZERO, LAST, ZERO, NO_FILES];
        let mut marks = joined(alloc, &numbers)?;
        marks.push(count)?;
        for number in 0..count {
            for part in [ZERO, FIVE, b"\0\x01", LAST, ZERO] {
                runs.extend_from_slice(part)?;
            }
            marks.extend_from_slice(&u64::from(number).to_be_bytes())?;
            marks.extend_from_slice(NO_FILES)?;
        }
        runs.extend_from_slice(b"\0\0\0\0\0\0\0\0\0")?;
        for body in [&runs, &marks] {
            let read = read_manifest(alloc, LOG, 0, 1, body);
            assert!(rt; read.is_ok() == fine, "{count}");
        }
    }
    Ok(())
}
