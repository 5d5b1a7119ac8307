ghost use Rattle.std.specs.Prelude.{◌<◌, ◌^◌, length};

use super::*;
use mg_frame::put_frame;
use mg_model::Change;
use mg_types::{Doc, Fault, FileId, Key, Kind};
use std::alloc::Global;
use std::test::Fail;

const LOG: FileId = FileId {
    part: 65535,
    kind: Kind::Wal,
    number: 7,
};

/// A set of `a` to `x`, the first change of partition 0.
const SET: &[u8] = b"\0\0\0\0\0\0\0\0\0\x01\x01\x01a\0\0\0\x01x";

fn key(alloc: Global, bytes: &[u8]) -> Result<Key, Fail> {
    Ok(Key::new(alloc, bytes)?.ok_or("no key")?)
}

fn doc(alloc: Global, bytes: &[u8]) -> Result<Doc, Fail> {
    Ok(Doc::new(alloc, bytes)?.ok_or("no document")?)
}

fn is_same(one: &Change, other: &Change) -> bool {
    match (one, other) {
        (Change::Set { key: a, doc: b }, Change::Set { key: c, doc: d }) => {
            a == c && b.bytes() == d.bytes()
        }
        (Change::Del { key: a }, Change::Del { key: b }) => a == b,
        (Change::Mark, Change::Mark) | (Change::Clear, Change::Clear) => true,
        (Change::Forget { mark: a }, Change::Forget { mark: b }) => a == b,
        (Change::Back { mark: a }, Change::Back { mark: b }) => a == b,
        _ => false,
    }
}

/// Whether the bytes are a 9 and the frame of this number and body.
fn is_framed(alloc: Global, bytes: &[u8], number: u64, body: &[u8]) -> Result<bool, Fail>
    requires { length body.now < 2 ^ 32 }
{
    let mut want = vec![in alloc; 9u8]?;
    put_frame(number, body, &mut want)?;
    Ok(bytes == want.as_slice())
}

#[test]
fn each_kind_of_record_is_written_and_read(rt: HostRuntime) -> Result<(), Fail> {
    let alloc = rt.alloc();
    let cases = [
        (
            0,
            1,
            Change::Set {
                key: key(alloc, b"a")?,
                doc: doc(alloc, b"x")?,
            },
            SET,
        ),
        (
            1,
            3,
            Change::Set {
                key: key(alloc, b"ab")?,
                doc: doc(alloc, b"")?,
            },
            b"\0\x01\0\0\0\0\0\0\0\x03\x01\x02ab\0\0\0\0".as_slice(),
        ),
        (
            1,
            3,
            Change::Del {
                key: key(alloc, b"qr")?,
            },
            b"\0\x01\0\0\0\0\0\0\0\x03\x02\x02qr",
        ),
        (0, 1, Change::Mark, b"\0\0\0\0\0\0\0\0\0\x01\x03"),
        (
            0,
            1,
            Change::Forget { mark: 258 },
            b"\0\0\0\0\0\0\0\0\0\x01\x04\0\0\0\0\0\0\x01\x02",
        ),
        (
            1,
            3,
            Change::Back {
                mark: (1 << 62) - 1,
            },
            b"\0\x01\0\0\0\0\0\0\0\x03\x05\x3f\xff\xff\xff\xff\xff\xff\xff",
        ),
        (1, 3, Change::Clear, b"\0\x01\0\0\0\0\0\0\0\x03\x06"),
    ];
    for (part, change, what, spelled) in &cases {
        let rec = read_record(alloc, LOG, 39, 12, &[0, 2], spelled)?;
        assert!(rt; rec.number == 12 && rec.part == *part && rec.change == *change);
        assert!(rt; is_same(&rec.what, what));
        let mut out = Vec::new(alloc);
        put_record(rec.part, rec.change, &rec.what, &mut out)?;
        assert!(rt; out.as_slice() == *spelled);
        assert!(rt; record_len(what) == spelled.len());
        let mut framed = vec![in alloc; 9u8]?;
        put_record_frame(12, rec.part, rec.change, &rec.what, &mut framed)?;
        assert!(rt; is_framed(alloc, &framed, 12, &out)?);
    }
    Ok(())
}

#[test]
fn what_is_no_record_or_not_the_next(rt: HostRuntime) -> Result<(), Fail> {
    let alloc = rt.alloc();
    let malformed = Fault::Malformed { file: LOG, at: 39 };
    let great = |kept| Fault::Damaged {
        file: LOG,
        at: 39,
        kept,
        found: 1 << 62,
    };
    for (body, fault) in [
        (b"".as_slice(), malformed),
        (b"\0", malformed),
        (b"\0\0\0\0\0\0\0\0\0", malformed),
        (b"\0\0\0\0\0\0\0\0\0\x01", malformed),
        // kinds 0 and 7
        (b"\0\0\0\0\0\0\0\0\0\x01\0", malformed),
        (b"\0\0\0\0\0\0\0\0\0\x01\x07", malformed),
        // a key of no byte, a key and a document cut short, a byte too many
        (b"\0\0\0\0\0\0\0\0\0\x01\x02\0", malformed),
        (b"\0\0\0\0\0\0\0\0\0\x01\x02\x02a", malformed),
        (b"\0\0\0\0\0\0\0\0\0\x01\x01\x01a\0\0\0\x02x", malformed),
        (b"\0\0\0\0\0\0\0\0\0\x01\x01\x01a\0\0\0\x01xy", malformed),
        (b"\0\0\0\0\0\0\0\0\0\x01\x03\0", malformed),
        (b"\0\0\0\0\0\0\0\0\0\x01\x04\0\0\0\0\0\0\x01", malformed),
        (b"\0\0\0\0\0\0\0\0\0\x01\x06\x06", malformed),
        // partition 2 of two, the change before the next and the one after it
        (b"\0\x02\0\0\0\0\0\0\0\x01\x03", malformed),
        (b"\0\x01\0\0\0\0\0\0\0\x02\x03", malformed),
        (b"\0\x01\0\0\0\0\0\0\0\x04\x03", malformed),
        (b"\0\x01\0\0\0\0\0\0\0\0\x03", malformed),
        // a change and a mark of 2^62, and a change that is wrong before that
        (b"\0\0\x40\0\0\0\0\0\0\0\x03", great(1 << 62)),
        (b"\0\0\xff\xff\xff\xff\xff\xff\xff\xff\x03", great(u64::MAX)),
        (
            b"\0\0\0\0\0\0\0\0\0\x01\x05\x40\0\0\0\0\0\0\x01",
            great((1 << 62) + 1),
        ),
        (b"\0\0\0\0\0\0\0\0\0\x02\x05\x40\0\0\0\0\0\0\x01", malformed),
        (b"\0\x02\x40\0\0\0\0\0\0\0\x03", malformed),
    ] {
        let read = read_record(alloc, LOG, 39, 12, &[0, 2], body);
        assert!(rt; read.err() == Some(fault), "{body:?}");
    }
    Ok(())
}

#[test]
fn keys_and_documents_have_their_limits(rt: HostRuntime) -> Result<(), Fail> {
    let alloc = rt.alloc();
    for (key_len, doc_len, fine) in [
        (250, 0, true),
        (251, 0, false),
        (1, 1_048_576, true),
        (1, 1_048_577, false),
    ] {
        let mut body = SET[..11].to_vec(alloc)?;
        mg_frame::put_short(&vec![in alloc; b'k'; key_len]?, &mut body)?;
        mg_frame::put_long(&vec![in alloc; b'd'; doc_len]?, &mut body)?;
        let read = read_record(alloc, LOG, 39, 12, &[0], &body);
        assert!(rt; read.is_ok() == fine, "{key_len}, {doc_len}");
        if !fine {
            assert!(rt; read.err() == Some(Fault::Malformed { file: LOG, at: 39 }));
        }
    }
    Ok(())
}

#[test]
fn heads_are_written_and_read(rt: HostRuntime) -> Result<(), Fail> {
    let alloc = rt.alloc();
    for (first, before, spelled) in [
        (
            1,
            [0].as_slice(),
            b"\x01\0\0\0\0\0\0\0\x01\0\x01\0\0\0\0\0\0\0\0".as_slice(),
        ),
        (
            258,
            &[3, (1 << 62) - 1],
            b"\x01\0\0\0\0\0\0\x01\x02\0\x02\0\0\0\0\0\0\0\x03\x3f\xff\xff\xff\xff\xff\xff\xff",
        ),
        (7, &[], b"\x01\0\0\0\0\0\0\0\x07\0\0"),
    ] {
        let head = read_head(alloc, LOG, spelled)?;
        assert!(rt; head.first == first && head.before.as_slice() == before);
        let mut out = Vec::new(alloc);
        put_head(&head, &mut out)?;
        assert!(rt; out.as_slice() == spelled);
    }
    Ok(())
}

#[test]
fn what_is_no_head(rt: HostRuntime) -> Result<(), Fail> {
    let alloc = rt.alloc();
    let malformed = Fault::Malformed { file: LOG, at: 0 };
    let great = |kept| Fault::Damaged {
        file: LOG,
        at: 0,
        kept,
        found: 1 << 62,
    };
    for (body, fault) in [
        (b"".as_slice(), malformed),
        (b"\x02\0\0\0\0\0\0\0\x01\0\0", malformed),
        (b"\x01\0\0\0\0\0\0\0", malformed),
        (b"\x01\0\0\0\0\0\0\0\x01\0", malformed),
        // a number too few, one cut short, and one too many
        (b"\x01\0\0\0\0\0\0\0\x01\0\x01", malformed),
        (b"\x01\0\0\0\0\0\0\0\x01\0\x01\0\0\0\0\0\0\0", malformed),
        (b"\x01\0\0\0\0\0\0\0\x01\0\0\0\0\0\0\0\0\0\0", malformed),
        // a first number of 0, and numbers of 2^62, the first of which is named
        (b"\x01\0\0\0\0\0\0\0\0\0\0", malformed),
        (b"\x01\x40\0\0\0\0\0\0\0\0\0", great(1 << 62)),
        (b"\x01\0\0\0\0\0\0\0\0\0\x01\x40\0\0\0\0\0\0\0", malformed),
        (
            b"\x01\0\0\0\0\0\0\0\x01\0\x02\x3f\0\0\0\0\0\0\0\x40\0\0\0\0\0\0\x05",
            great((1 << 62) + 5),
        ),
        (
            b"\x01\0\0\0\0\0\0\0\x01\0\x02\x40\0\0\0\0\0\0\x06\x40\0\0\0\0\0\0\x05",
            great((1 << 62) + 6),
        ),
    ] {
        let read = read_head(alloc, LOG, body);
        assert!(rt; read.err() == Some(fault), "{body:?}");
    }
    // The log's own number is 2^62, which is told after the form and before the fields.
    let file = FileId {
        number: 1 << 62,
        ..LOG
    };
    let damaged = Fault::Damaged {
        file,
        at: 0,
        kept: 1 << 62,
        found: 1 << 62,
    };
    for (body, fault) in [
        (b"".as_slice(), Fault::Malformed { file, at: 0 }),
        (b"\x01\0\0\0\0\0\0\0\x01\0\0", damaged),
        (b"\x01\0\0\0\0\0\0\0\0\0\0", damaged),
    ] {
        let read = read_head(alloc, file, body);
        assert!(rt; read.err() == Some(fault), "{body:?}");
    }
    Ok(())
}

#[test]
fn fewer_partitions_are_told_before_what_else_is_wrong(rt: HostRuntime) -> Result<(), Fail> {
    let alloc = rt.alloc();
    let great = FileId {
        number: u64::MAX,
        ..LOG
    };
    // a sound head of two partitions, one whose first number is 0, and one with a number of 2^62
    for body in [
        b"\x01\0\0\0\0\0\0\0\x01\0\x02\0\0\0\0\0\0\0\0\0\0\0\0\0\0\0\0".as_slice(),
        b"\x01\0\0\0\0\0\0\0\0\0\x02\0\0\0\0\0\0\0\0\0\0\0\0\0\0\0\0",
        b"\x01\0\0\0\0\0\0\0\x01\0\x02\x40\0\0\0\0\0\0\0\0\0\0\0\0\0\0\0",
    ] {
        for file in [LOG, great] {
            for (asked, fewer) in [(0, true), (1, true), (2, false), (65535, false)] {
                let checked = check_newest(alloc, file, body, asked);
                let fault = Fault::FewerParts { asked, kept: 2 };
                assert!(rt;
                    checked.err() == fewer.then_some(fault),
                    "{asked}, {body:?}"
                );
            }
        }
    }
    for file in [LOG, great] {
        let none = check_newest(alloc, file, b"\x02\0\0\0\0\0\0\0\x01\0\0", 0);
        assert!(rt; none.err() == Some(Fault::Malformed { file, at: 0 }));
    }
    Ok(())
}

/// The worked log of docs/formats.md. Its digests were computed with another program.
const WORKED: &[u8] =
    b"\0\0\0\x13\0\0\0\0\0\0\0\x01\x01\0\0\0\0\0\0\0\x01\0\x01\0\0\0\0\0\0\0\0\xfa\x45\xed\xa8\x42\xba\xdc\x53\
    \0\0\0\x12\0\0\0\0\0\0\0\x01\0\0\0\0\0\0\0\0\0\x01\x01\x01a\0\0\0\x01x\xf7\x3d\xaa\x31\xdc\xec\x04\x37\
    \0\0\0\x0b\0\0\0\0\0\0\0\x02\0\0\0\0\0\0\0\0\0\x02\x03\xfb\x3c\x43\x8f\x1d\xca\x90\x62\
    \0\0\0\x13\0\0\0\0\0\0\0\x03\0\0\0\0\0\0\0\0\0\x03\x05\0\0\0\0\0\0\0\x01\xfe\x3f\x50\xd8\x26\x76\x02\x89";

#[test]
fn a_log_gives_its_whole_records_below_the_limit(rt: HostRuntime) -> Result<(), Fail> {
    let alloc = rt.alloc();
    assert_eq!(rt; WORKED.len(), 147);
    for len in 39..=WORKED.len() {
        for (limit, most) in [(1, 0), (2, 1), (3, 2), (4, 3), (1 << 62, 3)] {
            let (whole, stop) = match len {
                39..77 => (0, 39),
                77..108 => (1, 77),
                108..147 => (2, 108),
                _ => (3, 147),
            };
            let (count, stop) = match (whole <= most, most) {
                (true, _) => (whole, stop),
                (false, 0) => (0, 39),
                (false, 1) => (1, 77),
                (false, _) => (2, 108),
            };
            let log = read_log(
                alloc,
                LOG,
                0,
                &WORKED[..len],
                39,
                1,
                limit,
                [0].to_vec(alloc)?,
            )?;
            assert!(rt; log.records.len() == count && log.stop == stop);
            assert!(rt; log.counts.as_slice() == [count as u64].as_slice());
        }
    }
    Ok(())
}

#[test]
fn a_log_is_refused_at_the_frame(rt: HostRuntime) -> Result<(), Fail> {
    let alloc = rt.alloc();
    for (counted, at) in [(1, 39), (2, 39), (1 << 62, 39)] {
        let counts = [counted].to_vec(alloc)?;
        let read = read_log(alloc, LOG, 0, WORKED, 39, 1, 1 << 62, counts);
        assert!(rt; read.err() == Some(Fault::Malformed { file: LOG, at }));
    }
    // The third record is of a second partition: its frame is made here, the first two are the worked ones.
    let mut bytes = WORKED[..108].to_vec(alloc)?;
    mg_frame::put_frame(3, b"\0\x01\0\0\0\0\0\0\0\x01\x06", &mut bytes)?;
    let counts = [0].to_vec(alloc)?;
    let one = read_log(alloc, LOG, 0, &bytes, 39, 1, 1 << 62, counts);
    assert!(rt; one.err() == Some(Fault::Malformed { file: LOG, at: 108 }));
    let counts = [0, 0].to_vec(alloc)?;
    let two = read_log(alloc, LOG, 0, &bytes, 39, 1, 1 << 62, counts)?;
    assert!(rt; two.records.len() == 3 && two.stop == bytes.len());
    assert!(rt; two.counts.as_slice() == [2, 1].as_slice());
    Ok(())
}
