//! Documents and what is said of them, by the formats' table.

use crate::{MAX_LEN, Settings, read_settings};
use mg_types::Fault;
use std::process::Abort;
use std::test::Fail;

const fn settings(
    partitions: u16,
    workers: u8,
    memtable: u64,
    cache: u32,
) -> Result<Settings, Fault> {
    Ok(Settings {
        partitions,
        workers,
        memtable,
        cache,
    })
}

const fn refused(at: u8) -> Result<Settings, Fault> {
    Err(Fault::BadSettings { at })
}

#[test]
fn documents_are_judged(rt: HostRuntime) -> Result<(), Fail> {
    let cases = [
        ("", settings(1, 2, 1_048_576, 1_024)),
        (
            "# nothing is said\n\n  # here\n",
            settings(1, 2, 1_048_576, 1_024),
        ),
        ("partitions = 1", settings(1, 2, 1_048_576, 1_024)),
        ("partitions = 64\n", settings(64, 2, 1_048_576, 1_024)),
        ("partitions = 0\n", refused(2)),
        ("partitions = 65\n", refused(2)),
        ("partitions = -1\n", refused(2)),
        ("partitions = 65537\n", refused(2)),
        ("partitions = 4294967297\n", refused(2)),
        ("partitions = 9223372036854775807\n", refused(2)),
        ("partitions = 9223372036854775808\n", refused(0)),
        ("partitions = 0x10\n", settings(16, 2, 1_048_576, 1_024)),
        ("partitions = 1.0\n", refused(2)),
        ("partitions = \"1\"\n", refused(2)),
        ("partitions = true\n", refused(2)),
        ("partitions = [1]\n", refused(2)),
        ("partitions = { n = 1 }\n", refused(2)),
        ("[partitions]\n", refused(2)),
        ("partitions = 1\npartitions = 1\n", refused(0)),
        ("partitions = 01\n", refused(0)),
        ("partitions =\n", refused(0)),
        ("partitions\n", refused(0)),
        ("workers = 0\n", settings(1, 0, 1_048_576, 1_024)),
        ("workers = 8\n", settings(1, 8, 1_048_576, 1_024)),
        ("workers = 9\n", refused(3)),
        ("workers = 256\n", refused(3)),
        ("workers = 1979-05-27\n", refused(3)),
        ("workers = -0\n", settings(1, 0, 1_048_576, 1_024)),
        ("memtable = 1_024\n", settings(1, 2, 1_024, 1_024)),
        ("memtable = 1023\n", refused(4)),
        ("memtable = 16777216\n", settings(1, 2, 16_777_216, 1_024)),
        ("memtable = 16777217\n", refused(4)),
        ("memtable = 1e6\n", refused(4)),
        ("[[memtable]]\n", refused(4)),
        ("cache = 0\n", settings(1, 2, 1_048_576, 0)),
        ("cache = 65536\n", settings(1, 2, 1_048_576, 65_536)),
        ("cache = 65537\n", refused(5)),
        ("cache = -9223372036854775808\n", refused(5)),
        ("cache = inf\n", refused(5)),
        ("cache = 07:32:00\n", refused(5)),
        (
            "partitions = 2\nworkers = 3\nmemtable = 4096\ncache = 5\n",
            settings(2, 3, 4_096, 5),
        ),
        (
            "cache = 5\nmemtable = 4096\nworkers = 3\npartitions = 2\n",
            settings(2, 3, 4_096, 5),
        ),
        ("\"cache\" = 7 # blocks\r\n", settings(1, 2, 1_048_576, 7)),
        ("colour = 1\n", refused(1)),
        ("Partitions = 1\n", refused(1)),
        ("\"\" = 1\n", refused(1)),
        ("partitions = 65\ncolour = 1\n", refused(1)),
        ("partitions.colour = 1\n", refused(2)),
        ("cache = -1\nworkers = 9\n", refused(3)),
        ("cache = -1\nmemtable = 0\n", refused(4)),
        ("colour = 1\ncolour = 2\n", refused(0)),
        ("partitions = 65\nworkers\n", refused(0)),
    ];
    let alloc = rt.alloc();
    for (text, expected) in cases.iter() {
        assert_eq!(rt; read_settings(alloc, Some(text.as_bytes())), *expected);
    }
    Ok(())
}

#[test]
fn no_document_gives_defaults(rt: HostRuntime) -> Result<(), Fail> {
    assert_eq!(rt;
        read_settings(rt.alloc(), None),
        settings(1, 2, 1_048_576, 1_024)
    );
    Ok(())
}

#[test]
fn bytes_are_counted_and_utf_8(rt: HostRuntime) -> Result<(), Fail> {
    let alloc = rt.alloc();
    assert_eq!(rt;
        read_settings(alloc, Some(b"cache = 1 # \xFF\n")),
        refused(0)
    );
    assert_eq!(rt; read_settings(alloc, Some(b"\xC0\x80")), refused(0));
    let mut spaces = Vec::new(alloc);
    spaces.resize(MAX_LEN, b' ')?;
    assert_eq!(rt;
        read_settings(alloc, Some(spaces.as_slice())),
        settings(1, 2, 1_048_576, 1_024)
    );
    spaces.push(b' ')?;
    assert_eq!(rt; read_settings(alloc, Some(spaces.as_slice())), refused(0));
    Ok(())
}
