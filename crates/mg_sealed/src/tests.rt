use super::*;
use mg_disk::{DiskError, Files};
use mg_memdisk::{MemFiles, MemSealed};
use mg_types::{Fault, FileId, Kind};
use std::alloc::Global;
use std::test::Fail;

const ID: FileId = FileId {
    part: 0,
    kind: Kind::Table,
    number: 7,
};

/// The frames 0 and 1 of the bodies `ab` and `c`. Their digests were computed with another program.
const FILE: [u8; 43] = [
    0, 0, 0, 2, 0, 0, 0, 0, 0, 0, 0, 0, b'a', b'b', 0x8c, 0xcc, 0xe5, 0xba, 0xa6, 0x37, 0x12, 0x78,
    0, 0, 0, 1, 0, 0, 0, 0, 0, 0, 0, 1, b'c', 0xc4, 0x11, 0xdf, 0x0b, 0x90, 0xed, 0x4d, 0xa9,
];

fn seal(alloc: Global, port: &mut MemFiles, bytes: &[u8]) -> Result<MemSealed, DiskError> {
    let mut draft = port.fresh(alloc)?;
    port.append(alloc, &mut draft, bytes)?;
    port.seal(alloc, draft)
}

fn damaged(at: u64, kept: u64, found: u64) -> Fault {
    Fault::Damaged {
        file: ID,
        at,
        kept,
        found,
    }
}

/// What is read at a place of a file of these bytes.
fn read(
    alloc: Global,
    bytes: &[u8],
    at: u64,
    expected: usize,
    number: u64,
) -> Result<Vec<u8>, Fault> {
    let mut port = MemFiles::new(Vec::new(alloc));
    let Ok(file) = seal(alloc, &mut port, bytes) else {
        return Err(Fault::WriteFault);
    };
    let file = open_sealed(alloc, &mut port, ID, file, bytes.len() as u64, 0)?;
    if at >= 1 << 62 {
        return Err(Fault::BadWords);
    }
    let frame = read_frame(alloc, &mut port, &file, at, expected, number)?;
    let body = frame.body().to_vec(alloc)?;
    if body.as_slice() == frame.into_body().as_slice() {
        Ok(body)
    } else {
        Err(Fault::BadWords)
    }
}

#[test]
fn frames_are_read_whatever_was_expected(rt: HostRuntime) -> Result<(), Fail> {
    let alloc = rt.alloc();
    for expected in [0, 12, 21, 22, 30, 4_116] {
        assert_eq!(rt;
            read(alloc, &FILE, 0, expected, 0)?.as_slice(),
            b"ab".as_slice()
        );
        assert_eq!(rt;
            read(alloc, &FILE, 22, expected, 1)?.as_slice(),
            b"c".as_slice()
        );
    }
    Ok(())
}

#[test]
fn each_damage_is_named(rt: HostRuntime) -> Result<(), Fail> {
    let alloc = rt.alloc();
    let mut torn = FILE;
    torn[12] = b'x';
    let mut long = FILE;
    long[3] = 200;
    let rows: [(&[u8], u64, u64, Fault); 8] = [
        (&FILE[..42], 22, 1, damaged(22, 43, 42)),
        (&FILE[..30], 22, 1, damaged(22, 34, 30)),
        (&FILE, 43, 2, damaged(43, 55, 43)),
        (&FILE, 99, 2, damaged(99, 111, 43)),
        (&FILE, 0, 1, damaged(0, 0, 1)),
        (&FILE, 22, 0, damaged(22, 1, 0)),
        (
            &torn,
            0,
            0,
            damaged(0, 0x8ccc_e5ba_a637_1278, 0x5911_cb13_bc71_221c),
        ),
        (&long, 0, 9, damaged(0, 220, 43)),
    ];
    for (bytes, at, number, fault) in rows {
        for expected in [0, 20, 4_116] {
            assert_eq!(rt; read(alloc, bytes, at, expected, number).err(), Some(fault));
        }
    }
    Ok(())
}

#[test]
fn a_block_is_read_at_once_and_gives_its_buffer_back(rt: HostRuntime) -> Result<(), Fail> {
    let alloc = rt.alloc();
    // Three calls write the file and one asks for its length, so that the second read fails.
    let mut port = MemFiles::new(vec![in alloc; 6]?);
    let file = seal(alloc, &mut port, &FILE)?;
    let file = open_sealed(alloc, &mut port, ID, file, 43, 0)?;
    let block = port.block(alloc, &file, 0, 22, 0, Vec::new(alloc))?;
    assert_eq!(rt; block.body(), b"ab".as_slice());
    let buffer = block.into_buffer();
    let second = port.block(alloc, &file, 22, 21, 1, Vec::new(alloc));
    assert_eq!(rt; second.err(), Some(Fault::ReadFault));
    let block = port.block(alloc, &file, 22, 21, 1, buffer)?;
    assert_eq!(rt; block.body(), b"c".as_slice());
    let long = port.block(alloc, &file, 22, 22, 1, block.into_buffer());
    assert_eq!(rt; long.err(), Some(Fault::Malformed { file: ID, at: 22 }));
    Ok(())
}

#[test]
fn lengths_are_judged_first(rt: HostRuntime) -> Result<(), Fail> {
    let alloc = rt.alloc();
    for (len, least, fault) in [
        (43, 43, None),
        (44, 65, Some(damaged(0, 44, 43))),
        (43, 65, Some(damaged(0, 65, 43))),
    ] {
        let mut port = MemFiles::new(Vec::new(alloc));
        let file = seal(alloc, &mut port, &FILE)?;
        let opened = open_sealed(alloc, &mut port, ID, file, len, least);
        assert_eq!(rt; opened.err(), fault);
    }
    Ok(())
}

#[test]
fn the_first_number_that_is_too_great_is_damaged(rt: HostRuntime) {
    let most = (1 << 62) - 1;
    assert_eq!(rt; check_numbers(ID, 5, &[0, most, 7]), Ok(()));
    assert_eq!(rt;
        check_numbers(ID, 5, &[most, 1 << 62, 1 << 63]),
        Err(damaged(5, 1 << 62, 1 << 62))
    );
    let malformed = Fault::Malformed { file: ID, at: 5 };
    for (offset, answer) in [
        (7, Ok(())),
        (8, Err(malformed)),
        (1 << 62, Err(damaged(5, 1 << 62, 1 << 62))),
    ] {
        assert_eq!(rt; check_offset(ID, 5, 7, offset), answer);
    }
    let most = (1 << 32) - 1;
    assert_eq!(rt; grown(most - 20, 20), Ok(most));
    assert_eq!(rt; grown(most - 20, 21), Err(Fault::Worn { kept: most - 20 }));
}

/// A footer with number 1 behind one block. Its digest was computed with another program.
const FOOTER: [u8; 24] = [
    0, 0, 0, 4, 0, 0, 0, 0, 0, 0, 0, 1, 0, 0, 0, 1, 0xf2, 0xe2, 0x86, 0x31, 0x21, 0x43, 0x2d, 0x70,
];

/// The body of the footer of a file of these bytes, whose frame has `size` bytes and stands behind one block and `others`.
fn footer(alloc: Global, bytes: &[u8], size: u64, others: u64) -> Result<Vec<u8>, Fault> {
    let mut port = MemFiles::new(Vec::new(alloc));
    let Ok(file) = seal(alloc, &mut port, bytes) else {
        return Err(Fault::WriteFault);
    };
    let file = open_sealed(alloc, &mut port, ID, file, bytes.len() as u64, size)?;
    if size < 24 || others >= 1 << 32 || file.len >= 1 << 62 {
        return Err(Fault::BadWords);
    }
    Ok(read_footer(alloc, &mut port, &file, size, others)?.into_body())
}

#[test]
fn a_footer_is_judged(rt: HostRuntime) -> Result<(), Fail> {
    let alloc = rt.alloc();
    assert_eq!(rt;
        footer(alloc, &FOOTER, 24, 0)?.as_slice(),
        [0, 0, 0, 1].as_slice()
    );
    let mut behind = [0; 25];
    behind[1..].copy_from_slice(&FOOTER);
    assert_eq!(rt;
        footer(alloc, &behind, 24, 0)?.as_slice(),
        [0, 0, 0, 1].as_slice()
    );
    // One frame more should stand before it.
    assert_eq!(rt; footer(alloc, &FOOTER, 24, 1).err(), Some(damaged(0, 1, 2)));
    // A footer of another length.
    behind[..24].copy_from_slice(&FOOTER);
    let malformed = Fault::Malformed { file: ID, at: 0 };
    assert_eq!(rt; footer(alloc, &behind, 25, 0).err(), Some(malformed));
    let mut torn = FOOTER;
    torn[15] = 2;
    assert_eq!(rt;
        footer(alloc, &torn, 24, 9).err(),
        Some(damaged(0, 0xf2e2_8631_2143_2d70, 0x00cd_190f_e98a_7b36))
    );
    torn[3] = 5;
    assert_eq!(rt; footer(alloc, &torn, 24, 0).err(), Some(damaged(0, 25, 24)));
    Ok(())
}

/// The bytes of a file that is written frame by frame, through a port of which the call with this number fails.
fn written(alloc: Global, failing: u64) -> Result<Vec<u8>, Fault> {
    let mut port = MemFiles::new(vec![in alloc; failing]?);
    let mut writer = start_frames(alloc, &mut port)?;
    let first = append_frame(alloc, &mut port, &mut writer, b"ab")?;
    let second = append_frame(alloc, &mut port, &mut writer, b"c")?;
    if writer.len() != 43 || writer.count() != 2 {
        return Err(Fault::BadWords);
    }
    let file = seal_frames(alloc, &mut port, writer, ID)?;
    let frame = read_frame(alloc, &mut port, &file, 0, first.len as usize, 0)?;
    if frame.body() != b"ab".as_slice() || second != (Placed { at: 22, len: 21 }) {
        return Err(Fault::BadWords);
    }
    let mut bytes = vec![in alloc; 0u8; 50]?;
    let Ok(count) = port.read(alloc, &file.file, 0, &mut bytes) else {
        return Err(Fault::BadWords);
    };
    bytes.truncate(count);
    Ok(bytes)
}

#[test]
fn a_file_is_its_frames(rt: HostRuntime) -> Result<(), Fail> {
    let alloc = rt.alloc();
    assert_eq!(rt; written(alloc, 0)?.as_slice(), FILE.as_slice());
    let faults = [
        Fault::WriteFault,
        Fault::WriteFault,
        Fault::WriteFault,
        Fault::WriteFault,
        Fault::ReadFault,
    ];
    for (call, fault) in faults.iter().enumerate() {
        assert_eq!(rt; written(alloc, call as u64 + 1).err(), Some(*fault));
    }
    Ok(())
}

#[test]
fn what_goes_through_a_port_is_counted(rt: HostRuntime) -> Result<(), Fail> {
    let alloc = rt.alloc();
    let mut port = CountingFiles::new(MemFiles::new(Vec::new(alloc)));
    let mut draft = port.fresh(alloc)?;
    port.append(alloc, &mut draft, b"segment")?;
    let file = port.seal(alloc, draft)?;
    let mut buf = [0; 4];
    assert_eq!(rt; port.read(alloc, &file, 5, &mut buf)?, 2);
    assert_eq!(rt; port.bytes_written, 7);
    assert_eq!(rt; port.take_reads(), (1, 2));
    assert_eq!(rt; port.take_reads(), (0, 0));
    Ok(())
}
