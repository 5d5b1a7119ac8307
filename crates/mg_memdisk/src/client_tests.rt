//! The small clients of `mg_disk`, run over the devices in memory.

ghost use Rattle.std.specs.Prelude.{◌≡◌, false};
ghost use Rattle.mg_types.specs.Names.{IsFileName};
ghost use Rattle.mg_memdisk.specs.Hosts.{mem_state};

use crate::{MemFiles, MemHost, MemVolume};
use mg_disk::{
    DiskError, Host, Kind, Name, SendVolume, adopt_file, numbers, read_file, read_two_files,
    store_file, write_file,
};
use std::alloc::Global;
use std::test::Fail;
use std::thread::Threads;

// The crash of volume 3 by this choice takes its place, and a file of it is read.
fn left_and_read(
    alloc: Global,
    host: &mut MemHost,
    choice: &[u8],
    name: Name,
    buf: &mut [u8],
) -> Result<Option<usize>, DiskError>
    requires here { (mem_state host.old).out 3 ≡ false }
    requires kind { IsFileName name }
    ensures { (mem_state host.new).out 3 ≡ false }
{
    let left = host.left(3).crash(alloc, choice)?;
    host.put(3, left)?;
    read_file(alloc, host, 3, name, buf)
}

// Stores a file in volume 3 of a host whose volume 3 fails these calls, and reads it after the crash by this choice. Answers
// whether it was stored, and what was read.
fn stored_and_left(
    alloc: Global,
    failing: Vec<u64>,
    choice: &[u8],
    buf: &mut [u8],
) -> Result<(Result<bool, DiskError>, Option<usize>), DiskError> {
    let name = Name {
        kind: Kind::Segment,
        number: 7,
    };
    let mut host = MemHost::new(alloc, None);
    host.put(3, MemVolume::new(alloc, failing))?;
    let stored = store_file(alloc, &mut host, 3, name, b"segment");
    let found = left_and_read(alloc, &mut host, choice, name, buf)?;
    Ok((stored, found))
}

// A file that was adopted with Ok is there after each crash.
#[test]
fn a_stored_file_outlives_a_crash(rt: HostRuntime) -> Result<(), Fail> {
    let alloc = rt.alloc();
    for choice in [0, 1] {
        let mut buf = *b"---------";
        let answer = stored_and_left(alloc, Vec::new(alloc), &[choice], &mut buf)?;
        assert_eq!(rt; answer, (Ok(true), Some(7)));
        assert_eq!(rt; buf, *b"segment--");
    }
    Ok(())
}

// The second call of the volume is the adoption. It fails, and a crash leaves the file or not.
#[test]
fn an_adoption_that_failed_may_be_left(rt: HostRuntime) -> Result<(), Fail> {
    let alloc = rt.alloc();
    for (choice, found) in [(0, None), (1, Some(7))] {
        let mut buf = *b"---------";
        let failing = [2].to_vec(alloc)?;
        let answer = stored_and_left(alloc, failing, &[choice], &mut buf)?;
        assert_eq!(rt; answer, (Err(DiskError::Failed), found));
    }
    Ok(())
}

#[test]
fn a_name_is_stored_once(rt: HostRuntime) -> Result<(), Fail> {
    let alloc = rt.alloc();
    let mut volume = MemVolume::new(alloc, Vec::new(alloc));
    let mut port = MemFiles::new(Vec::new(alloc));
    let name = Name {
        kind: Kind::Table,
        number: 1,
    };
    let file = write_file(alloc, &mut port, b"table")?;
    assert_eq!(rt; adopt_file(alloc, &mut volume, name, &file), Ok(true));
    assert_eq!(rt; adopt_file(alloc, &mut volume, name, &file), Ok(false));
    Ok(())
}

#[test]
fn the_numbers_of_a_kind_rise(rt: HostRuntime) -> Result<(), Fail> {
    let alloc = rt.alloc();
    let name = |kind, number| Name { kind, number };
    let names = [
        name(Kind::Wal, 9),
        name(Kind::Table, 2),
        name(Kind::Wal, 3),
        name(Kind::Segment, 3),
        name(Kind::Wal, 4),
    ];
    let found = numbers(alloc, &names, Kind::Wal)?;
    assert_eq!(rt; found.as_slice(), [3, 4, 9].as_slice());
    let found = numbers(alloc, &names, Kind::Manifest)?;
    assert!(rt; found.is_empty());
    Ok(())
}

// Writes two files and reads both in two threads.
fn written_and_read<H: Host<Vol: SendVolume>, R: Threads>(
    rt: &R,
    alloc: Global,
    host: &mut H,
) -> Result<(Vec<u8>, Vec<u8>), DiskError> {
    let mut port = host.files(alloc)?;
    let first = write_file(alloc, &mut port, b"first");
    let second = write_file(alloc, &mut port, b"the second");
    host.give_port(port);
    read_two_files(rt, alloc, host, &first?, &second?, 8)
}

#[test]
fn two_files_are_read_in_two_threads(rt: HostRuntime) -> Result<(), Fail> {
    let alloc = rt.alloc();
    let mut host = MemHost::new(alloc, None);
    let (first, second) = written_and_read(&rt, alloc, &mut host)?;
    assert_eq!(rt; first.as_slice(), b"first".as_slice());
    assert_eq!(rt; second.as_slice(), b"the seco".as_slice());
    Ok(())
}
