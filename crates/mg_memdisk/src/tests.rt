//! Runs through each device, by functions that are generic over it.

ghost use Rattle.std.specs.Prelude.{◌≡◌, false};
ghost use Rattle.mg_types.specs.Names.{IsFileName, IsLogName};

use crate::{MemFiles, MemHost, MemVolume};
use mg_disk::{
    DiskError, Files, Host, Kind, Name, Volume, append_and_sync, append_behind, read_found,
    store_log,
};
use std::alloc::Global;
use std::test::Fail;

// Writes a file, and reads its end and its length through a share: the length, the count, and whether the two are the same
// and may be kept by a cache.
fn write_and_read<F: Files>(
    alloc: Global,
    port: &mut F,
    bytes: &[u8],
    buf: &mut [u8],
) -> Result<(u64, usize, bool, bool), DiskError> {
    let mut draft = port.fresh(alloc)?;
    port.append(alloc, &mut draft, bytes)?;
    let file = port.seal(alloc, draft)?;
    let again = port.share(alloc, &file)?;
    let len = port.len(alloc, &again)?;
    let taken = port.read(alloc, &file, 5, buf)?;
    Ok((len, taken, port.same(&file, &again), port.keeps(&file)))
}

// Adopts an empty file under a name that is free, and finds it there.
fn adopt_and_find<V: Volume>(
    alloc: Global,
    volume: &mut V,
    port: &mut V::Port,
    name: Name,
) -> Result<bool, DiskError>
    requires { IsFileName name }
{
    if volume.names(alloc)?.contains(&name) {
        return Ok(false);
    }
    let draft = port.fresh(alloc)?;
    let file = port.seal(alloc, draft)?;
    volume.adopt(alloc, name, &file)?;
    match volume.find_file(alloc, name)? {
        Some(found) => Ok(volume.holds(name, &found)),
        None => Ok(false),
    }
}

// Seals a draft whose one append fails, and answers the file's length.
fn seal_after_failed_append<F: Files>(
    alloc: Global,
    port: &mut F,
    bytes: &[u8],
) -> Result<Option<u64>, DiskError> {
    let mut draft = port.fresh(alloc)?;
    if port.append(alloc, &mut draft, bytes).is_ok() {
        return Ok(None);
    }
    let file = port.seal(alloc, draft)?;
    Ok(Some(port.len(alloc, &file)?))
}

// Makes a log under a name that is free, appends to it, syncs it and appends more.
fn store<V: Volume>(
    alloc: Global,
    volume: &mut V,
    name: Name,
    synced: &[u8],
    behind: &[u8],
) -> Result<bool, DiskError>
    requires { IsLogName name }
{
    if volume.names(alloc)?.contains(&name) {
        return Ok(false);
    }
    let mut log = volume.new_log(alloc, name)?;
    append_and_sync(alloc, volume, &mut log, synced)?;
    append_behind(alloc, volume, &mut log, behind)?;
    Ok(true)
}

// The length of a log, if it is there.
fn len_of<V: Volume>(alloc: Global, volume: &mut V, name: Name) -> Result<Option<u64>, DiskError>
    requires { IsLogName name }
{
    if !volume.names(alloc)?.contains(&name) {
        return Ok(None);
    }
    Ok(Some(volume.log_len(alloc, name)?))
}

// Reads a log from the start, if it is there.
fn read_all<V: Volume>(
    alloc: Global,
    volume: &mut V,
    name: Name,
    buf: &mut [u8],
) -> Result<Option<usize>, DiskError>
    requires { IsLogName name }
{
    if !volume.names(alloc)?.contains(&name) {
        return Ok(None);
    }
    Ok(Some(volume.read_log(alloc, name, 0, buf)?))
}

// Reads a piece of a log, if it is there.
fn read_piece<V: Volume>(
    alloc: Global,
    volume: &mut V,
    name: Name,
    at: u64,
    buf: &mut [u8],
) -> Result<Option<usize>, DiskError>
    requires { IsLogName name }
{
    if !volume.names(alloc)?.contains(&name) {
        return Ok(None);
    }
    Ok(Some(volume.read_log(alloc, name, at, buf)?))
}

// The bytes of a host's settings, told twice: None where they differ.
fn settings_of<H: Host>(alloc: Global, host: &mut H) -> Result<Option<Option<Vec<u8>>>, DiskError> {
    let first = host.settings(alloc)?;
    let second = host.settings(alloc)?;
    Ok(if first == second { Some(first) } else { None })
}

// Adopts a file, takes its name away again, and stores a log.
fn fill<V: Volume>(
    alloc: Global,
    volume: &mut V,
    port: &mut V::Port,
    file: Name,
    log: Name,
) -> Result<bool, DiskError>
    requires file { IsFileName file }
    requires log { IsLogName log }
{
    let found = adopt_and_find(alloc, volume, port, file)?;
    volume.remove(alloc, file)?;
    let stored = store(alloc, volume, log, b"synced", b", not")?;
    Ok(found && stored && !volume.names(alloc)?.contains(&file))
}

// Borrows volume 3 and a port of a host without settings, fills the volume, and gives both back.
fn fill_third<H: Host>(
    alloc: Global,
    host: &mut H,
    file: Name,
    log: Name,
) -> Result<bool, DiskError>
    requires file { IsFileName file }
    requires log { IsLogName log }
    requires here { (H.state host.old).out 3 ≡ false }
    ensures { (H.state host.new).out 3 ≡ false }
{
    if host.settings(alloc)?.is_some() {
        return Ok(false);
    }
    let mut port = host.files(alloc)?;
    let mut volume = host.volume(alloc, 3)?;
    let filled = fill(alloc, &mut volume, &mut port, file, log);
    host.give_back(3, volume);
    host.give_port(port);
    filled
}

// Fills a volume one of whose calls fails, and answers whether a name is there then: in what reads give, and in what a crash
// leaves by the choice of 0 and of 1.
fn doubted(
    alloc: Global,
    volume: &mut MemVolume,
    file: Name,
    log: Name,
    name: Name,
) -> Result<[bool; 3], DiskError>
    requires file { IsFileName file }
    requires log { IsLogName log }
{
    let mut port = MemFiles::new(Vec::new(alloc));
    let _ = fill(alloc, volume, &mut port, file, log);
    let read = volume.names(alloc)?.contains(&name);
    let before = volume.crash(alloc, &[0])?.names(alloc)?.contains(&name);
    let after = volume.crash(alloc, &[1])?.names(alloc)?.contains(&name);
    Ok([read, before, after])
}

#[test]
fn a_file_is_written_and_read(rt: HostRuntime) -> Result<(), Fail> {
    let alloc = rt.alloc();
    let mut port = MemFiles::new(Vec::new(alloc));
    let mut buf = [0; 4];
    let answer = write_and_read(alloc, &mut port, b"segment", &mut buf)?;
    assert_eq!(rt; answer, (7, 2, true, true));
    assert_eq!(rt; buf, [b'n', b't', 0, 0]);
    Ok(())
}

#[test]
fn a_host_gives_back_what_was_stored(rt: HostRuntime) -> Result<(), Fail> {
    let alloc = rt.alloc();
    let file = Name {
        kind: Kind::Segment,
        number: 7,
    };
    let log = Name {
        kind: Kind::Wal,
        number: 1,
    };
    let next = Name {
        kind: Kind::Wal,
        number: 2,
    };
    let mut host = MemHost::new(alloc, None);
    assert_eq!(rt; fill_third(alloc, &mut host, file, log), Ok(true));
    // the crash puts one byte behind the six that were synced
    let left = host.left(3).crash(alloc, &[0, 1, b'!'])?;
    let mut buf = [0; 12];
    assert_eq!(rt;
        read_found(alloc, &mut host, 3, log, &mut buf),
        Ok(Some(11))
    );
    assert_eq!(rt; buf, *b"synced, not\0");
    host.put(3, left)?;
    assert_eq!(rt; read_found(alloc, &mut host, 3, log, &mut buf), Ok(Some(7)));
    assert_eq!(rt; buf, *b"synced! not\0");
    assert_eq!(rt; store_log(alloc, &mut host, 3, log, b"x"), Ok(false));
    assert_eq!(rt; store_log(alloc, &mut host, 3, next, b"x"), Ok(true));
    Ok(())
}

// A log of six bytes and five behind them, which came in two appends.
#[test]
fn a_log_is_read_in_pieces(rt: HostRuntime) -> Result<(), Fail> {
    let alloc = rt.alloc();
    let log = Name {
        kind: Kind::Wal,
        number: 1,
    };
    let mut volume = MemVolume::new(alloc, Vec::new(alloc));
    assert_eq!(rt;
        store(alloc, &mut volume, log, b"synced", b", not"),
        Ok(true)
    );
    assert_eq!(rt; len_of(alloc, &mut volume, log), Ok(Some(11)));
    for (at, count, bytes) in [
        (0, 4, *b"sync"),
        (3, 4, *b"ced,"),
        (4, 4, *b"ed, "),
        (6, 4, *b", no"),
        (9, 2, *b"ot--"),
        (11, 0, *b"----"),
        (u64::MAX, 0, *b"----"),
    ] {
        let mut buf = *b"----";
        assert_eq!(rt;
            read_piece(alloc, &mut volume, log, at, &mut buf),
            Ok(Some(count))
        );
        assert_eq!(rt; buf, bytes);
    }
    Ok(())
}

#[test]
fn a_host_tells_its_settings(rt: HostRuntime) -> Result<(), Fail> {
    let alloc = rt.alloc();
    let mut host = MemHost::new(alloc, Some(b"parts = 2".to_vec(alloc)?));
    let told = settings_of(alloc, &mut host)?;
    assert_eq!(rt; told, Some(Some(b"parts = 2".to_vec(alloc)?)));
    let mut host = MemHost::new(alloc, None);
    assert_eq!(rt; settings_of(alloc, &mut host)?, Some(None));
    Ok(())
}

// The first port that the host makes fails its second call, which puts the first two of five bytes behind the draft's.
#[test]
fn a_failed_append_leaves_the_first_half(rt: HostRuntime) -> Result<(), Fail> {
    let alloc = rt.alloc();
    let mut host = MemHost::new(alloc, None);
    host.next_port([2].to_vec(alloc)?)?;
    let mut port = host.files(alloc)?;
    assert_eq!(rt;
        seal_after_failed_append(alloc, &mut port, b"abcde"),
        Ok(Some(2))
    );
    assert_eq!(rt; port.faults().get(), 1);
    Ok(())
}

#[test]
fn the_listed_call_fails(rt: HostRuntime) -> Result<(), Fail> {
    let alloc = rt.alloc();
    let mut port = MemFiles::new([2].to_vec(alloc)?);
    let mut buf = [0; 4];
    assert_eq!(rt;
        write_and_read(alloc, &mut port, b"segment", &mut buf),
        Err(DiskError::Failed)
    );
    assert_eq!(rt; port.faults().get(), 1);
    // the fifth call is the second append, which puts the first half of its five bytes behind the six that are there
    let mut volume = MemVolume::new(alloc, [5].to_vec(alloc)?);
    let log = Name {
        kind: Kind::Wal,
        number: 1,
    };
    assert_eq!(rt;
        store(alloc, &mut volume, log, b"synced", b", not"),
        Err(DiskError::Failed)
    );
    assert_eq!(rt; len_of(alloc, &mut volume, log), Ok(Some(8)));
    assert_eq!(rt; volume.faults().get(), 1);
    Ok(())
}

// Of a log with one synced byte and one behind it a crash leaves the first byte, and behind it nothing or any byte.
#[test]
fn a_crash_leaves_each_allowed_image(rt: HostRuntime) -> Result<(), Fail> {
    let alloc = rt.alloc();
    let log = Name {
        kind: Kind::Wal,
        number: 1,
    };
    let mut volume = MemVolume::new(alloc, Vec::new(alloc));
    assert_eq!(rt; store(alloc, &mut volume, log, b"a", b"b"), Ok(true));
    let mut left = volume.crash(alloc, b"")?;
    let mut buf = [0; 3];
    assert_eq!(rt; read_all(alloc, &mut left, log, &mut buf), Ok(Some(1)));
    assert_eq!(rt; buf, [b'a', 0, 0]);
    for behind in 0..=255 {
        let mut left = volume.crash(alloc, &[0, 1, behind, 1, b'c'])?;
        assert_eq!(rt; read_all(alloc, &mut left, log, &mut buf), Ok(Some(2)));
        assert_eq!(rt; buf, [b'a', behind, 0]);
    }
    Ok(())
}

// A name whose adoption, removal or making failed is read as it is said, and a crash leaves it or not, whichever it is.
#[test]
fn a_name_whose_change_failed_is_in_doubt(rt: HostRuntime) -> Result<(), Fail> {
    let alloc = rt.alloc();
    let file = Name {
        kind: Kind::Segment,
        number: 7,
    };
    let log = Name {
        kind: Kind::Wal,
        number: 1,
    };
    // the second call adopts the file, the fourth removes its name, the sixth makes the log
    for (call, name, was) in [(2, file, false), (4, file, true), (6, log, false)] {
        let mut hidden = MemVolume::new(alloc, [call].to_vec(alloc)?);
        let mut shown = MemVolume::new(alloc, [call].to_vec(alloc)?).showing();
        assert_eq!(rt;
            doubted(alloc, &mut hidden, file, log, name),
            Ok([was, was, !was])
        );
        assert_eq!(rt;
            doubted(alloc, &mut shown, file, log, name),
            Ok([!was, was, !was])
        );
    }
    Ok(())
}

// The second call of a volume that was put fails where it is lent, and no other.
#[test]
fn a_lent_volume_fails_at_its_listed_call(rt: HostRuntime) -> Result<(), Fail> {
    let alloc = rt.alloc();
    let log = Name {
        kind: Kind::Wal,
        number: 1,
    };
    let mut host = MemHost::new(alloc, None);
    host.put(3, MemVolume::new(alloc, [2].to_vec(alloc)?))?;
    assert_eq!(rt;
        store_log(alloc, &mut host, 3, log, b"x"),
        Err(DiskError::Failed)
    );
    assert_eq!(rt; store_log(alloc, &mut host, 3, log, b"x"), Ok(true));
    Ok(())
}
