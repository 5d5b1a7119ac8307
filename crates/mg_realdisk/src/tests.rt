//! Devices over folders in the system's folder of temporary files.

use crate::RealHost;
use crate::names::{is_draft, name_of};
use mg_disk::{
    DiskError, Files, Host, Kind, Name, Volume, read_file, read_found, store_file, store_log,
    write_file,
};
use std::os::unix::fs::MetadataExt;
use std::test::Fail;
use std::{env, fs, io, process};

const TABLE: Name = Name {
    kind: Kind::Table,
    number: 42,
};

const LOG: Name = Name {
    kind: Kind::Wal,
    number: 7,
};

// An empty folder for one test, which no other test names.
fn new_folder(rt: &HostRuntime, test: &str) -> io::Result<String> {
    let temporary = env::temp_dir(rt)?;
    let root = temporary.as_str();
    let id = process::id(rt.process());
    let folder = format!(in rt.alloc(); "{root}/mg_realdisk-{id}-{test}")?;
    fs::create_dir(rt, &folder)?;
    Ok(folder)
}

// Stores a file in a partition's volume and a log in the log's, and drops the host.
fn store(rt: HostRuntime, folder: &str) -> Result<(bool, bool), DiskError> {
    let alloc = rt.alloc();
    let mut host = RealHost::new(rt, String::from_str(alloc, folder)?);
    let adopted = store_file(alloc, &mut host, 3, TABLE, b"a table")?;
    let made = store_log(alloc, &mut host, 65535, LOG, b"a log")?;
    Ok((adopted, made))
}

// What a host over that folder reads of both: how many bytes there are, where there are any.
fn read(
    rt: HostRuntime,
    folder: &str,
    table: &mut [u8],
    log: &mut [u8],
) -> Result<(Option<usize>, Option<usize>), DiskError> {
    let alloc = rt.alloc();
    let mut host = RealHost::new(rt, String::from_str(alloc, folder)?);
    let in_table = read_file(alloc, &mut host, 3, TABLE, table)?;
    let in_log = read_found(alloc, &mut host, 65535, LOG, log)?;
    Ok((in_table, in_log))
}

#[test]
fn a_second_host_reads_what_the_first_stored(rt: HostRuntime) -> Result<(), Fail> {
    let folder = new_folder(&rt, "stored")?;
    let root = format!(in rt.alloc(); "{folder}/above/store")?;
    let (mut table, mut log) = (*b"---------", *b"---------");
    assert_eq!(rt; store(rt, &root)?, (true, true));
    let found = read(rt, &root, &mut table, &mut log)?;
    assert_eq!(rt; found, (Some(7), Some(5)));
    assert_eq!(rt; table, *b"a table--");
    assert_eq!(rt; log, *b"a log----");
    fs::remove_dir_all(&rt, &folder)?;
    Ok(())
}

#[test]
fn files_stand_where_their_names_say(rt: HostRuntime) -> Result<(), Fail> {
    let alloc = rt.alloc();
    let folder = new_folder(&rt, "spelled")?;
    store(rt, &folder)?;
    let table = fs::read(&rt, format!(in alloc; "{folder}/p03/t000000000000002a")?)?;
    assert_eq!(rt; table.as_slice(), b"a table".as_slice());
    let log = fs::read(&rt, format!(in alloc; "{folder}/wal/w0000000000000007")?)?;
    assert_eq!(rt; log.as_slice(), b"a log".as_slice());
    fs::remove_dir_all(&rt, &folder)?;
    Ok(())
}

// Each call over that folder that makes or reads something.
fn call_each(rt: HostRuntime, folder: &str) -> Result<[bool; 3], DiskError> {
    let alloc = rt.alloc();
    let mut host = RealHost::new(rt, String::from_str(alloc, folder)?);
    let volume = host.volume(alloc, 0);
    let port = host.files(alloc);
    let settings = host.settings(alloc);
    Ok([
        has_failed(&volume),
        has_failed(&port),
        has_failed(&settings),
    ])
}

fn has_failed<T>(answer: &Result<T, DiskError>) -> bool {
    matches!(answer, Err(DiskError::Failed))
}

#[test]
fn a_folder_that_is_a_file_fails_and_stays(rt: HostRuntime) -> Result<(), Fail> {
    let folder = new_folder(&rt, "file")?;
    let file = format!(in rt.alloc(); "{folder}/file")?;
    fs::write(&rt, &file, "text")?;
    assert_eq!(rt; call_each(rt, &file)?, [true, true, true]);
    assert_eq!(rt; call_each(rt, "")?, [true, true, true]);
    let text = fs::read_to_string(&rt, &file)?;
    assert_eq!(rt; text.as_str(), "text");
    fs::remove_dir_all(&rt, &folder)?;
    Ok(())
}

#[test]
fn a_folder_serves_one_host_at_a_time(rt: HostRuntime) -> Result<(), Fail> {
    let alloc = rt.alloc();
    let folder = new_folder(&rt, "locked")?;
    let mut host = RealHost::new(rt, String::from_str(alloc, &folder)?);
    let volume = host.volume(alloc, 0)?;
    drop(host);
    assert_eq!(rt; call_each(rt, &folder)?, [true, true, true]);
    drop(volume);
    assert_eq!(rt; call_each(rt, &folder)?, [false, false, false]);
    fs::remove_dir_all(&rt, &folder)?;
    Ok(())
}

// What is in the folder of drafts before and after a host has made its first port.
#[test]
fn only_drafts_are_deleted(rt: HostRuntime) -> Result<(), Fail> {
    let alloc = rt.alloc();
    let folder = new_folder(&rt, "drafts")?;
    let draft = format!(in alloc; "{folder}/tmp/d000000010000000000000001")?;
    let other = format!(in alloc; "{folder}/tmp/d00000001000000000000000")?;
    let inside = format!(in alloc; "{folder}/tmp/d000000020000000000000002/kept")?;
    fs::create_dir_all(
        &rt,
        format!(in alloc; "{folder}/tmp/d000000020000000000000002")?,
    )?;
    for path in [&draft, &other, &inside] {
        fs::write(&rt, path, "text")?;
    }
    assert_eq!(rt; call_each(rt, &folder)?, [false, false, false]);
    assert!(rt; !fs::exists(&rt, &draft)?);
    assert!(rt; fs::exists(&rt, &other)?);
    assert!(rt; fs::exists(&rt, &inside)?);
    fs::remove_dir_all(&rt, &folder)?;
    Ok(())
}

// Of these only the last two are names: other digits, another letter, and too few digits are none.
#[test]
fn what_is_no_name_is_left_alone(rt: HostRuntime) -> Result<(), Fail> {
    let alloc = rt.alloc();
    let folder = new_folder(&rt, "names")?;
    fs::create_dir_all(&rt, format!(in alloc; "{folder}/p00/t000000000000000A")?)?;
    for name in [
        "t000000000000000B",
        "x0000000000000001",
        "t001",
        "w00000000000000ff",
        "s0000000000000001",
    ] {
        fs::write(&rt, format!(in alloc; "{folder}/p00/{name}")?, "text")?;
    }
    let mut host = RealHost::new(rt, String::from_str(alloc, &folder)?);
    let mut volume = host.volume(alloc, 0)?;
    let names = volume.names(alloc)?;
    let segment = Name {
        kind: Kind::Segment,
        number: 1,
    };
    let log = Name {
        kind: Kind::Wal,
        number: 255,
    };
    assert_eq!(rt; names.as_slice(), [segment, log].as_slice());
    fs::remove_dir_all(&rt, &folder)?;
    Ok(())
}

#[test]
fn settings_are_read_where_they_are(rt: HostRuntime) -> Result<(), Fail> {
    let alloc = rt.alloc();
    let folder = new_folder(&rt, "settings")?;
    let mut host = RealHost::new(rt, String::from_str(alloc, &folder)?);
    assert!(rt; host.settings(alloc)?.is_none());
    let path = format!(in alloc; "{folder}/magma.toml")?;
    fs::write(&rt, &path, "text")?;
    let found = host.settings(alloc)?.unwrap_or(Vec::new(alloc));
    assert_eq!(rt; found.as_slice(), b"text".as_slice());
    fs::write(&rt, &path, vec![in alloc; b'#'; 70_000]?)?;
    let found = host.settings(alloc)?.unwrap_or(Vec::new(alloc));
    assert_eq!(rt; found.len(), 65_537);
    fs::remove_dir_all(&rt, &folder)?;
    Ok(())
}

// A missing folder has no settings, and is not made for them.
#[test]
fn settings_make_no_folder(rt: HostRuntime) -> Result<(), Fail> {
    let alloc = rt.alloc();
    let folder = new_folder(&rt, "missing")?;
    let root = format!(in alloc; "{folder}/store")?;
    let mut host = RealHost::new(rt, String::from_str(alloc, &root)?);
    assert!(rt; host.settings(alloc)?.is_none());
    assert!(rt; !fs::exists(&rt, &root)?);
    fs::remove_dir_all(&rt, &folder)?;
    Ok(())
}

#[test]
fn drafts_are_no_names(rt: HostRuntime) {
    assert!(rt; is_draft("d000000010000000000000001"));
    assert!(rt; name_of("d000000010000000000000001").is_none());
    assert!(rt; !is_draft("d0000000000000001"));
}

// A file that is found under its name gets another one by a link, also where that is asked again, as after a failure.
#[test]
fn a_found_file_gets_a_second_name(rt: HostRuntime) -> Result<(), Fail> {
    let alloc = rt.alloc();
    let folder = new_folder(&rt, "linked")?;
    let mut host = RealHost::new(rt, String::from_str(alloc, &folder)?);
    store_file(alloc, &mut host, 3, TABLE, b"a table")?;
    let mut volume = host.volume(alloc, 3)?;
    let second = Name {
        kind: Kind::Table,
        number: 43,
    };
    if let Some(file) = volume.find_file(alloc, TABLE)? {
        volume.adopt(alloc, second, &file)?;
        assert!(rt; volume.holds(TABLE, &file));
        assert!(rt; volume.holds(second, &file));
        volume.adopt(alloc, second, &file)?;
    }
    assert_eq!(rt; volume.names(alloc)?.as_slice(), [TABLE, second].as_slice());
    volume.remove(alloc, TABLE)?;
    volume.remove(alloc, TABLE)?;
    assert_eq!(rt; volume.names(alloc)?.as_slice(), [second].as_slice());
    fs::remove_dir_all(&rt, &folder)?;
    Ok(())
}

// The second host deletes the first one's draft, and its port begins one at the same path.
#[test]
fn a_file_is_not_named_where_another_stands(rt: HostRuntime) -> Result<(), Fail> {
    let alloc = rt.alloc();
    let folder = new_folder(&rt, "replaced")?;
    let mut first = RealHost::new(rt, String::from_str(alloc, &folder)?);
    let mut port = first.files(alloc)?;
    let file = write_file(alloc, &mut port, b"a table")?;
    drop(port);
    drop(first);
    let mut second = RealHost::new(rt, String::from_str(alloc, &folder)?);
    let mut volume = second.volume(alloc, 3)?;
    let mut port = second.files(alloc)?;
    let draft = port.fresh(alloc)?;
    assert!(rt; has_failed(&volume.adopt(alloc, TABLE, &file)));
    assert!(rt; volume.names(alloc)?.is_empty());
    drop(draft);
    fs::remove_dir_all(&rt, &folder)?;
    Ok(())
}

// A log of more than one piece is another file of the same bytes, and a draft that a crash left is gone.
#[test]
fn a_volume_that_is_lent_has_its_logs_written_anew(rt: HostRuntime) -> Result<(), Fail> {
    let alloc = rt.alloc();
    let folder = new_folder(&rt, "anew")?;
    fs::create_dir_all(&rt, format!(in alloc; "{folder}/wal")?)?;
    fs::create_dir_all(&rt, format!(in alloc; "{folder}/tmp")?)?;
    let path = format!(in alloc; "{folder}/wal/w0000000000000007")?;
    let mut bytes = vec![in alloc; b'a'; 65_536]?;
    bytes.extend_from_slice(b"the end")?;
    fs::write(&rt, &path, &bytes)?;
    let found = fs::metadata(&rt, &path)?.ino();
    let draft = format!(in alloc; "{folder}/tmp/d000000000000000000000001")?;
    fs::write(&rt, &draft, "a front")?;
    let mut host = RealHost::new(rt, String::from_str(alloc, &folder)?);
    let volume = host.volume(alloc, 65535)?;
    assert!(rt; fs::metadata(&rt, &path)?.ino() != found);
    assert_eq!(rt; fs::read(&rt, &path)?.as_slice(), bytes.as_slice());
    assert!(rt; !fs::exists(&rt, &draft)?);
    drop(volume);
    fs::remove_dir_all(&rt, &folder)?;
    Ok(())
}

// A folder that is spelled as a name is neither a file nor nothing: it is not listed, replaced or removed.
#[test]
fn what_is_no_file_under_a_name_is_a_fault_and_stays(rt: HostRuntime) -> Result<(), Fail> {
    let alloc = rt.alloc();
    let folder = new_folder(&rt, "no_file")?;
    let path = format!(in alloc; "{folder}/p03/t000000000000002a")?;
    let mut host = RealHost::new(rt, String::from_str(alloc, &folder)?);
    let mut volume = host.volume(alloc, 3)?;
    let mut port = host.files(alloc)?;
    let file = write_file(alloc, &mut port, b"a table")?;
    fs::create_dir(&rt, &path)?;
    assert!(rt; has_failed(&volume.names(alloc)));
    assert!(rt; has_failed(&volume.find_file(alloc, TABLE)));
    assert!(rt; has_failed(&volume.adopt(alloc, TABLE, &file)));
    assert!(rt; has_failed(&volume.remove(alloc, TABLE)));
    assert!(rt; fs::metadata(&rt, &path)?.is_dir());
    fs::remove_dir(&rt, &path)?;
    volume.adopt(alloc, TABLE, &file)?;
    assert_eq!(rt; volume.names(alloc)?.as_slice(), [TABLE].as_slice());
    drop(volume);
    fs::remove_dir_all(&rt, &folder)?;
    Ok(())
}

// What is adopted has no draft any more, and a name that another file has is not taken from it.
#[test]
fn a_name_is_not_taken_from_a_file(rt: HostRuntime) -> Result<(), Fail> {
    let alloc = rt.alloc();
    let folder = new_folder(&rt, "taken")?;
    let mut host = RealHost::new(rt, String::from_str(alloc, &folder)?);
    let mut volume = host.volume(alloc, 3)?;
    let mut port = host.files(alloc)?;
    let first = write_file(alloc, &mut port, b"a table")?;
    let second = write_file(alloc, &mut port, b"another")?;
    volume.adopt(alloc, TABLE, &first)?;
    assert!(rt;
        !fs::exists(
            &rt,
            format!(in alloc; "{folder}/tmp/d000000010000000000000001")?
        )?
    );
    assert!(rt; has_failed(&volume.adopt(alloc, TABLE, &second)));
    assert!(rt; !volume.holds(TABLE, &second));
    let kept = fs::read(&rt, format!(in alloc; "{folder}/p03/t000000000000002a")?)?;
    assert_eq!(rt; kept.as_slice(), b"a table".as_slice());
    drop(volume);
    fs::remove_dir_all(&rt, &folder)?;
    Ok(())
}
