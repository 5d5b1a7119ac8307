//! Texts of answers and of faults, compared with the formats' own words.

use crate::{Line, fault_text, has_line, put_answer, put_end, put_line, read_script};
use mg_items::Items;
use mg_model::{Answer, Call, Doc, Fault, FileId, Item, Key, Kind, Reply, Why};
use std::alloc::Global;
use std::process::Abort;
use std::test::Fail;

fn key(alloc: Global, text: &str) -> Result<Key, Fail> {
    Ok(Key::new(alloc, text.as_bytes())?.ok_or("no key")?)
}

fn doc(alloc: Global, text: &str) -> Result<Doc, Fail> {
    Ok(Doc::new(alloc, text.as_bytes())?.ok_or("no document")?)
}

fn said(rt: &impl Abort, alloc: Global, reply: Reply, text: &str) -> Result<(), Fail> {
    let answer = Answer {
        place: Some(7),
        result: Ok(reply),
    };
    let mut out = Vec::new(alloc);
    put_answer(3, 2, 1, &answer, &mut out)?;
    assert_eq!(rt; out.as_slice(), text.as_bytes());
    Ok(())
}

#[test]
fn replies_are_spelled(rt: HostRuntime) -> Result<(), Fail> {
    let alloc = rt.alloc();
    let found = Reply::Found {
        seq: 12,
        doc: doc(alloc, "a b%")?,
    };
    said(&rt, alloc, found, "3 2 1 @7 doc 12 a%20b%25\n")?;
    let mut items = Items::new(alloc);
    items.push(Item {
        seq: 1,
        key: key(alloc, "k")?,
        doc: None,
    })?;
    items.push(Item {
        seq: 2,
        key: key(alloc, "[")?,
        doc: Some(doc(alloc, "")?),
    })?;
    let feed = Reply::Feed {
        epoch: 4,
        end: 2,
        items,
    };
    said(
        &rt,
        alloc,
        feed,
        "3 2 1 @7 feed 4 2 [1 del k] [2 set %5B %]\n",
    )?;
    said(
        &rt,
        alloc,
        Reply::Back { mark: 5, epoch: 1 },
        "3 2 1 @7 back 5 1\n",
    )?;
    said(
        &rt,
        alloc,
        Reply::Reset { least: None },
        "3 2 1 @7 reset -\n",
    )?;
    said(&rt, alloc, Reply::Full { kept: 16 }, "3 2 1 @7 full 16\n")?;
    said(&rt, alloc, Reply::Synced, "3 2 1 @7 synced\n")?;
    let compacted = Reply::Compacted {
        through: 6,
        keys: 3,
        bytes: 6,
    };
    said(&rt, alloc, compacted, "3 2 1 @7 compact 6 3 6\n")?;
    Ok(())
}

#[test]
fn faults_and_ends_are_spelled(rt: HostRuntime) -> Result<(), Fail> {
    let alloc = rt.alloc();
    let mut out = Vec::new(alloc);
    let answer = Answer {
        place: None,
        result: Err(Fault::WriteFault),
    };
    put_answer(0, 2, 0, &answer, &mut out)?;
    put_end(0, 2, 1, 0, &mut out)?;
    assert_eq!(rt;
        out.as_slice(),
        b"0 2 0 @- fault write\nend 0 2 1 0\n".as_slice()
    );
    let file = FileId {
        part: 2,
        kind: Kind::Table,
        number: 9,
    };
    let rows = [
        (Fault::NoMemory, "no memory"),
        (
            Fault::BadLine {
                line: 1,
                why: Why::Part,
            },
            "line 1: partition",
        ),
        (
            Fault::TooLong { limit: 67_108_864 },
            "input over 67108864 bytes",
        ),
        (
            Fault::FewerParts { asked: 1, kept: 2 },
            "partitions asked 1 kept 2",
        ),
        (
            Fault::Damaged {
                file,
                at: 3,
                kept: 4,
                found: 5,
            },
            "damaged 2 1 9 at 3 kept 4 found 5",
        ),
        (
            Fault::Gap {
                part: 0,
                applied: 1,
                low: 0,
                high: 0,
            },
            "gap 0 applied 1 low 0 high 0",
        ),
        (Fault::Worn { kept: 8 }, "worn 8"),
    ];
    for (fault, text) in rows {
        let mut out = Vec::new(alloc);
        fault_text(&fault, &mut out)?;
        assert_eq!(rt; out.as_slice(), text.as_bytes());
    }
    Ok(())
}

#[test]
fn a_script_is_read(rt: HostRuntime) -> Result<(), Fail> {
    let lines = read_script(rt.alloc(), b"15 set 1 %25 a%20b\n0 feed 0 1 2 1000\n", 2)?;
    assert_eq!(rt; lines.len(), 2);
    assert_eq!(rt; lines[0].client, 15);
    assert_eq!(rt; lines[0].part, 1);
    let Call::Set { key, doc } = &lines[0].call else {
        return Err(Fail::from("no set"));
    };
    assert_eq!(rt; key.bytes(), b"%".as_slice());
    assert_eq!(rt; doc.bytes(), b"a b".as_slice());
    assert!(rt;
        matches!(
            lines[1].call,
            Call::Feed {
                epoch: 1,
                after: 2,
                limit: 1000
            }
        )
    );
    Ok(())
}

#[test]
fn a_sync_has_no_field_behind_the_partition(rt: HostRuntime) -> Result<(), Fail> {
    let lines = read_script(rt.alloc(), b"0 sync 0\n", 1)?;
    assert_eq!(rt; lines.len(), 1);
    assert!(rt; matches!(lines[0].call, Call::Sync));
    let rows = [("0 sync 0 x\n", Why::Extra), ("0 sync\n", Why::Part)];
    for (script, why) in rows {
        let refused = read_script(rt.alloc(), script.as_bytes(), 1).err();
        assert_eq!(rt; refused, Some(Fault::BadLine { line: 1, why }), "{script}");
    }
    Ok(())
}

#[test]
fn the_lines_of_all_verbs_are_written(rt: HostRuntime) -> Result<(), Fail> {
    let alloc = rt.alloc();
    let set = Call::Set {
        key: key(alloc, "%")?,
        doc: doc(alloc, "a b")?,
    };
    let feed = Call::Feed {
        epoch: 1,
        after: 2,
        limit: 1000,
    };
    let rows = [
        (set, "15 set 63 %25 a%20b\n"),
        (
            Call::Del {
                key: key(alloc, "k")?,
            },
            "15 del 63 k\n",
        ),
        (
            Call::Get {
                key: key(alloc, "k")?,
            },
            "15 get 63 k\n",
        ),
        (feed, "15 feed 63 1 2 1000\n"),
        (Call::Mark, "15 mark 63\n"),
        (Call::Forget { mark: 3 }, "15 forget 63 3\n"),
        (Call::Rollback { to: 4 }, "15 rollback 63 4\n"),
        (Call::Clear, "15 clear 63\n"),
        (Call::Sync, "15 sync 63\n"),
        (Call::Compact { through: 0 }, "15 compact 63\n"),
        (Call::Stats, "15 stats 63\n"),
    ];
    for (call, text) in rows {
        let line = Line {
            client: 15,
            part: 63,
            call,
        };
        assert!(rt; has_line(&line.call));
        let mut out = Vec::new(alloc);
        put_line(&line, &mut out)?;
        assert_eq!(rt; out.as_slice(), text.as_bytes());
    }
    Ok(())
}
