//! Worked calls on the plain machine.

use crate::{Call, Change, Doc, Key, Plain, Reply};
use std::alloc::Global;
use std::process::Abort;
use std::test::Fail;

/// A call of a row. A set has the document `x`.
#[derive(Clone, Copy, Debug)]
enum Step {
    Set(&'static str),
    Del(&'static str),
    Get(&'static str),
    Feed(u64),
    Mark,
    Forget(u64),
    Rollback(u64),
    Clear,
    Sync,
    Compact(u64),
    Stats,
}

fn key(alloc: Global, name: &str) -> Result<Key, Fail> {
    Ok(Key::new(alloc, name.as_bytes())?.ok_or("no key")?)
}

fn call_of(alloc: Global, step: Step) -> Result<Call, Fail> {
    Ok(match step {
        Step::Set(name) => Call::Set {
            key: key(alloc, name)?,
            doc: Doc::new(alloc, b"x")?.ok_or("no document")?,
        },
        Step::Del(name) => Call::Del {
            key: key(alloc, name)?,
        },
        Step::Get(name) => Call::Get {
            key: key(alloc, name)?,
        },
        Step::Feed(epoch) => Call::Feed {
            epoch,
            after: 0,
            limit: 5,
        },
        Step::Mark => Call::Mark,
        Step::Forget(mark) => Call::Forget { mark },
        Step::Rollback(to) => Call::Rollback { to },
        Step::Clear => Call::Clear,
        Step::Sync => Call::Sync,
        Step::Compact(through) => Call::Compact { through },
        Step::Stats => Call::Stats,
    })
}

/// A reply as text, in which bytes are numbers: 120 is `x`.
fn text_of(alloc: Global, reply: &Reply) -> Result<String, Fail> {
    Ok(match reply {
        Reply::Found { seq, doc } => format!(in alloc; "Found {seq} {:?}", doc.bytes())?,
        Reply::Feed { epoch, end, items } => {
            format!(in alloc; "Feed {epoch} {end} {:?}", items.as_slice())?
        }
        other => format!(in alloc; "{other:?}")?,
    })
}

/// The reply to a copy of a call that passes no limit.
fn reply_to(rt: &impl Abort, alloc: Global, plain: &mut Plain, call: &Call) -> Result<Reply, Fail> {
    assert!(rt; plain.worn(call).is_none());
    if let Call::Compact { through } = call {
        assert!(rt; *through <= plain.length());
    }
    Ok(plain.apply(alloc, call)?)
}

/// Makes the call and asserts that the reply is this one.
fn expect(
    rt: &impl Abort,
    alloc: Global,
    plain: &mut Plain,
    step: Step,
    reply: &str,
) -> Result<(), Fail> {
    let call = call_of(alloc, step)?.copy(alloc)?;
    let replied = reply_to(rt, alloc, plain, &call)?;
    assert_eq!(rt; text_of(alloc, &replied)?.as_str(), reply, "{step:?}");
    Ok(())
}

/// Makes these calls on an empty machine.
fn expect_all(rt: &impl Abort, alloc: Global, rows: &[(Step, &str)]) -> Result<(), Fail> {
    let mut plain = Plain::new(alloc);
    for (step, reply) in rows {
        expect(rt, alloc, &mut plain, *step, reply)?;
    }
    Ok(())
}

#[test]
fn a_rollback_goes_to_a_mark_and_starts_an_epoch(rt: HostRuntime) -> Result<(), Fail> {
    let empty = [
        (Step::Mark, "Marked { mark: 0 }"),
        (Step::Rollback(0), "Back { mark: 0, epoch: 1 }"),
        (Step::Feed(0), "Epoch { epoch: 1 }"),
        (Step::Feed(1), "Feed 1 0 []"),
    ];
    expect_all(&rt, rt.alloc(), &empty)?;
    let marked_twice = [
        (Step::Set("a"), "Seq { seq: 1 }"),
        (Step::Mark, "Marked { mark: 1 }"),
        (Step::Mark, "Marked { mark: 1 }"),
        (Step::Rollback(1), "Back { mark: 1, epoch: 1 }"),
        (Step::Get("a"), "Found 1 [120]"),
    ];
    expect_all(&rt, rt.alloc(), &marked_twice)?;
    let unmarked = [(Step::Rollback(5), "Reset { least: None }")];
    expect_all(&rt, rt.alloc(), &unmarked)
}

#[test]
fn a_delete_takes_a_number_and_a_sync_changes_nothing(rt: HostRuntime) -> Result<(), Fail> {
    let rows = [
        (Step::Set("a"), "Seq { seq: 1 }"),
        (Step::Del("a"), "Seq { seq: 2 }"),
        (Step::Get("a"), "Absent"),
        (Step::Sync, "Synced"),
        (
            Step::Stats,
            "Stats { length: 2, live: 0, bytes: 0, marks: 0, epoch: 0 }",
        ),
    ];
    expect_all(&rt, rt.alloc(), &rows)
}

/// Sets of a, b, then a mark, sets of c, d, e, then a mark, and sets of f, g; then the two last calls.
fn expect_after_marks(rt: &impl Abort, alloc: Global, last: [(Step, &str); 2]) -> Result<(), Fail> {
    let [next, after] = last;
    let rows = [
        (Step::Set("a"), "Seq { seq: 1 }"),
        (Step::Set("b"), "Seq { seq: 2 }"),
        (Step::Mark, "Marked { mark: 2 }"),
        (Step::Set("c"), "Seq { seq: 3 }"),
        (Step::Set("d"), "Seq { seq: 4 }"),
        (Step::Set("e"), "Seq { seq: 5 }"),
        (Step::Mark, "Marked { mark: 5 }"),
        (Step::Set("f"), "Seq { seq: 6 }"),
        (Step::Set("g"), "Seq { seq: 7 }"),
        next,
        after,
    ];
    expect_all(rt, alloc, &rows)
}

#[test]
fn a_rollback_goes_to_the_greatest_mark_that_is_low_enough(rt: HostRuntime) -> Result<(), Fail> {
    let back = [
        (Step::Rollback(6), "Back { mark: 5, epoch: 1 }"),
        (Step::Set("h"), "Seq { seq: 6 }"),
    ];
    expect_after_marks(&rt, rt.alloc(), back)?;
    let reset = [
        (Step::Rollback(1), "Reset { least: Some(2) }"),
        (Step::Get("f"), "Found 6 [120]"),
    ];
    expect_after_marks(&rt, rt.alloc(), reset)
}

#[test]
fn sixteen_marks_are_kept(rt: HostRuntime) -> Result<(), Fail> {
    let alloc = rt.alloc();
    let mut plain = Plain::new(alloc);
    for seq in 1..=16 {
        let set = format!(in alloc; "Seq {{ seq: {seq} }}")?;
        expect(&rt, alloc, &mut plain, Step::Set("a"), set.as_str())?;
        let marked = format!(in alloc; "Marked {{ mark: {seq} }}")?;
        expect(&rt, alloc, &mut plain, Step::Mark, marked.as_str())?;
    }
    let rows = [
        (Step::Set("a"), "Seq { seq: 17 }"),
        (Step::Mark, "Full { kept: 16 }"),
        (Step::Forget(3), "Forgot { mark: 3 }"),
        (Step::Mark, "Marked { mark: 17 }"),
        (Step::Forget(3), "NoMark { mark: 3 }"),
    ];
    for (step, reply) in rows {
        expect(&rt, alloc, &mut plain, step, reply)?;
    }
    Ok(())
}

#[test]
fn a_compaction_counts_the_first_places_and_a_clear_leaves_nothing(
    rt: HostRuntime,
) -> Result<(), Fail> {
    let rows = [
        (Step::Set("a"), "Seq { seq: 1 }"),
        (Step::Set("b"), "Seq { seq: 2 }"),
        (Step::Set("c"), "Seq { seq: 3 }"),
        (Step::Set("a"), "Seq { seq: 4 }"),
        (Step::Set("b"), "Seq { seq: 5 }"),
        (Step::Set("c"), "Seq { seq: 6 }"),
        (
            Step::Compact(6),
            "Compacted { through: 6, keys: 3, bytes: 6 }",
        ),
        (
            Step::Stats,
            "Stats { length: 6, live: 3, bytes: 3, marks: 0, epoch: 0 }",
        ),
        (Step::Clear, "Cleared { epoch: 1 }"),
        (Step::Get("a"), "Absent"),
        (Step::Set("b"), "Seq { seq: 1 }"),
    ];
    expect_all(&rt, rt.alloc(), &rows)
}

#[test]
fn a_change_and_its_copy_read_alike(rt: HostRuntime) -> Result<(), Fail> {
    let alloc = rt.alloc();
    let doc = Doc::new(alloc, b"x")?.ok_or("no document")?;
    let changes = [
        Change::Set {
            key: key(alloc, "a")?,
            doc,
        },
        Change::Del {
            key: key(alloc, "a")?,
        },
        Change::Mark,
        Change::Forget { mark: 3 },
        Change::Back { mark: 4 },
        Change::Clear,
    ];
    for change in &changes {
        let copy = change.copy(alloc)?;
        assert_eq!(rt;
            format!(in alloc; "{copy:?}")?.as_str(),
            format!(in alloc; "{change:?}")?.as_str()
        );
    }
    Ok(())
}
