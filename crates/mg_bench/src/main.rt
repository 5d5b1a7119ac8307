//! Runs each workload once over little, and writes its checksum. With the arguments NAME COUNT SIZE it runs that one, and
//! writes how long it took too.
#![tactic(auto)]

mod block;
mod bloom;
mod frame;
mod script;
mod segment;
mod table;
mod turn;
mod wal;

use anyhow::{Context, Result, bail};
use std::alloc::{AllocError, Global};
use std::env;
use std::sync::Wait;
use std::thread::Threads;
use std::time::Instant;

/// Each workload, in the order of the small run.
const WORKLOADS: [&str; 27] = [
    "put_frames",
    "take_frames",
    "digest_only",
    "filter_put",
    "filter_ask",
    "filter_ask_hashed",
    "build_blocks",
    "find_in_blocks",
    "list_blocks",
    "scan_blocks",
    "write_table",
    "find_in_table",
    "find_lent_in_table",
    "find_absent_in_table",
    "write_segment",
    "get_from_segment",
    "get_lent_from_segment",
    "push_synced_each",
    "push_synced_by_thousand",
    "leave_log",
    "recover_log",
    "turn_by_one",
    "turn_by_two",
    "turn_by_four",
    "script_plain",
    "script_logged",
    "script_of_64",
];

fn run<R: Threads + Wait + Sync>(
    rt: &R,
    alloc: Global,
    name: &str,
    count: u64,
    size: usize,
) -> Result<u64> {
    let checksum = match name {
        "put_frames" => frame::put_frames(alloc, count, size)?,
        "take_frames" => frame::take_frames(alloc, count, size)?,
        "digest_only" => frame::digest_only(alloc, count, size)?,
        "filter_put" => bloom::filter_put(alloc, count, size)?,
        "filter_ask" => bloom::filter_ask(alloc, count, size)?,
        "filter_ask_hashed" => bloom::filter_ask_hashed(alloc, count, size)?,
        "build_blocks" => block::build_blocks(alloc, count, size)?,
        "find_in_blocks" => block::find_in_blocks(alloc, count, size)?,
        "list_blocks" => block::list_blocks(alloc, count, size)?,
        "scan_blocks" => block::scan_blocks(alloc, count, size)?,
        "write_table" => table::write_table(alloc, count, size)?,
        "find_in_table" => table::find_in_table(alloc, count, size)?,
        "find_lent_in_table" => table::find_lent_in_table(alloc, count, size)?,
        "find_absent_in_table" => table::find_absent_in_table(alloc, count, size)?,
        "write_segment" => segment::write_segment(alloc, count, size)?,
        "get_from_segment" => segment::get_from_segment(alloc, count, size)?,
        "get_lent_from_segment" => segment::get_lent_from_segment(alloc, count, size)?,
        "push_synced_each" => wal::push_synced_each(alloc, count, size)?,
        "push_synced_by_thousand" => wal::push_synced_by_thousand(alloc, count, size)?,
        "leave_log" => wal::leave_log(alloc, count, size)?,
        "recover_log" => wal::recover_log(alloc, count, size)?,
        "turn_by_one" => turn::turn_by_one(rt, alloc, count)?,
        "turn_by_two" => turn::turn_by_two(rt, alloc, count)?,
        "turn_by_four" => turn::turn_by_four(rt, alloc, count)?,
        "script_plain" => script::script_plain(alloc, count, size)?,
        "script_logged" => script::script_logged(alloc, count, size)?,
        "script_of_64" => script::script_of_64(alloc, count, size)?,
        _ => bail!("no workload of that name"),
    };
    Ok(checksum)
}

fn main(rt: HostRuntime) -> Result<()> {
    let mut words = env::args(&rt)?.skip(1);
    let Some(name) = words.next() else {
        for name in WORKLOADS {
            println!(rt; "{name} {}", run(&rt, rt.alloc(), name, 10, 20)?)?;
        }
        return Ok(());
    };
    let count = words
        .next()
        .context("no count")?
        .parse::<u64>()
        .context("the count")?;
    let size = words
        .next()
        .context("no size")?
        .parse::<usize>()
        .context("the size")?;
    let start = Instant::now(&rt)?;
    let checksum = run(&rt, rt.alloc(), name.as_str(), count, size)?;
    let taken = start.elapsed(&rt)?;
    println!(rt; "{checksum} in {} ns", taken.as_nanos())?;
    Ok(())
}
