//! Counts that rise with another, and calls that fail by number.

use super::*;
use std::test::Fail;

#[test]
fn a_count_rises_with_another(rt: HostRuntime) {
    let mut volume = FaultCount::new();
    let before = volume;
    volume.rise();
    volume.rise();
    let mut host = FaultCount::new();
    host.rise();
    host.rise_by(before, volume);
    assert_eq!(rt; volume.get(), 2);
    assert_eq!(rt; host.get(), 3);
}

#[test]
fn the_listed_calls_fail(rt: HostRuntime) -> Result<(), Fail> {
    let mut failing = Vec::new(rt.alloc());
    failing.push(2u64)?;
    failing.push(4u64)?;
    let mut calls = CallCounter::new(failing);
    for fails in [false, true, false, true, false] {
        assert_eq!(rt; calls.count(), fails);
    }
    assert_eq!(rt; calls.faults().get(), 2);
    Ok(())
}
