//! Loads, and what they tell.
use crate::scripts::loaded;
use crate::telling_host::TellingHost;
use dns_server::{Done, LoadRun, Report, Status};
use extra_stock::Passing;
use outside_mem::MemSide;
use std::test::Fail;

const OF_3: [&str; 5] = [
    "queries 3",
    "noerror 2",
    "nxdomain 1",
    "refused 0",
    "published 2",
];

#[test]
fn a_load_leaves_its_run(rt: HostRuntime) -> Result<(), Fail> {
    let mut host = TellingHost::new(rt.alloc(), 9);
    let report = loaded(&rt, rt.alloc(), "load 3", &mut host)?;
    assert!(rt; matches!(report.status, Status::Ended));
    assert!(rt; has_told(&host, &OF_3));
    assert_eq!(rt; took(&report), Some((2, 1, 2)));
    assert_eq!(rt; report.published, 0);
    assert!(rt; report.sides.is_empty());
    assert!(rt; report.watch.is_none());
    Ok(())
}

#[test]
fn a_line_that_fails_is_the_last(rt: HostRuntime) -> Result<(), Fail> {
    let mut host = TellingHost::new(rt.alloc(), 2);
    let report = loaded(&rt, rt.alloc(), "load 3", &mut host)?;
    assert!(rt; matches!(report.status, Status::TellFailed));
    assert!(rt; has_told(&host, &OF_3[..2]));
    assert_eq!(rt; host.faults, 1);
    assert_eq!(rt; took(&report), Some((2, 1, 2)));
    Ok(())
}

// How many datagrams the UDP side and the TCP side of a load took, and how many generations were
// published.
fn took(report: &Report<TellingHost, Passing>) -> Option<(u64, u64, u64)> {
    match &report.load {
        Some(load) => sides_took(load),
        None => None,
    }
}

fn sides_took(load: &LoadRun) -> Option<(u64, u64, u64)> {
    match load.sides.as_slice() {
        [udp, tcp] => Some((pins(udp), pins(tcp), load.published)),
        _ => None,
    }
}

fn pins(done: &Done<MemSide>) -> u64 {
    done.pins
}

// Whether the host has told just these lines.
fn has_told(host: &TellingHost, lines: &[&str]) -> bool {
    let mut left = lines.iter();
    for told in &host.told {
        match left.next() {
            Some(wanted) if told.is(wanted.as_bytes()) => {}
            _ => return false,
        }
    }
    left.next().is_none()
}
