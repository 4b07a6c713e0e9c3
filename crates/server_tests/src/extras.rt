//! Runs with five sinkholes, of which one is the judge.
use crate::replies::{has_ended, has_noted, has_replied, has_replied_then};
use crate::scripts::{host, ran_with};
use crate::staged_host::{FREE, HELD, StagedHost};
use dns_server::{Report, Status};
use sinkhole_plugin::Sinkhole;
use std::test::Fail;

const ONE: &[u8] = b". {\n    sinkhole 192.0.2.99\n    whoami\n}\n";

const THREE_LINES: &[u8] =
    b". {\n    sinkhole 192.0.2.99\n    sinkhole 192.0.2.98\n    sinkhole 192.0.2.97\n    whoami\n}\n";

// The Corefile with `reload`, and changed ones.
const LOOKS: [&[u8]; 4] = [
    b". {\n    reload\n    sinkhole 192.0.2.99\n    whoami\n}\n",
    b". {\n    reload\n    sinkhole 192.0.2.98\n    whoami\n}\n",
    b". {\n    reload\n    sinkhole 192.0.2.97\n    whoami\n}\n",
    b". {\n    reload\n    sinkhole 192.0.2.96\n    whoami\n}\n",
];

const NOTES: [&str; 3] = [
    "reload published 1",
    "reload stock of sinkhole: asked 2, had 0",
    "reload published 2",
];

// example.org. 60 IN A 192.0.2.99, with AA.
const SUNK: &[u8; 45] =
    b"\x12\x34\x85\x00\x00\x01\x00\x01\x00\x00\x00\x00\x07example\x03org\x00\x00\x01\x00\x01\
    \xc0\x0c\x00\x01\x00\x01\x00\x00\x00\x3c\x00\x04\xc0\x00\x02\x63";

// What `whoami` replies to type AAAA.
const PASSED: &[u8; 69] =
    b"\x12\x34\x85\x00\x00\x01\x00\x00\x00\x00\x00\x02\x07example\x03org\x00\x00\x1c\x00\x01\
    \xc0\x0c\x00\x01\x00\x01\x00\x00\x00\x00\x00\x04\x7f\x00\x00\x01\
    \x04_udp\xc0\x0c\x00\x21\x00\x01\x00\x00\x00\x00\x00\x07\x00\x00\x00\x00\x0f\xa0\x00";

#[test]
fn a_sinkhole_answers_type_a_alone(rt: HostRuntime) -> Result<(), Fail> {
    let mut host = host(rt.alloc(), &[ONE], &[2, 0], FREE)?;
    let report = ran_with(&rt, rt.alloc(), "serve --conf /Corefile", &mut host, 5)?;
    assert!(rt; has_ended(&report, 1));
    assert!(rt; has_replied(&report, 0, 0, SUNK));
    assert!(rt; has_replied_then(&report, 0, PASSED));
    assert_eq!(rt; counts(&report), (1, 4));
    Ok(())
}

#[test]
fn a_stock_that_is_short_ends_the_run(rt: HostRuntime) -> Result<(), Fail> {
    let mut host = host(rt.alloc(), &[THREE_LINES], &[0, 0], FREE)?;
    let report = ran_with(&rt, rt.alloc(), "serve --conf /Corefile", &mut host, 5)?;
    assert!(rt; is_short(&report.status));
    assert!(rt; has_told(&host, "stock of sinkhole: asked 6, had 4"));
    assert_eq!(rt; report.published, 0);
    assert_eq!(rt; counts(&report), (1, 4));
    Ok(())
}

// Both workers hold generation 0 while generation 1 is published and the next look finds no spare
// sinkhole. Once both have replied, the sweep of the look behind that brings two home.
#[test]
fn extras_come_home_when_their_pins_have_ended(rt: HostRuntime) -> Result<(), Fail> {
    let mut host = host(rt.alloc(), &LOOKS, &[1, 1], HELD)?;
    let report = ran_with(&rt, rt.alloc(), "serve --conf /Corefile", &mut host, 5)?;
    assert_eq!(rt; host.stage.reached(), Some(5));
    assert!(rt; has_ended(&report, 3));
    assert!(rt; has_noted(&report, &NOTES));
    assert!(rt; has_replied(&report, 0, 0, SUNK));
    assert!(rt; has_replied(&report, 1, 0, SUNK));
    assert_eq!(rt; counts(&report), (1, 4));
    Ok(())
}

// How many judges and how many spare extras a run left.
fn counts(report: &Report<StagedHost, Sinkhole>) -> (usize, usize) {
    (report.stock.judges.len(), report.stock.spare.len())
}

fn is_short(status: &Status) -> bool {
    match status {
        Status::StockShort { name, asked, had } => {
            name.is("sinkhole") && *asked == 6 && *had == 4
        }
        _ => false,
    }
}

// Whether the host was told just this line.
fn has_told(host: &StagedHost, line: &str) -> bool {
    match host.host.lines() {
        Some([told]) => told.line.is(line.as_bytes()),
        _ => false,
    }
}
