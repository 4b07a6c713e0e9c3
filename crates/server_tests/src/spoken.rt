//! Runs with extras that say by their words what becomes of each query.
use crate::replies::{REPLY, has_ended, has_replied};
use crate::runs::{Spoken, ran_voices};
use crate::staged_side::StagedSide;
use outside::Mark;
use std::alloc::Global;
use std::sync::Wait;
use std::test::Fail;
use std::thread::Threads;

// SERVFAIL, without AA, and the question.
const FAILED: &[u8; 29] =
    b"\x12\x34\x81\x02\x00\x01\x00\x00\x00\x00\x00\x00\x07example\x03org\x00\x00\x01\x00\x01";

// NXDOMAIN with AA, and the question.
const NO_NAME: &[u8; 29] =
    b"\x12\x34\x85\x03\x00\x01\x00\x00\x00\x00\x00\x00\x07example\x03org\x00\x00\x01\x00\x01";

// REFUSED, and the question.
const REFUSED: &[u8; 29] =
    b"\x12\x34\x81\x05\x00\x01\x00\x00\x00\x00\x00\x00\x07example\x03org\x00\x00\x01\x00\x01";

// Whether the reply to the query under this Corefile is that, where four voices are handed in.
fn is_reply<R: Threads + Wait + Sync>(
    rt: &R,
    alloc: Global,
    corefile: &[u8],
    wanted: &[u8],
) -> bool {
    match ran_voices(rt, alloc, &[corefile], 1, "a a a a a") {
        Ok(report) => has_ended(&report, 1) && has_replied(&report, 0, 0, wanted),
        Err(_) => false,
    }
}

#[test]
fn a_reply_of_an_extra_ends_the_chain(rt: HostRuntime) -> Result<(), Fail> {
    let corefile = b". {\n    a one two three\n    whoami\n}\n";
    assert!(rt; is_reply(&rt, rt.alloc(), corefile, NO_NAME));
    Ok(())
}

#[test]
fn a_code_of_an_extra_ends_the_chain(rt: HostRuntime) -> Result<(), Fail> {
    let corefile = b". {\n    a one\n    whoami\n}\n";
    assert!(rt; is_reply(&rt, rt.alloc(), corefile, FAILED));
    Ok(())
}

#[test]
fn a_pass_of_an_extra_goes_on(rt: HostRuntime) -> Result<(), Fail> {
    let corefile = b". {\n    a one two\n    whoami\n}\n";
    assert!(rt; is_reply(&rt, rt.alloc(), corefile, REPLY));
    Ok(())
}

#[test]
fn extras_speak_in_the_order_of_the_text(rt: HostRuntime) -> Result<(), Fail> {
    let corefile = b". {\n    a one two three\n    a one\n}\n";
    assert!(rt; is_reply(&rt, rt.alloc(), corefile, NO_NAME));
    Ok(())
}

#[test]
fn extras_speak_in_the_other_order_too(rt: HostRuntime) -> Result<(), Fail> {
    let corefile = b". {\n    a one\n    a one two three\n}\n";
    assert!(rt; is_reply(&rt, rt.alloc(), corefile, FAILED));
    Ok(())
}

#[test]
fn what_the_first_passes_goes_to_the_second(rt: HostRuntime) -> Result<(), Fail> {
    let corefile = b". {\n    a one two\n    a one two three\n    whoami\n}\n";
    assert!(rt; is_reply(&rt, rt.alloc(), corefile, NO_NAME));
    Ok(())
}

#[test]
fn acl_stands_before_extras(rt: HostRuntime) -> Result<(), Fail> {
    let corefile = b". {\n    a one two three\n    acl {\n        block\n    }\n}\n";
    assert!(rt; is_reply(&rt, rt.alloc(), corefile, REFUSED));
    Ok(())
}

// What a side tells of its first query.
fn first_side<'a>(report: &'a Spoken) -> Option<&'a StagedSide> {
    match report.sides.as_slice().first() {
        Some(done) => Some(&done.side),
        None => None,
    }
}

// Whether it noted this line, behind its pin.
fn has_line(side: &StagedSide, line: &str) -> bool {
    match side.side.journal() {
        Some([Mark::Got(_), Mark::Pinned(0), Mark::Noted(noted, true), ..]) => {
            noted.is(line.as_bytes())
        }
        _ => false,
    }
}

// Whether it unpinned without a reply.
fn is_silent(side: &StagedSide) -> bool {
    matches!(
        side.side.journal(),
        Some([Mark::Got(_), Mark::Pinned(0), Mark::Unpinned(0), ..])
    )
}

fn is_dropped<R: Threads + Wait + Sync>(rt: &R, alloc: Global, corefile: &[u8]) -> bool {
    match ran_voices(rt, alloc, &[corefile], 1, "a a a") {
        Ok(report) => match first_side(&report) {
            Some(side) => is_silent(side),
            None => false,
        },
        Err(_) => false,
    }
}

#[test]
fn a_drop_of_an_extra_ends_the_chain_without_a_reply(rt: HostRuntime) -> Result<(), Fail> {
    let corefile = b". {\n    a\n    whoami\n}\n";
    assert!(rt; is_dropped(&rt, rt.alloc(), corefile));
    Ok(())
}

fn is_noted<R: Threads + Wait + Sync>(rt: &R, alloc: Global, corefile: &[u8], line: &str) -> bool {
    match ran_voices(rt, alloc, &[corefile], 1, "a a a") {
        Ok(report) => match first_side(&report) {
            Some(side) => has_line(side, line),
            None => false,
        },
        Err(_) => false,
    }
}

#[test]
fn a_drop_is_logged_as_one(rt: HostRuntime) -> Result<(), Fail> {
    let corefile = b". {\n    log\n    a\n    whoami\n}\n";
    let line = "query 127.0.0.1 4000 udp A example.org. DROP";
    assert!(rt; is_noted(&rt, rt.alloc(), corefile, line));
    Ok(())
}

#[test]
fn a_code_of_an_extra_has_its_cause(rt: HostRuntime) -> Result<(), Fail> {
    let corefile = b". {\n    errors\n    a one\n    whoami\n}\n";
    let line = "error SERVFAIL A example.org. extra";
    assert!(rt; is_noted(&rt, rt.alloc(), corefile, line));
    Ok(())
}
