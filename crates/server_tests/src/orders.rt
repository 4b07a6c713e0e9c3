use crate::replies::{REPLY, has_ended, has_noted, has_replied};
use crate::scripts::{host, ran};
use crate::staged_host::{PAIR, THREE};
use std::test::Fail;

const WHOAMI: &[u8] = b".:53 {\nwhoami\n}\n";

const WITH_WHOAMI: &[u8] = b".:53 {\nreload\nwhoami\n}\n";

const WITHOUT: &[u8] = b".:53 {\nreload\n}\n";

// One Corefile for the start and one for each look.
const LOOKS: [&[u8]; 6] = [
    WITH_WHOAMI,
    WITHOUT,
    WITH_WHOAMI,
    WITHOUT,
    WITH_WHOAMI,
    WITH_WHOAMI,
];

// REFUSED, with the question.
const REFUSED: &[u8; 29] =
    b"\x12\x34\x81\x05\x00\x01\x00\x00\x00\x00\x00\x00\x07example\x03org\x00\x00\x01\x00\x01";

const NOTES: [&str; 5] = [
    "reload published 1",
    "reload published 2",
    "reload published 3",
    "reload all pinned",
    "reload published 4",
];

// The reply of the side over UDP isn't sent until that of the side over TCP was.
#[test]
fn a_worker_that_is_held_up_holds_up_no_other(rt: HostRuntime) -> Result<(), Fail> {
    let mut host = host(rt.alloc(), &[WHOAMI], &[1, 1], PAIR)?;
    let report = ran(&rt, rt.alloc(), "serve --conf /Corefile", &mut host)?;
    assert!(rt; has_ended(&report, 1));
    assert_eq!(rt; host.stage.reached(), Some(1));
    Ok(())
}

// Worker K takes its query at 2 K, holds its reply from 2 K + 1 on, and generation K + 1 is published
// at 2 K + 2. At 7 a look has found all pinned, and the first worker goes on; at 8 it is back, and at
// 9 generation 4 is published and the others go on.
#[test]
fn what_is_pinned_serves_until_its_query_is_answered(rt: HostRuntime) -> Result<(), Fail> {
    let mut host = host(rt.alloc(), &LOOKS, &[1, 1, 1, 0, 0, 0], THREE)?;
    let words = "serve --conf /Corefile --workers 3";
    let report = ran(&rt, rt.alloc(), words, &mut host)?;
    assert_eq!(rt; host.stage.reached(), Some(9));
    assert!(rt; has_ended(&report, 5));
    assert!(rt; has_noted(&report, &NOTES));
    assert!(rt; has_replied(&report, 0, 0, REPLY));
    assert!(rt; has_replied(&report, 1, 1, REFUSED));
    assert!(rt; has_replied(&report, 2, 2, REPLY));
    Ok(())
}
