//! What runs come to, note and reply.
use crate::staged_host::StagedHost;
use crate::staged_side::StagedSide;
use crate::staged_watch::StagedWatch;
use dns_server::{Report, Status};
use outside::{Mark, WatchMark};

/// NOERROR with AA: 127.0.0.1 at example.org, and port 4000 at _udp.example.org.
pub const REPLY: &[u8; 69] =
    b"\x12\x34\x85\x00\x00\x01\x00\x00\x00\x00\x00\x02\x07example\x03org\x00\x00\x01\x00\x01\
    \xc0\x0c\x00\x01\x00\x01\x00\x00\x00\x00\x00\x04\x7f\x00\x00\x01\
    \x04_udp\xc0\x0c\x00\x21\x00\x01\x00\x00\x00\x00\x00\x07\x00\x00\x00\x00\x0f\xa0\x00";

pub fn has_ended<E>(report: &Report<StagedHost, E>, published: u64) -> bool {
    matches!(report.status, Status::Ended) && report.published == published
}

/// Whether the watch noted just these lines.
pub fn has_noted<E>(report: &Report<StagedHost, E>, lines: &[&str]) -> bool {
    match &report.watch {
        Some(watch) => noted(watch, lines),
        None => false,
    }
}

fn noted(watch: &StagedWatch, lines: &[&str]) -> bool {
    let mut left = lines.iter();
    for mark in watch.watch.journal().unwrap_or(&[]) {
        if let WatchMark::Noted(line, _) = mark {
            match left.next() {
                Some(wanted) if line.is(wanted.as_bytes()) => {}
                _ => return false,
            }
        }
    }
    left.next().is_none()
}

/// Whether the side of this number sent this reply first, under a pin of this serial.
pub fn has_replied<E>(
    report: &Report<StagedHost, E>,
    side: usize,
    serial: u64,
    wanted: &[u8],
) -> bool {
    match report.sides.as_slice().get(side) {
        Some(done) => replied(&done.side, serial, wanted),
        None => false,
    }
}

fn replied(side: &StagedSide, serial: u64, wanted: &[u8]) -> bool {
    match side.side.journal() {
        Some(
            [
                Mark::Got(_),
                Mark::Pinned(pinned),
                Mark::Sent(reply, true),
                ..
            ],
        ) => { *pinned == serial && reply.is(wanted) }
        _ => false,
    }
}

/// Whether the side of this number sent this reply second.
pub fn has_replied_then<E>(report: &Report<StagedHost, E>, side: usize, wanted: &[u8]) -> bool {
    match report.sides.as_slice().get(side) {
        Some(done) => replied_then(&done.side, wanted),
        None => false,
    }
}

fn replied_then(side: &StagedSide, wanted: &[u8]) -> bool {
    match side.side.journal() {
        Some(
            [
                Mark::Got(_),
                Mark::Pinned(_),
                Mark::Sent(_, true),
                Mark::Unpinned(_),
                Mark::Got(_),
                Mark::Pinned(_),
                Mark::Sent(reply, true),
                ..
            ],
        ) => reply.is(wanted),
        _ => false,
    }
}
