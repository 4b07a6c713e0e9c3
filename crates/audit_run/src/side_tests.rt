use crate::{SideFault, TurnMeaning, TurnMeans, judge_side};
use dns_data::{Addr, Buffer, Bytes, NoMemory, Transport};
use outside::{Datagram, Mark};
use run_meaning::WorkEnd;
use std::alloc::Global;
use std::test::Fail;

// Two configurations under which each datagram is replied to with its own bytes, without a mark.
struct Echo {}

impl TurnMeaning for Echo {
    ghost use Rattle.audit_run.specs.Echo.{echoes, echoes_own, echoes_starve, echoes_within};

    ghost serves = { λ echo. echoes };

    ghost published = { λ echo. 2 };

    fn count(&self) -> u64 {
        2
    }

    #[tactic(auto, using(crate::specs::Echo::echo_off))]
    fn mean(
        &self,
        alloc: Global,
        serial: u64,
        datagram: &Datagram,
        marks: &[Mark],
    ) -> Result<TurnMeans, NoMemory> {
        if !marks.is_empty() {
            return Ok(TurnMeans::Off(0));
        }
        let reply = Buffer::from_slice(alloc, datagram.bytes.as_slice())?;
        Ok(TurnMeans::Replies(reply))
    }

    ghost within = { λ echo. echoes_within };

    ghost starves = { λ echo. echoes_starve };

    ghost own = { λ echo. echoes_own };
}

fn got(alloc: Global) -> Result<Mark, NoMemory> {
    Ok(Mark::Got(Datagram {
        bytes: Buffer::from_slice(alloc, &[7, 8])?,
        client: Addr::V4(1),
        port: 4000,
        by: Transport::Udp,
        local: 53,
    }))
}

fn sent(alloc: Global, first: u8) -> Result<Mark, NoMemory> {
    Ok(Mark::Sent(Bytes::of(vec![in alloc; first, 8]?), true))
}

// The marks of letters: a datagram, a pin of the first or the second configuration, and their ends,
// a reply as it should be or another, a failing receive, the end, and a reading of the clock.
fn mark_of(alloc: Global, letter: u8) -> Result<Mark, NoMemory> {
    match letter {
        b'g' => got(alloc),
        b'p' => Ok(Mark::Pinned(0)),
        b'P' => Ok(Mark::Pinned(1)),
        b'u' => Ok(Mark::Unpinned(0)),
        b'U' => Ok(Mark::Unpinned(1)),
        b's' => sent(alloc, 7),
        b'x' => sent(alloc, 9),
        b'f' => Ok(Mark::RecvFailed),
        b'n' => Ok(Mark::Now(5)),
        _ => Ok(Mark::RecvEnd),
    }
}

fn marks_of(alloc: Global, letters: &[u8]) -> Result<Vec<Mark>, NoMemory> {
    let mut marks = Vec::new(alloc);
    for letter in letters {
        marks.push(mark_of(alloc, *letter)?)?;
    }
    Ok(marks)
}

// The place of the fault of a journal, where it has one, of a worker that takes two datagrams.
fn judged(alloc: Global, letters: &[u8], end: WorkEnd) -> Result<Option<usize>, NoMemory> {
    let marks = marks_of(alloc, letters)?;
    match judge_side(alloc, &Echo {}, &marks, end, 2) {
        Ok(()) => Ok(None),
        Err(SideFault::Mark(at)) => Ok(Some(at)),
        Err(SideFault::NoMemory) => Err(NoMemory),
    }
}

#[test]
fn turns_are_judged_mark_by_mark(rt: HostRuntime) -> Result<(), Fail> {
    let alloc = rt.alloc();
    let rows: &[(&[u8], Option<usize>, &str)] = &[
        (b"gpsufgPsU", None, "two turns"),
        (b"gpsue", None, "an end before the last datagram"),
        (b"gpue", None, "want of memory"),
        (b"gpxue", Some(2), "another reply"),
        (b"gpsUe", Some(3), "another unpin"),
        (b"gpnsue", Some(2), "a mark that isn't taken"),
        (b"gPsUgpsu", Some(5), "a pin that falls"),
        (b"gsu", Some(1), "no pin"),
        (b"gps", Some(3), "too short"),
        (b"gpsu", Some(4), "no end"),
        (b"gpsugpsue", Some(8), "an end behind the last datagram"),
        (b"gpsugpsug", Some(8), "a datagram too many"),
        (b"ee", Some(1), "two ends"),
        (b"s", Some(0), "no receive"),
    ];
    for (letters, want, what) in rows {
        assert_eq!(rt; judged(alloc, letters, WorkEnd::End)?, *want, "{what}");
    }
    Ok(())
}

// The fault of a journal of so many failing receives.
fn failing(alloc: Global, count: usize, end: WorkEnd) -> Result<Option<usize>, NoMemory> {
    let letters = Vec::from_elem(alloc, b'f', count)?;
    judged(alloc, &letters, end)
}

#[test]
fn rows_of_failing_receives_end_a_worker(rt: HostRuntime) -> Result<(), Fail> {
    let alloc = rt.alloc();
    assert_eq!(rt; failing(alloc, 64, WorkEnd::RecvFailed)?, None, "64");
    assert_eq!(rt;
        failing(alloc, 63, WorkEnd::RecvFailed)?,
        Some(63),
        "one too few"
    );
    assert_eq!(rt;
        failing(alloc, 65, WorkEnd::RecvFailed)?,
        Some(64),
        "one too many"
    );
    assert_eq!(rt;
        failing(alloc, 63, WorkEnd::NoMemory)?,
        None,
        "the 64th wanted memory"
    );
    assert_eq!(rt;
        failing(alloc, 64, WorkEnd::NoMemory)?,
        Some(63),
        "none wanted memory"
    );
    assert_eq!(rt;
        failing(alloc, 64, WorkEnd::End)?,
        Some(63),
        "no end comes behind 64"
    );
    Ok(())
}
