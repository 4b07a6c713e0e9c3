use crate::{Meant, take_look, take_note};
use cache_rules::key_of;
use chain_meaning::Decision;
use dns_data::{Bytes, NoMemory, Query};
use outside::Mark;
use std::alloc::Global;
use std::test::Fail;

// How many marks are left behind what was made of those in front.
fn left_of<T: Drop>(meant: &Meant<'_, T>) -> Option<usize> {
    match meant {
        Meant::Done(_, left) => Some(left.len()),
        _ => None,
    }
}

// How many marks there are from the one on that may not stand there.
fn bad_of<T: Drop>(meant: &Meant<'_, T>) -> Option<usize> {
    match meant {
        Meant::Off(left) => Some(left.len()),
        _ => None,
    }
}

fn note(alloc: Global, line: &str) -> Result<Mark, NoMemory> {
    Ok(Mark::Noted(Bytes::from_slice(alloc, line.as_bytes())?, false))
}

#[test]
fn a_line_takes_its_own_note(rt: HostRuntime) -> Result<(), Fail> {
    let alloc = rt.alloc();
    let marks = vec![in alloc; note(alloc, "one")?, Mark::RecvEnd]?;
    let own = take_note("one".as_bytes(), Decision::Drop, &marks);
    assert_eq!(rt; left_of(&own), Some(1), "its own note");
    let other = take_note("two".as_bytes(), Decision::Drop, &marks);
    assert_eq!(rt; bad_of(&other), Some(2), "another note");
    let late = take_note("one".as_bytes(), Decision::Drop, &marks[1..]);
    assert_eq!(rt; bad_of(&late), Some(1), "no note");
    let more = take_note("one".as_bytes(), Decision::Drop, &marks[2..]);
    assert_eq!(rt; left_of(&more), None, "no mark");
    assert_eq!(rt; bad_of(&more), None, "no mark");
    Ok(())
}

// A reading of the clock at 5,000 ms, and a look that found nothing at this moment.
fn look(alloc: Global, query: &Query, moment: u64) -> Result<Vec<Mark>, NoMemory> {
    let looked = Mark::Looked(key_of(alloc, query)?, moment, None);
    Ok(vec![in alloc; Mark::Now(5000), looked, Mark::RecvEnd]?)
}

#[test]
fn a_look_is_at_the_moment_of_the_clock(rt: HostRuntime) -> Result<(), Fail> {
    let alloc = rt.alloc();
    let query = Query::blank(alloc);
    let same = look(alloc, &query, 5000)?;
    assert_eq!(rt;
        left_of(&take_look(alloc, &query, &same)?),
        Some(1),
        "at once"
    );
    let early = look(alloc, &query, 4999)?;
    assert_eq!(rt;
        bad_of(&take_look(alloc, &query, &early)?),
        Some(2),
        "earlier"
    );
    let clock = vec![in alloc; Mark::Now(5000)]?;
    let cut = take_look(alloc, &query, &clock)?;
    assert_eq!(rt; left_of(&cut), None, "the clock alone");
    assert_eq!(rt; bad_of(&cut), None, "the clock alone");
    Ok(())
}
