use crate::{
    AuditFault, Order, PartRule, Place, PoolRule, SharedCall, SharedCalls, SharedPart, SideRecord,
    judge_orders,
};
use dns_data::{Addr, Answer, Name, NoMemory, Query, Seq, Transport};
use outside::{Class, Entry, InnerMark, Key, Mark};
use run_meaning::WorkEnd;
use std::alloc::Global;
use std::num::NonZeroUsize;
use std::test::Fail;

// What a run shared: its sides, the calls that their journals tell, and the one part that these
// are of.
#[derive(Drop)]
struct Story {
    sides: Vec<SideRecord>,
    calls: Vec<SharedCalls>,
    parts: Vec<SharedPart>,
}

fn side(marks: Vec<Mark>) -> SideRecord {
    SideRecord {
        port: 53,
        by: Transport::Udp,
        end: WorkEnd::End,
        marks: Seq::of(marks),
    }
}

// A call of part 3 of a block.
fn call(serial: u64, block: u32, mark: u32) -> SharedCall {
    SharedCall {
        serial,
        block,
        part: 3,
        mark,
    }
}

fn part(alloc: Global, rule: PartRule) -> Result<SharedPart, NoMemory> {
    Ok(SharedPart {
        first: 0,
        blocks: Seq::of(vec![in alloc; 0u32, 1]?),
        part: 3,
        rule,
    })
}

fn key(alloc: Global, kind: u16) -> Key {
    Key {
        name: Name::root(alloc),
        kind,
        dnssec: false,
        cd: false,
    }
}

// An entry that was made at 1,000 ms, and lives for 5 seconds.
fn entry(alloc: Global, class: Class) -> Entry {
    Entry {
        class,
        born: 1000,
        life: 5,
        answer: Answer {
            rcode: 0,
            aa: false,
            ra: false,
            tc: false,
            answer: Seq::new(alloc),
            authority: Seq::new(alloc),
            additional: Seq::new(alloc),
        },
        origin: Query {
            name: Name::root(alloc),
            kind: 1,
            dnssec: false,
            cd: false,
            rd: true,
            edns: false,
            client: Addr::V4(1),
            port: 4000,
            by: Transport::Udp,
            local: 53,
        },
        inner: Seq::new(alloc),
    }
}

fn miss(alloc: Global, kind: u16, now: u64) -> Mark {
    Mark::Looked(key(alloc, kind), now, None)
}

fn hit(alloc: Global, kind: u16, now: u64) -> Mark {
    Mark::Looked(key(alloc, kind), now, Some(entry(alloc, Class::Success)))
}

fn put(alloc: Global, kind: u16) -> Mark {
    Mark::Put(key(alloc, kind), entry(alloc, Class::Success), true)
}

fn one_key() -> Result<NonZeroUsize, NoMemory> {
    match NonZeroUsize::new(1) {
        Some(one) => Ok(one),
        None => Err(NoMemory),
    }
}

// Side 0 misses, puts, and hits in the next generation; side 1 hits in the first.
fn shard_story(alloc: Global) -> Result<Story, NoMemory> {
    let first = side(vec![in alloc; miss(alloc, 1, 1000), put(alloc, 1), hit(alloc, 1, 2000)]?);
    let second = side(vec![in alloc; hit(alloc, 1, 3000)]?);
    let one = one_key()?;
    Ok(Story {
        sides: vec![in alloc; first, second]?,
        calls: vec![in alloc;
            Seq::of(vec![in alloc; call(0, 0, 0), call(0, 0, 1), call(1, 1, 2)]?),
            Seq::of(vec![in alloc; call(0, 0, 0)]?),
        ]?,
        parts: vec![in alloc; part(alloc, PartRule::Shard(one, one))?]?,
    })
}

fn order(alloc: Global, part: u32, places: &[(u32, u32)]) -> Result<Order, NoMemory> {
    let mut marks = Seq::new(alloc);
    for (side, mark) in places {
        marks.push(Place {
            side: *side,
            mark: *mark,
        })?;
    }
    Ok(Order {
        serial: 0,
        block: 0,
        part,
        marks,
    })
}

// Where orders of a story have a fault, by the number of the order and the place; or that they have
// none.
fn judged(alloc: Global, story: &Story, orders: &[Order]) -> Option<(u32, u32)> {
    match judge_orders(alloc, &story.sides, &story.calls, &story.parts, orders) {
        Ok(()) => None,
        Err(AuditFault::Order { order, at }) => Some((order, at)),
        Err(_) => Some((u32::MAX, u32::MAX)),
    }
}

fn one_judged(
    alloc: Global,
    story: &Story,
    places: &[(u32, u32)],
) -> Result<Option<(u32, u32)>, NoMemory> {
    let orders = vec![in alloc; order(alloc, 3, places)?]?;
    Ok(judged(alloc, story, &orders))
}

#[test]
fn an_order_of_a_shard_is_judged_place_by_place(rt: HostRuntime) -> Result<(), Fail> {
    let alloc = rt.alloc();
    let story = shard_story(alloc)?;
    let rows: &[(&[(u32, u32)], Option<(u32, u32)>, &str)] = &[
        (&[(0, 0), (0, 1), (1, 0), (0, 2)], None, "as it was"),
        (
            &[(0, 0), (0, 1), (0, 2), (1, 0)],
            None,
            "the other side last",
        ),
        (
            &[(0, 0), (0, 1), (1, 7)],
            Some((0, 2)),
            "no mark of the part",
        ),
        (&[(0, 0), (2, 0)], Some((0, 1)), "no side"),
        (&[(0, 0), (0, 0)], Some((0, 1)), "twice"),
        (&[(0, 1)], Some((0, 0)), "not the next"),
        (&[(0, 0), (1, 0)], Some((0, 1)), "a hit before the put"),
        (&[(0, 0), (0, 1), (0, 2)], Some((0, 3)), "a mark is missing"),
        (&[], Some((0, 0)), "all are missing"),
    ];
    for (places, want, what) in rows {
        assert_eq!(rt; one_judged(alloc, &story, places)?, *want, "{what}");
    }
    Ok(())
}

#[test]
fn each_part_with_marks_has_one_order(rt: HostRuntime) -> Result<(), Fail> {
    let alloc = rt.alloc();
    let story = shard_story(alloc)?;
    assert_eq!(rt; judged(alloc, &story, &[]), Some((0, 0)), "none");
    let whole: &[(u32, u32)] = &[(0, 0), (0, 1), (1, 0), (0, 2)];
    let twice = vec![in alloc; order(alloc, 3, whole)?, order(alloc, 3, whole)?]?;
    assert_eq!(rt; judged(alloc, &story, &twice), Some((1, 0)), "two");
    let other = vec![in alloc; order(alloc, 2, &[(0, 0)])?, order(alloc, 3, whole)?]?;
    assert_eq!(rt;
        judged(alloc, &story, &other),
        Some((0, 0)),
        "an order of no part"
    );
    let bare = vec![in alloc; order(alloc, 2, &[])?, order(alloc, 3, whole)?]?;
    assert_eq!(rt;
        judged(alloc, &story, &bare),
        None,
        "a bare order of no part"
    );
    Ok(())
}

// One side puts under two keys, where a store keeps one, and looks at both.
fn full_story(alloc: Global, last: Mark) -> Result<Story, NoMemory> {
    let marks = vec![in alloc; put(alloc, 1), put(alloc, 2), hit(alloc, 2, 2000), last]?;
    let one = one_key()?;
    Ok(Story {
        sides: vec![in alloc; side(marks)]?,
        calls: vec![in alloc; four_calls(alloc)?]?,
        parts: vec![in alloc; part(alloc, PartRule::Shard(one, one))?]?,
    })
}

fn four_calls(alloc: Global) -> Result<SharedCalls, NoMemory> {
    let mut calls = Seq::new(alloc);
    for mark in 0..4u32 {
        calls.push(call(0, 0, mark))?;
    }
    Ok(calls)
}

#[test]
fn a_store_keeps_what_was_used_last_while_it_lives(rt: HostRuntime) -> Result<(), Fail> {
    let alloc = rt.alloc();
    let places: &[(u32, u32)] = &[(0, 0), (0, 1), (0, 2), (0, 3)];
    let story = full_story(alloc, miss(alloc, 1, 2000))?;
    assert_eq!(rt;
        one_judged(alloc, &story, places)?,
        None,
        "the first has gone"
    );
    let story = full_story(alloc, hit(alloc, 1, 2000))?;
    assert_eq!(rt;
        one_judged(alloc, &story, places)?,
        Some((0, 3)),
        "it can't be a hit"
    );
    let story = full_story(alloc, miss(alloc, 2, 5999))?;
    assert_eq!(rt;
        one_judged(alloc, &story, places)?,
        Some((0, 3)),
        "it lives"
    );
    let story = full_story(alloc, miss(alloc, 2, 6000))?;
    assert_eq!(rt;
        one_judged(alloc, &story, places)?,
        None,
        "its life is over"
    );
    Ok(())
}

fn drawn(number: u64, down: u16) -> Mark {
    Mark::Inner(InnerMark::Drawn(number, down))
}

fn reported(upstream: u32, agreed: bool) -> Mark {
    Mark::Inner(InnerMark::Reported(upstream, agreed))
}

// A draw, a report of the first of two upstreams, a draw and a further mark.
fn pool_story(alloc: Global, agreed: bool, second: Mark, last: Mark) -> Result<Story, NoMemory> {
    let marks = vec![in alloc; drawn(0, 0), reported(0, agreed), second, last]?;
    Ok(Story {
        sides: vec![in alloc; side(marks)]?,
        calls: vec![in alloc; four_calls(alloc)?]?,
        parts: vec![in alloc; part(alloc, PartRule::Pool(PoolRule { size: 2, most: 1 }))?]?,
    })
}

#[test]
fn an_order_of_a_pool_is_judged_draw_by_draw(rt: HostRuntime) -> Result<(), Fail> {
    let alloc = rt.alloc();
    let places: &[(u32, u32)] = &[(0, 0), (0, 1), (0, 2), (0, 3)];
    let story = pool_story(alloc, false, drawn(1, 1), drawn(2, 1))?;
    assert_eq!(rt;
        one_judged(alloc, &story, places)?,
        None,
        "the first is left out"
    );
    let story = pool_story(alloc, true, drawn(1, 0), drawn(2, 0))?;
    assert_eq!(rt;
        one_judged(alloc, &story, places)?,
        None,
        "none is left out"
    );
    let story = pool_story(alloc, false, drawn(1, 0), drawn(2, 1))?;
    assert_eq!(rt;
        one_judged(alloc, &story, places)?,
        Some((0, 2)),
        "it is to be left out"
    );
    let story = pool_story(alloc, false, drawn(1, 5), drawn(2, 1))?;
    assert_eq!(rt;
        one_judged(alloc, &story, places)?,
        Some((0, 2)),
        "a third is none"
    );
    let story = pool_story(alloc, false, drawn(1, 1), drawn(3, 1))?;
    assert_eq!(rt;
        one_judged(alloc, &story, places)?,
        Some((0, 3)),
        "a number too far"
    );
    Ok(())
}
