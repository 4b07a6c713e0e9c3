//! Stocks of runs with voices: what they are short of, and that all come back.
use crate::runs::{Spoken, ran_refusing, ran_voices};
use dns_server::Status;
use std::alloc::Global;
use std::sync::Wait;
use std::test::Fail;
use std::thread::Threads;

// Whether a run ended since its stock is so short.
fn is_short_of(report: &Spoken, wanted: &str, count: u64, spare: u64) -> bool {
    match &report.status {
        Status::StockShort { name, asked, had } => {
            name.is(wanted) && *asked == count && *had == spare
        }
        _ => false,
    }
}

// Whether a run with these extras, of which two are judges, is short of one of this name, since two
// workers ask for two and one is spare. All others are spare then.
fn is_short<R: Threads + Wait + Sync>(
    rt: &R,
    alloc: Global,
    corefile: &[u8],
    names: &str,
    name: &str,
) -> bool {
    match ran_voices(rt, alloc, &[corefile], 0, names) {
        Ok(report) => is_short_of(&report, name, 2, 1) && report.stock.judges.len() == 2,
        Err(_) => false,
    }
}

const A_AND_B: &[u8] = b". {\n    a one\n    b one\n}\n";

const B_AND_A: &[u8] = b". {\n    b one\n    a one\n}\n";

#[test]
fn of_two_short_names_the_first_in_the_text_is_told(rt: HostRuntime) -> Result<(), Fail> {
    assert!(rt; is_short(&rt, rt.alloc(), A_AND_B, "b a b a", "a"));
    Ok(())
}

#[test]
fn in_the_other_order_the_other_name_is_told(rt: HostRuntime) -> Result<(), Fail> {
    assert!(rt; is_short(&rt, rt.alloc(), B_AND_A, "b a b a", "b"));
    Ok(())
}

#[test]
fn a_name_with_just_enough_is_not_told(rt: HostRuntime) -> Result<(), Fail> {
    assert!(rt; is_short(&rt, rt.alloc(), A_AND_B, "a a a b b", "b"));
    Ok(())
}

// Whether a run ended so, behind so many publications, with so many judges and spare extras.
fn has_left(report: &Spoken, published: u64, judges: usize, spare: usize) -> bool {
    report.published == published
        && report.stock.judges.len() == judges
        && report.stock.spare.len() == spare
}

fn is_enough<R: Threads + Wait + Sync>(rt: &R, alloc: Global, corefile: &[u8]) -> bool {
    match ran_voices(rt, alloc, &[corefile], 0, "a b a b a b") {
        Ok(report) => matches!(report.status, Status::Ended) && has_left(&report, 1, 2, 4),
        Err(_) => false,
    }
}

#[test]
fn a_stock_with_just_enough_of_both_serves(rt: HostRuntime) -> Result<(), Fail> {
    assert!(rt; is_enough(&rt, rt.alloc(), A_AND_B));
    Ok(())
}

const ONE: &[u8] = b". {\n    reload\n    a one\n}\n";

const TWO: &[u8] = b". {\n    a one\n    a one two\n}\n";

// Whether a run that sets four extras refuses to start since the one of this number refuses to be
// set, and has all of them back.
fn is_refused<R: Threads + Wait + Sync>(rt: &R, alloc: Global, number: usize) -> bool {
    match ran_refusing(rt, alloc, &[TWO], number, 1) {
        Ok(report) => matches!(report.status, Status::NoMemory) && has_left(&report, 0, 1, 4),
        Err(_) => false,
    }
}

#[test]
fn all_come_back_where_one_can_not_be_set(rt: HostRuntime) -> Result<(), Fail> {
    for number in 1..5_usize {
        assert!(rt; is_refused(&rt, rt.alloc(), number));
    }
    Ok(())
}

#[test]
fn a_judge_is_not_set(rt: HostRuntime) -> Result<(), Fail> {
    let report = ran_refusing(&rt, rt.alloc(), &[TWO], 0, 1)?;
    assert!(rt; matches!(report.status, Status::Ended));
    assert!(rt; has_left(&report, 1, 1, 4));
    Ok(())
}

// The Corefile with `reload`, and changed ones.
const LOOKS: [&[u8]; 4] = [
    ONE,
    b". {\n    reload\n    a two\n}\n",
    b". {\n    reload\n    a three\n}\n",
    b". {\n    reload\n    a three\n}\n",
];

// Two of four spare extras serve the first configuration, and the other two the second. The third
// sets the first two again. Where the one of this number refuses that, the look behind finds the
// same and sets both. How many looks met a refusal, where all is well behind them.
fn refusals<R: Threads + Wait + Sync>(rt: &R, alloc: Global, number: usize) -> Option<u64> {
    match ran_refusing(rt, alloc, &LOOKS, number, 2) {
        Ok(report) if has_left(&report, 3, 1, 4) => Some(report.starved),
        _ => None,
    }
}

// The same for each of the four.
#[test]
fn a_look_whose_extras_can_not_be_set_changes_nothing(rt: HostRuntime) -> Result<(), Fail> {
    let mut met = 0;
    for number in 1..5_usize {
        let Some(refused) = refusals(&rt, rt.alloc(), number) else {
            return Err(Fail::new("an extra is gone, or a configuration doesn't serve"));
        };
        met = refused.saturating_add(met);
    }
    assert_eq!(rt; met, 2);
    Ok(())
}

// How often the spare extras of a run were asked.
fn asked(report: &Spoken) -> u64 {
    let mut asked: u64 = 0;
    for voice in report.stock.spare.as_slice() {
        asked = asked.saturating_add(voice.asked);
    }
    asked
}

fn has_asked<R: Threads + Wait + Sync>(rt: &R, alloc: Global, corefile: &[u8], count: u64) -> bool {
    match ran_voices(rt, alloc, &[corefile], 3, "a a a a a") {
        Ok(report) => asked(&report) == count,
        Err(_) => false,
    }
}

#[test]
fn each_extra_is_asked_once_a_query(rt: HostRuntime) -> Result<(), Fail> {
    assert!(rt;
        has_asked(
            &rt,
            rt.alloc(),
            b". {\n    a one two\n    a one two\n}\n",
            6
        )
    );
    Ok(())
}

#[test]
fn none_is_asked_behind_one_that_says_something(rt: HostRuntime) -> Result<(), Fail> {
    assert!(rt; has_asked(&rt, rt.alloc(), b". {\n    a one\n    a one two\n}\n", 3));
    Ok(())
}
