//! A cache by itself: rows by hand, and long histories held against counting.
#![tactic(auto)]

mod counting;
mod crowd;
mod deeds;
mod making;
mod rows;
mod running;
mod weights;

use crowd::run_at_once;
use dns_data::NoMemory;
use rows::{ends, lifetimes, three_in_two};
use running::{Room, history};
use std::alloc::Global;
use std::io;
use std::sync::Wait;
use weights::is_kept;

// Answers that counting doesn't give, of histories in stores of one to nine entries.
fn faults<R: Wait>(rt: &R, alloc: Global, many: u64) -> Result<u64, NoMemory> {
    let rooms = [
        Room {
            success: 1,
            denial: 1,
            words: ("8", "8"),
        },
        Room {
            success: 2,
            denial: 3,
            words: ("16", "17"),
        },
        Room {
            success: 9,
            denial: 8,
            words: ("72", "64"),
        },
    ];
    let mut faults: u64 = 0;
    for room in rooms.as_slice() {
        faults = faults.saturating_add(history(rt, alloc, *room, many)?);
    }
    Ok(faults)
}

fn main(rt: HostRuntime) -> io::Result<()> {
    match ends(&rt, rt.alloc()) {
        Ok(row) => println!(rt; "to the end of an entry {row}")?,
        Err(_) => println!(rt; "no memory")?,
    }
    match three_in_two(&rt, rt.alloc()) {
        Ok(row) => println!(rt; "three names in room for two {row}")?,
        Err(_) => println!(rt; "no memory")?,
    }
    match lifetimes(&rt, rt.alloc()) {
        Ok(row) => println!(rt; "the shortest and the longest lifetime {row}")?,
        Err(_) => println!(rt; "no memory")?,
    }
    for weight in [16_384, 16_385] {
        match is_kept(rt.alloc(), weight) {
            Ok(kept) => println!(rt; "an entry of {weight} may be kept {kept}")?,
            Err(_) => println!(rt; "no memory")?,
        }
    }
    match faults(&rt, rt.alloc(), 100_000) {
        Ok(faults) => println!(rt; "faults of 300000 calls {faults}")?,
        Err(_) => println!(rt; "no memory")?,
    }
    match run_at_once(&rt, rt.alloc()) {
        Ok(ended) => {
            let done = &ended.done;
            println!(rt; "puts of four workers at once {}", done.puts)?;
            println!(rt; "some hits {}", done.is_hit)?;
            println!(rt; "hits that no worker put so {}", done.strange)?;
            println!(rt; "faults {}", done.faults)
        }
        Err(_) => println!(rt; "no memory"),
    }
}
