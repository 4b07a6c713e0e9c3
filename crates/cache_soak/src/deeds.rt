//! What workers did, by their own notes, and whether it fits together.
use crate::making::Made;
use dns_data::NoMemory;
use std::alloc::Global;

/// A put of an entry, or a hit that gave it: under which key, at what time.
#[derive(Clone, Copy)]
pub struct Deed {
    pub key: u16,
    pub made: Made,
    pub now: u64,
}

/// The puts of a worker, by the numbers of their entries, and its hits.
#[derive(Drop)]
pub struct Deeds {
    worker: u32,
    pub puts: Vec<Deed>,
    pub hits: Vec<Deed>,
}

// The first number of a worker's entries, of which each has room for so many.
const ROOM: u32 = 65_536;

// The last of these of the same key and class whose entry is of the same worker.
fn last_like(deeds: &[Deed], one: Deed) -> Option<Made> {
    for deed in deeds.iter().rev() {
        if deed.key == one.key
            && deed.made.class == one.made.class
            && deed.made.number / ROOM == one.made.number / ROOM
        {
            return Some(deed.made);
        }
    }
    None
}

impl Deeds {
    pub fn new(alloc: Global, worker: u32) -> Deeds {
        Deeds {
            worker,
            puts: Vec::new(alloc),
            hits: Vec::new(alloc),
        }
    }

    /// The number of the next entry.
    pub fn next_number(&self) -> u32 {
        let place = self.puts.len() % 65_536;
        self.worker.wrapping_mul(ROOM).wrapping_add(place as u32)
    }

    /// A hit is noted. Whether its entry is the last that this worker put where it put it, and else
    /// no older one of another worker than was hit before.
    pub fn note_hit(&mut self, hit: Deed) -> Result<bool, NoMemory> {
        let is_next = if hit.made.number / ROOM == self.worker {
            last_like(self.puts.as_slice(), hit) == Some(hit.made)
        } else {
            match last_like(self.hits.as_slice(), hit) {
                Some(before) => before.number <= hit.made.number,
                None => true,
            }
        };
        self.hits.push(hit)?;
        Ok(is_next)
    }
}

// The put of the entry of this number.
fn put_of(all: &[&Deeds], number: u32) -> Option<Deed> {
    for deeds in all {
        if deeds.worker == number / ROOM {
            return deeds.puts.get((number % ROOM) as usize).copied();
        }
    }
    None
}

// Whether a worker put the entry of a hit under this key, and it lived when it was hit.
fn is_repeated(all: &[&Deeds], hit: Deed) -> bool {
    let Some(put) = put_of(all, hit.made.number) else {
        return false;
    };
    put.key == hit.key
        && put.made == hit.made
        && put.now <= hit.now
        && (hit.now - put.now) / 1_000 < u64::from(put.made.life)
}

/// How many hits give what no worker had put so.
pub fn strange_hits(all: &[&Deeds]) -> u64 {
    let mut strange: u64 = 0;
    for deeds in all {
        for hit in deeds.hits.iter() {
            if !is_repeated(all, *hit) {
                strange = strange.saturating_add(1);
            }
        }
    }
    strange
}
