//! What a store keeps, by counting over all that was done with it.
use crate::making::Made;

/// A use of a store: of which key, and what was put or hit.
#[derive(Clone, Copy)]
pub struct Use {
    pub key: u16,
    pub made: Made,
    pub is_put: bool,
}

// Whether fewer than so many other keys were used behind the last use of a key.
fn is_kept(uses: &[Use], key: u16, room: u32) -> bool {
    let mut others: u64 = 0;
    for one in uses.iter().rev() {
        if one.key == key {
            return true;
        }
        others |= 1u64.wrapping_shl(u32::from(one.key));
        if room <= others.count_ones() {
            return false;
        }
    }
    false
}

fn last_put(uses: &[Use], key: u16) -> Option<Made> {
    for one in uses.iter().rev() {
        if one.is_put && one.key == key {
            return Some(one.made);
        }
    }
    None
}

/// What the store has for a key.
pub fn found(uses: &[Use], key: u16, room: u32, now: u64) -> Option<Made> {
    if !is_kept(uses, key, room) {
        return None;
    }
    let made = last_put(uses, key)?;
    if made.born <= now && (now - made.born) / 1_000 < u64::from(made.life) {
        return Some(made);
    }
    None
}
