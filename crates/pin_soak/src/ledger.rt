//! What came home.
use crate::chains::Chain;

#[derive(Drop)]
pub struct Ledger {
    /// By serial, a bit for each worker whose chain is home.
    pub seen: Vec<u8>,
    pub home: u64,
    /// The pins that the chains counted.
    pub pins: u64,
    pub faults: u64,
}

fn bit_of(worker: u64) -> u8 {
    match worker {
        0 => 1,
        1 => 2,
        2 => 4,
        3 => 8,
        _ => 0,
    }
}

impl Ledger {
    fn enter(&mut self, chain: Chain) {
        let bit = bit_of(chain.worker);
        self.home = self.home.wrapping_add(1);
        self.pins = self.pins.wrapping_add(chain.pins);
        let mask = match self.seen.get_mut(chain.serial as usize) {
            Some(mask) => mask,
            None => {
                self.faults = self.faults.saturating_add(1);
                return;
            }
        };
        if bit == 0 || *mask & bit != 0 {
            self.faults = self.faults.saturating_add(1);
        }
        *mask |= bit;
    }

    /// Each chain is home once, or it is a fault.
    pub fn enter_all(&mut self, home: &mut Vec<Chain>) {
        while let Some(chain) = home.pop() {
            self.enter(chain);
        }
    }

    /// The generations of which some chain isn't home.
    pub fn missing(&self) -> usize {
        self.seen.iter().filter(|mask| **mask != 15).count()
    }
}
