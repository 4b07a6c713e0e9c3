//! Four workers pin as often as they can while generations are published: that each chain that
//! comes home is the one that went out, and that none is lost or doubled.
#![tactic(auto)]

mod chains;
mod keeper;
mod ledger;
mod soaking;
#[cfg(test)]
mod tests;
mod worker;

use soaking::soak;
use std::io;

fn main(rt: HostRuntime) -> io::Result<()> {
    match soak(&rt, rt.alloc()) {
        Some(done) => {
            println!(rt; "published {}", done.published)?;
            println!(rt; "pins {}", done.pins)?;
            println!(rt; "pins that their chains counted {}", done.counted)?;
            println!(rt; "chains home {}", done.home)?;
            println!(rt; "generations not whole {}", done.missing)?;
            println!(rt; "faults {}", done.faults)
        }
        None => println!(rt; "no memory"),
    }
}
