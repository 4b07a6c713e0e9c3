ghost use Rattle.std.specs.Prelude.{◌≡◌, Some, option_map};
ghost use Rattle.std.specs.List.{All};
ghost use Rattle.std.specs.Vec.Iter.{into_iter_items};
ghost use Rattle.outside_mem.specs.declared.watch.MemWatch.{MemWatch};
ghost use Rattle.outside_mem.specs.Unused.{IsNewSide, IsNewWatch, IsUnusedSide, IsUnusedWatch};

use crate::faults::count;
use crate::side::MemSide;
use crate::told::{OpenedSide, Told, ToldLine, tell_line, tell_opened, tell_watch};
use crate::watch::MemWatch;
use dns_data::Transport;
use outside::{Host, OpenFault, Wrote};
use std::alloc::Global;
use std::vec::IntoIter;

/// A host in memory. It gives its sides in the order of the calls, and its watch once; further
/// calls fail. It tells its lines and opened sides, until memory runs out for them.
#[derive(Drop)]
pub struct MemHost {
    alloc: Global,
    sides: IntoIter<MemSide>,
    watch: Option<MemWatch>,
    told: Option<Told>,
    open_faults: u64,
    ghost sides_new: { All IsNewSide (into_iter_items sides) },
    ghost watch_new: { (w : MemWatch) → watch ≡ Some w → IsNewWatch w },
}

impl MemHost {
    ghost use Rattle.outside_mem.specs.Supply.{as_made, host_state};

    /// The sides and the watch are as they were made: nothing is told of them, and none of their
    /// calls was made.
    pub fn new(alloc: Global, sides: Vec<MemSide>, watch: MemWatch) -> MemHost
        requires sides { All IsUnusedSide sides.items }
        requires watch { IsUnusedWatch watch }
        ensures { host_state result ≡ as_made sides.items watch }
    {
        MemHost {
            alloc,
            sides: sides.into_iter(),
            watch: Some(watch),
            told: Some(Told::new(alloc)),
            open_faults: 0,
        }
    }

    /// The lines told so far, or None where they are no longer told.
    pub fn lines(&self) -> Option<&[ToldLine]>
        ensures { option_map (λ lines. lines.now) result ≡ option_map (λ t. t.lines) self.now.told }
    {
        match &self.told {
            Some(told) => Some(told.lines()),
            None => None,
        }
    }

    /// The sides opened so far, or None where they are no longer told.
    pub fn opens(&self) -> Option<&[OpenedSide]>
        ensures { option_map (λ opens. opens.now) result ≡ option_map (λ t. t.opens) self.now.told }
    {
        match &self.told {
            Some(told) => Some(told.opens()),
            None => None,
        }
    }
}

impl Host for MemHost {
    type Side = MemSide;

    type Watch = MemWatch;

    ghost use Rattle.std.specs.Prelude.{[], None, IfErr};
    ghost use Rattle.outside.specs.Hosts.{OpenedSide as OpenedData, OpensSide, OpensWatch};
    ghost use Rattle.outside_mem.specs.Supply.{host_state};
    ghost use Rattle.outside_mem.specs.Unused.{side_state, watch_state};

    ghost state = { host_state };

    /// Fails exactly where the watch was given before.
    fn open_watch(&mut self) -> Result<MemWatch, OpenFault>
        ensures opens { OpensWatch watch_state (host_state self.old) (host_state self.new) result }
        ensures spent { IfErr result (λ _. self.old.watch ≡ None) }
    {
        match self.watch.take() {
            Some(watch) => {
                tell_watch(&mut self.told);
                Ok(watch)
            }
            None => {
                count(&mut self.open_faults);
                Err(OpenFault::Failed)
            }
        }
    }

    /// Fails exactly where each side was given before.
    fn open_side(&mut self, port: u16, by: Transport, number: u32) -> Result<MemSide, OpenFault>
        ensures opens { let place : OpenedData = record { port = port; by = by; number = number } in
            OpensSide side_state (host_state self.old) (host_state self.new) place result }
        ensures spent { IfErr result (λ _. into_iter_items self.old.sides ≡ []) }
    {
        match self.sides.next() {
            Some(side) => {
                tell_opened(&mut self.told, OpenedSide { port, by, number });
                Ok(side)
            }
            None => {
                count(&mut self.open_faults);
                Err(OpenFault::Failed)
            }
        }
    }

    fn tell(&mut self, line: &[u8]) -> Wrote {
        tell_line(&mut self.told, self.alloc, line);
        Wrote::Ok
    }
}
