ghost use Rattle.std.specs.Prelude.{◌≡◌, OnOk};
ghost use Rattle.outside.specs.declared.datagram.Wrote.TheVariants as wrote;
ghost use Rattle.outside.specs.Hosts.{all_told, no_telling, told_line, told_side, told_watch};
ghost use Rattle.outside_mem.specs.Telling.{TellsMore};

use dns_data::{Bytes, NoMemory, Seq, Transport};
use std::alloc::Global;
use std::marker::Model;

/// A line that a host told, and whether it went out.
#[derive(Debug, Drop)]
pub struct ToldLine {
    pub line: Bytes,
    pub out: bool,
}

impl Model for ToldLine {
    ghost use Rattle.outside.specs.Hosts.{ToldLine as LineData};

    ghost Value = { LineData };

    ghost view = { λ l. record { line = l.line; out = l.out } };
}

/// A side that a host opened: its port, its transport and the number of its worker on that
/// endpoint.
#[derive(Debug, Drop)]
pub struct OpenedSide {
    pub port: u16,
    pub by: Transport,
    pub number: u32,
}

impl Model for OpenedSide {
    ghost use Rattle.outside.specs.Hosts.{OpenedSide as OpenedData};

    ghost Value = { OpenedData };

    ghost view = { λ o. record { port = o.port; by = o.by; number = o.number } };
}

/// What a host told and opened so far.
#[derive(Drop)]
pub(crate) struct Told {
    lines: Seq<ToldLine>,
    opens: Seq<OpenedSide>,
    // How many watches.
    watches: u64,
}

impl Model for Told {
    ghost use Rattle.outside.specs.Hosts.{HostTold};

    ghost Value = { HostTold };

    ghost view = { λ t. record { lines = t.lines; opens = t.opens; watches = t.watches } };
}

impl Told {
    pub fn new(alloc: Global) -> Told
        ensures { result ≡ no_telling }
    {
        Told {
            lines: Seq::new(alloc),
            opens: Seq::new(alloc),
            watches: 0,
        }
    }

    pub fn lines(&self) -> &[ToldLine]
        ensures { result.now ≡ self.now.lines }
    {
        self.lines.as_slice()
    }

    pub fn opens(&self) -> &[OpenedSide]
        ensures { result.now ≡ self.now.opens }
    {
        self.opens.as_slice()
    }

    fn line(&mut self, alloc: Global, line: &[u8]) -> Result<(), NoMemory>
        ensures { OnOk result (self.new ≡ all_told self.old (told_line line.now wrote.Ok)) }
    {
        self.lines.push(ToldLine {
            line: Bytes::from_slice(alloc, line)?,
            out: true,
        })
    }

    fn opened(&mut self, side: OpenedSide) -> Result<(), NoMemory>
        ensures { OnOk result (self.new ≡ all_told self.old (told_side side)) }
    {
        self.opens.push(side)
    }
}

/// Tells a line that went out. Where memory ran out for it, nothing is told any more.
pub(crate) fn tell_line(told: &mut Option<Told>, alloc: Global, line: &[u8])
    ensures { TellsMore told.old told.new (told_line line.now wrote.Ok) }
{
    if let Some(list) = &mut *told {
        if list.line(alloc, line).is_ok() {
            return;
        }
    }
    *told = None;
}

/// Tells a side that was opened. Where memory ran out for it, nothing is told any more.
pub(crate) fn tell_opened(told: &mut Option<Told>, side: OpenedSide)
    ensures { TellsMore told.old told.new (told_side side) }
{
    if let Some(list) = &mut *told {
        if list.opened(side).is_ok() {
            return;
        }
    }
    *told = None;
}

/// Tells that the watch was opened. A count that can grow no more ends the telling.
pub(crate) fn tell_watch(told: &mut Option<Told>)
    ensures { TellsMore told.old told.new told_watch }
{
    if let Some(list) = &mut *told {
        if list.watches < u64::MAX {
            list.watches += 1;
            return;
        }
    }
    *told = None;
}
