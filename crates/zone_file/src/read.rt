ghost use Rattle.std.specs.Prelude.{◌≡◌, ◌<◌, ◌^◌, length, IfOk, OnOk};
ghost use Rattle.zone_file.specs.Zones.{Agrees, HasTtls, ReadsZone, Steps, as_zone};
ghost use Rattle.zone_file.specs.Zones.{finished, kept_by, step, zone_in};

use crate::entry::{End, Entries, Entry, read_entries};
use crate::kept::Kept;
use crate::state::{Reading, Statement};
use crate::{ZoneFault, ZoneWhy};
use dns_data::{Copies, Name, NoMemory, Zone};
use std::alloc::Global;
use std::marker::Model;

/// The words of a zone file, read once for zones of any origins. Contracts see the bytes.
#[derive(Drop)]
pub struct ZoneText<'a> {
    bytes: &'a [u8],
    read: Entries<'a>,
}

impl<'a> Model for ZoneText<'a> {
    ghost use Rattle.std.specs.Prelude.{◌≡◌, ℕ, List};
    ghost use Rattle.zone_file.specs.Entries.{entries_of};

    ghost Value = { List ℕ };

    ghost view = { λ t. t.bytes.now };

    ghost invariant = { λ t. t.read ≡ entries_of t.bytes.now };
}

impl<'a> ZoneText<'a> {
    /// Reads the words of a text.
    pub fn read(alloc: Global, bytes: &'a [u8]) -> Result<ZoneText<'a>, NoMemory>
        requires { length bytes.now < 2 ^ 32 }
        ensures { IfOk result (λ text. text ≡ bytes.now) }
    {
        let read = read_entries(alloc, bytes)?;
        Ok(ZoneText { bytes, read })
    }

    /// The zone of this origin that the text spells.
    #[tactic(auto, unfolding(crate::specs::Zones::zone_of))]
    pub fn zone(&self, alloc: Global, origin: &Name) -> Result<Zone, ZoneFault>
        ensures { ReadsZone self.now origin.now result }
    {
        records_in(alloc, self.read.entries.as_slice(), self.read.end, origin)
    }
}

/// The zone of this origin that a text spells.
pub fn read_zone(alloc: Global, text: &[u8], origin: &Name) -> Result<Zone, ZoneFault>
    requires { length text.now < 2 ^ 32 }
    ensures { ReadsZone text.now origin.now result }
{
    ZoneText::read(alloc, text)?.zone(alloc, origin)
}

// The zone of these entries.
fn records_in(
    alloc: Global,
    entries: &[Entry<'_>],
    end: End,
    origin: &Name,
) -> Result<Zone, ZoneFault>
    ensures { Agrees (as_zone origin.now (zone_in origin.now end entries.now)) result }
{
    let mut reading = Reading::new(alloc, origin)?;
    let mut kept = Kept::new(alloc);
    for entry in entries {
        kept = take(alloc, &mut reading, kept, origin, entry)?;
    }
    finished(alloc, kept, end, origin)
}

// Goes on behind an entry.
fn take(
    alloc: Global,
    reading: &mut Reading,
    kept: Kept,
    zone: &Name,
    entry: &Entry<'_>,
) -> Result<Kept, ZoneFault>
    requires { HasTtls reading.old }
    ensures value { Steps (step zone.now reading.old kept entry.now) reading.new result }
    ensures ttls { OnOk result (HasTtls reading.new) }
{
    let said = reading.statement(alloc, entry)?;
    reading.follow(alloc, &said)?;
    keep(alloc, kept, zone, entry.line, said)
}

// Keeps the record that an entry of this line says.
fn keep(
    alloc: Global,
    kept: Kept,
    zone: &Name,
    line: u32,
    said: Statement,
) -> Result<Kept, ZoneFault>
    ensures { Agrees (kept_by zone.now line kept said) result }
{
    match said {
        Statement::Origin(_) => Ok(kept),
        Statement::Ttl(_) => Ok(kept),
        Statement::Found(found) => kept.add(alloc, zone, line, found),
    }
}

// The zone at the end of its text.
fn finished(alloc: Global, kept: Kept, end: End, origin: &Name) -> Result<Zone, ZoneFault>
    ensures { Agrees (as_zone origin.now (finished kept end)) result }
{
    let line = match end {
        End::Broken { line } => {
            let why = ZoneWhy::Syntax;
            return Err(ZoneFault::Bad { line, why });
        }
        End::Ended { line } => line,
    };
    if !kept.has_soa() {
        let why = ZoneWhy::NoSoa;
        return Err(ZoneFault::Bad { line, why });
    }
    Ok(Zone {
        origin: origin.copy(alloc)?,
        records: kept.into_records(),
    })
}
