ghost use Rattle.std.specs.Prelude.{◌≡◌, [], ◌∷◌, ◌++◌, length, map, option_map, OnOk, IfOk};
ghost use Rattle.std.specs.Prelude.{◌≤◌, IsTrue, if◌then◌else◌};
ghost use Rattle.dns_data.specs.Record.{fields_of};
ghost use Rattle.dns_data.specs.declared.record.Rdata.TheVariants as rdata;
ghost use Rattle.std.specs.List.{AllByRecursion};
ghost use Rattle.dns_names.specs.Name.{IsWire, labels_of};
ghost use Rattle.dns_write.specs.Tails.{InAnchor, InTail, IsPlaced, laid_behind, laid_name};
ghost use Rattle.dns_write.specs.Tails.{laid_fields, laid_record, laid_records, head_bytes};
ghost use Rattle.dns_write.specs.Tails.{filled_in, place_of, placed_of, spot_of, with_text};

use crate::bytes::overwrite;
use dns_data::{Name, NoMemory, Rdata, Record, Soa, are_equal};
use std::alloc::Global;
use std::marker::Model;

// The data of a record has a length of 16 bits.
const DATA_BYTES: usize = 65535;

/// A pointer in the text of a tail: where it stands there, and how far behind the first byte of the
/// anchor, or of the tail, it leads.
#[derive(Clone, Copy, Debug)]
pub struct Spot {
    pub at: usize,
    pub behind: usize,
    pub in_anchor: bool,
}

/// A suffix that was written out, in wire format without the zero byte, and how far behind the
/// first byte of the anchor, or of the tail, it begins.
#[derive(Clone, Copy)]
pub struct Placed<'a> {
    pub suffix: &'a [u8],
    pub behind: usize,
    pub in_anchor: bool,
}

/// Records as far as they are laid out behind an anchor: their text, with two zeros where each
/// pointer stands, and the pointers.
#[derive(Drop)]
pub struct Layout<'a> {
    text: Vec<u8>,
    spots: Vec<Spot>,
    placed: Vec<Placed<'a>>,
}

impl<'a> Model for Layout<'a> {
    ghost use Rattle.std.specs.Prelude.{map};
    ghost use Rattle.std.specs.List.{AllByRecursion};
    ghost use Rattle.dns_write.specs.Tails.{IsPlaced, LayoutData, placed_of};

    ghost Value = { LayoutData };

    ghost view = { λ l. record {
      text = l.text.items;
      spots = l.spots.items;
      placed = map placed_of l.placed.items;
    } };

    ghost invariant = { λ l. AllByRecursion IsPlaced l.placed.items };
}

impl<'a> Layout<'a> {
    /// Nothing, behind a question whose name ends in the anchor.
    pub fn behind(alloc: Global, anchor: &'a Name) -> Result<Layout<'a>, NoMemory>
        ensures { IfOk result (λ layout. layout ≡ laid_behind anchor.now) }
    {
        let mut layout = Layout {
            text: Vec::new(alloc),
            spots: Vec::new(alloc),
            placed: Vec::new(alloc),
        };
        let wire = anchor.as_wire();
        let mut labels = anchor.labels();
        let mut suffix = wire;
        while let Some(_label) = labels.next() {
            layout.place(suffix, wire.len() - suffix.len(), true)?;
            suffix = labels.as_wire();
        }
        Ok(layout)
    }

    /// The text and the pointers.
    pub fn into_parts(self) -> (Vec<u8>, Vec<Spot>)
        ensures text { result.0.items ≡ self.entry.text }
        ensures spots { result.1.items ≡ self.entry.spots }
    {
        let Layout {
            text,
            spots,
            placed: _,
        } = self;
        (text, spots)
    }

    /// Adds records, where all their types are A, NS, SOA or AAAA, and says whether it did.
    pub fn add_records(&mut self, records: &'a [Record]) -> Result<bool, NoMemory>
        ensures { IfOk result (λ done.
            IsTrue done → self.new ≡ laid_records self.old records.now) }
    {
        for entry in records {
            if !self.add_record(entry)? {
                return Ok(false);
            }
        }
        Ok(true)
    }

    // Adds a record, where its type is one of these.
    fn add_record(&mut self, entry: &'a Record) -> Result<bool, NoMemory>
        ensures { IfOk result (λ done. IsTrue done → self.new ≡ laid_record self.old entry.now) }
    {
        self.add_name(&entry.owner)?;
        self.add_head(entry)?;
        let at = self.text.len();
        if !self.add_data(&entry.rdata)? {
            return Ok(false);
        }
        Ok(self.fill_length(at))
    }

    // Adds type, class and TTL, and 0 as the length of the data.
    fn add_head(&mut self, entry: &Record) -> Result<(), NoMemory>
        ensures { OnOk result (self.new ≡ with_text self.old (head_bytes entry.now 0)) }
    {
        let kind = entry.rdata.kind();
        self.add_bytes(&kind.to_be_bytes())?;
        self.add_bytes(&entry.class.to_be_bytes())?;
        self.add_bytes(&entry.ttl.to_be_bytes())?;
        self.add_bytes(&[0, 0])
    }

    // Adds the data of a record, where its type is one of these.
    fn add_data(&mut self, rdata: &'a Rdata) -> Result<bool, NoMemory>
        ensures { IfOk result (λ done.
            IsTrue done → self.new ≡ laid_fields self.old (fields_of rdata.now)) }
    {
        match rdata {
            Rdata::A(addr) => self.add_bytes(&addr.to_be_bytes())?,
            Rdata::Ns(name) => self.add_name(name)?,
            Rdata::Soa(soa) => self.add_soa(soa)?,
            Rdata::Aaaa(addr) => self.add_bytes(&addr.to_be_bytes())?,
            _ => return Ok(false),
        }
        Ok(true)
    }

    fn add_soa(&mut self, soa: &'a Soa) -> Result<(), NoMemory>
        ensures { OnOk result (self.new ≡ laid_fields self.old (fields_of (rdata.Soa soa.now))) }
    {
        self.add_name(&soa.mname)?;
        self.add_name(&soa.rname)?;
        self.add_bytes(&soa.serial.to_be_bytes())?;
        self.add_bytes(&soa.refresh.to_be_bytes())?;
        self.add_bytes(&soa.retry.to_be_bytes())?;
        self.add_bytes(&soa.expire.to_be_bytes())?;
        self.add_bytes(&soa.minimum.to_be_bytes())
    }

    // Puts the length of what stands from an offset on into the two bytes before it, where it has
    // room there.
    fn fill_length(&mut self, at: usize) -> bool
        requires behind { 2 ≤ at }
        requires inside { at ≤ length self.old.text }
        ensures { IsTrue result → self.new ≡ filled_in self.old at }
    {
        let length = self.text.len() - at;
        if DATA_BYTES < length {
            return false;
        }
        overwrite(&mut self.text, at - 2, &(length as u16).to_be_bytes());
        true
    }

    // Adds a name, with a pointer in place of the longest suffix that was written out before.
    fn add_name(&mut self, name: &'a Name) -> Result<(), NoMemory>
        ensures { OnOk result (self.new ≡ laid_name self.old name.now) }
    {
        let mut labels = name.labels();
        let mut suffix = name.as_wire();
        while let Some(label) = labels.next() {
            if let Some(spot) = self.find(suffix) {
                return self.add_pointer(spot);
            }
            let behind = self.text.len();
            self.place(suffix, behind, false)?;
            self.add_bytes(&[label.len() as u8])?;
            self.add_bytes(label)?;
            suffix = labels.as_wire();
        }
        self.add_bytes(&[0])
    }

    // The pointer to the earliest place of a suffix, letter for letter, at the end of the text.
    fn find(&self, suffix: &[u8]) -> Option<Spot>
        requires { IsWire suffix.now }
        ensures { result ≡ option_map (spot_of (length self.now.text))
            (place_of self.now.placed (labels_of suffix.now)) }
    {
        find_placed(&self.placed, suffix, self.text.len())
    }

    // Keeps a suffix that is written out so far behind the anchor's or the tail's first byte.
    fn place(&mut self, suffix: &'a [u8], behind: usize, in_anchor: bool) -> Result<(), NoMemory>
        requires { IsWire suffix.now }
        ensures { OnOk result (self.new ≡ record {
          text = self.old.text;
          spots = self.old.spots;
          placed = self.old.placed ++ record {
            suffix = labels_of suffix.now;
            place = if in_anchor then InAnchor behind else InTail behind;
          } ∷ [];
        }) }
    {
        self.placed.push(Placed {
            suffix,
            behind,
            in_anchor,
        })?;
        Ok(())
    }

    // Adds a pointer.
    fn add_pointer(&mut self, spot: Spot) -> Result<(), NoMemory>
        ensures { OnOk result (self.new ≡ record {
          text = self.old.text ++ 0 ∷ 0 ∷ [];
          spots = self.old.spots ++ spot ∷ [];
          placed = self.old.placed;
        }) }
    {
        self.spots.push(spot)?;
        self.add_bytes(&[0, 0])
    }

    // Adds bytes to the text.
    fn add_bytes(&mut self, bytes: &[u8]) -> Result<(), NoMemory>
        ensures { OnOk result (self.new ≡ record {
          text = self.old.text ++ bytes.now;
          spots = self.old.spots;
          placed = self.old.placed;
        }) }
    {
        self.text.extend_from_slice(bytes)?;
        Ok(())
    }
}

// The pointer to the earliest place of a suffix, letter for letter, for an offset of the text.
fn find_placed(placed: &[Placed<'_>], suffix: &[u8], at: usize) -> Option<Spot>
    requires wire { IsWire suffix.now }
    requires placed { AllByRecursion IsPlaced placed.now }
    ensures { result
        ≡ option_map (spot_of at) (place_of (map placed_of placed.now) (labels_of suffix.now)) }
{
    for other in placed {
        if are_equal(other.suffix, suffix) {
            return Some(Spot {
                at,
                behind: other.behind,
                in_anchor: other.in_anchor,
            });
        }
    }
    None
}
