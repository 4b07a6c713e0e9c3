ghost use Rattle.std.specs.Prelude.{◌≡◌, ◌<◌, ◌≤◌, ◌+◌, ◌-◌, ◌^◌, ◌++◌, [], length, take, drop};
ghost use Rattle.std.specs.Prelude.{◌∷◌, vec_len, OnOk};
ghost use Rattle.std.specs.Int.{w16, to_be_bytes};
ghost use Rattle.dns_names.specs.Name.{IsName};
ghost use Rattle.dns_write.specs.Written.{empty, size, put, put_name, put_pointer};
ghost use Rattle.dns_write.specs.Tails.{Fills, IsInside, leads_to, patched};
ghost use Rattle.std.specs.List.{AllByRecursion};
ghost use Rattle.std.specs.Prelude.{IsTrue, IsFalse};

use crate::bytes::overwrite;
use crate::layout::Spot;
use crate::offsets::Offsets;
use dns_data::limit::{HEADER_BYTES, POINTER_END};
use dns_data::{Buffer, Name, NoMemory};
use std::alloc::Global;
use std::marker::Model;

/// How far a writer had come.
#[derive(Clone, Copy)]
pub struct Mark {
    pub bytes: usize,
    pub offsets: usize,
}

/// The bytes of a message so far, and where suffixes of its names stand in them. The names are
/// borrowed. Contracts see what stands behind the header, which comes last.
#[derive(Drop)]
pub struct Writer<'a> {
    // The message so far, and room for more of it.
    out: Vec<u8>,
    // Where the message so far ends.
    end: usize,
    offsets: Offsets<'a>,
}

impl<'a> Model for Writer<'a> {
    ghost use Rattle.std.specs.Prelude.{◌≤◌, take, drop, vec_len};
    ghost use Rattle.dns_write.specs.Written.{Draft};

    ghost Value = { Draft };

    ghost view = { λ w. record { bytes = drop 12 (take w.end w.out.items); offsets = w.offsets } };

    ghost invariant = { λ w. (12 ≤ w.end) × (w.end ≤ vec_len w.out) };
}

impl<'a> Writer<'a> {
    /// Behind a header, in place of whatever bytes there are.
    #[inline]
    pub fn over(alloc: Global, out: Vec<u8>) -> Writer<'a>
        requires { 12 ≤ vec_len out }
        ensures { result ≡ record { bytes = []; offsets = [] } }
    {
        Writer {
            out,
            end: HEADER_BYTES,
            offsets: Offsets::new(alloc),
        }
    }

    /// The message, with its header in front.
    #[inline(always)]
    pub fn into_message(self, header: &[u8; 12]) -> Buffer
        ensures { result ≡ header.now ++ self.entry.bytes }
    {
        let Writer {
            mut out,
            end,
            offsets: _,
        } = self;
        overwrite(&mut out, 0, header);
        Buffer::front(out, end)
    }

    /// How many bytes the message has so far, its header among them.
    pub fn len(&self) -> usize
        ensures { result ≡ size self.now }
    {
        self.end
    }

    /// How many offsets of suffixes are kept.
    #[inline]
    pub fn offset_count(&self) -> usize
        ensures { result ≡ length self.now.offsets }
    {
        self.offsets.len()
    }

    pub fn mark(&self) -> Mark
        ensures bytes { result.bytes ≡ size self.now }
        ensures offsets { result.offsets ≡ length self.now.offsets }
    {
        Mark {
            bytes: self.end,
            offsets: self.offsets.len(),
        }
    }

    /// Takes back what was written since the mark.
    pub fn back_to(&mut self, mark: Mark)
        requires header { 12 ≤ mark.bytes }
        requires inside { mark.bytes ≤ size self.old }
        ensures { self.new
            ≡ record {
              bytes = take
                  (mark.bytes - 12) self.old.bytes;
              offsets = take mark.offsets self.old.offsets;
            } }
    {
        self.end = mark.bytes;
        self.offsets.truncate(mark.offsets);
    }

    /// Puts bytes behind.
    pub fn put(&mut self, bytes: &[u8]) -> Result<(), NoMemory>
        ensures { OnOk result (self.new ≡ put self.old bytes.now) }
    {
        if self.out.len() - self.end < bytes.len() {
            return self.put_far(bytes);
        }
        overwrite(&mut self.out, self.end, bytes);
        self.end += bytes.len();
        Ok(())
    }

    /// Puts so many bytes behind. Since their number is known, that takes few steps.
    #[inline(always)]
    pub fn put_few<const N: usize>(&mut self, bytes: [u8; N]) -> Result<(), NoMemory>
        ensures { OnOk result (self.new ≡ put self.old bytes.entry) }
    {
        if self.out.len() - self.end < N {
            return self.put_far(&bytes);
        }
        overwrite(&mut self.out, self.end, &bytes);
        self.end += N;
        Ok(())
    }

    // Puts bytes for which there is no room, and makes room for as many as the memory holds.
    #[cold]
    #[inline(never)]
    fn put_far(&mut self, bytes: &[u8]) -> Result<(), NoMemory>
        ensures { OnOk result (self.new ≡ put self.old bytes.now) }
    {
        self.out.truncate(self.end);
        self.out.extend_from_slice(bytes)?;
        self.end = self.out.len();
        let room = self.out.capacity();
        self.out.resize(room, 0)?;
        Ok(())
    }

    /// Puts the text of a tail, with its pointers filled in, where there is room for it, and says
    /// whether it did. The anchor begins at this offset. No offset of the text is kept.
    #[inline]
    pub fn put_filled(&mut self, text: &[u8], spots: &[Spot], anchor: usize) -> bool
        requires spots { AllByRecursion (IsInside (length text.now)) spots.now }
        requires anchor { anchor ≤ size self.old }
        requires near { size self.old + length text.now + 256 ≤ POINTER_END }
        ensures filled { IsTrue result → Fills text.now spots.now anchor self.old self.new }
        ensures none { IsFalse result → self.new ≡ self.old }
    {
        let tail = self.end;
        if self.out.len() - tail < text.len() {
            return false;
        }
        overwrite(&mut self.out, tail, text);
        fill_spots(&mut self.out, spots, tail, anchor, text.len());
        self.end = tail + text.len();
        true
    }

    /// Puts the length of what stands from an offset on into the two bytes before that offset.
    pub fn fill_length(&mut self, at: usize)
        requires behind { 14 ≤ at }
        requires inside { at ≤ size self.old }
        requires small { size self.old - at < 2 ^ 16 }
        ensures { self.new ≡ record {
          bytes = take (at - 14) self.old.bytes
              ++ (to_be_bytes w16 (size self.old - at) ++ drop (at - 12) self.old.bytes);
          offsets = self.old.offsets;
        } }
    {
        let length = (self.end - at) as u16;
        overwrite(&mut self.out, at - 2, &length.to_be_bytes());
    }

    /// Puts labels without a zero byte behind them. Often there are none.
    #[inline]
    pub fn put_labels(&mut self, wire: &[u8]) -> Result<(), NoMemory>
        ensures { OnOk result (self.new ≡ put self.old wire.now) }
    {
        if wire.len() == 0 {
            return Ok(());
        }
        self.put(wire)
    }

    #[inline]
    fn put_pointer(&mut self, at: usize) -> Result<(), NoMemory>
        requires { at < POINTER_END }
        ensures { OnOk result (self.new ≡ put_pointer self.old at) }
    {
        self.put_few([192 + (at / 256) as u8, (at % 256) as u8])
    }

    /// Writes a name, with a pointer in place of the longest suffix that was written out before.
    #[inline(always)]
    pub fn put_name(&mut self, name: &'a Name) -> Result<(), NoMemory>
        ensures text { OnOk result (self.new ≡ put_name self.old name.now) }
        ensures proper { IsName name.now }
    {
        if self.offsets.is_first(name.as_wire()) {
            return self.put_pointer(HEADER_BYTES);
        }
        self.put_suffixes(name)
    }

    /// Puts the labels of the first name behind the header. With a zero byte behind them they are
    /// what `put_name` puts there, where no suffix of the name can stand before.
    #[inline(always)]
    pub fn put_first_labels(&mut self, name: &'a Name) -> Result<(), NoMemory>
        requires { self.old ≡ empty }
        ensures text { OnOk result (put self.new (0 ∷ []) ≡ put_name self.old name.now) }
        ensures proper { IsName name.now }
    {
        self.offsets.set_first(name);
        self.put_labels(name.as_wire())
    }

    // Writes a name label by label, up to a pointer or the zero byte. Stays a call, so that a name
    // which stood before is written by few steps.
    #[inline(never)]
    fn put_suffixes(&mut self, name: &'a Name) -> Result<(), NoMemory>
        ensures text { OnOk result (self.new ≡ put_name self.old name.now) }
        ensures proper { IsName name.now }
    {
        let wire = name.as_wire();
        let mut labels = name.labels();
        let mut suffix = wire;
        while let Some(_label) = labels.next() {
            let ahead = &wire[..wire.len() - suffix.len()];
            if let Some(offset) = self.offsets.find(suffix) {
                self.put_labels(ahead)?;
                return self.put_pointer(offset);
            }
            self.offsets.push(suffix, self.end + ahead.len())?;
            suffix = labels.as_wire();
        }
        self.put_labels(wire)?;
        self.put_few([0])
    }
}

// Fills in the pointers of a tail that begins here, of so many bytes.
#[inline]
fn fill_spots(out: &mut Vec<u8>, spots: &[Spot], tail: usize, anchor: usize, size: usize)
    requires spots { AllByRecursion (IsInside size) spots.now }
    requires anchor { anchor ≤ tail }
    requires near { tail + size + 256 ≤ POINTER_END }
    requires inside { tail + size ≤ vec_len out.old }
    ensures { out.new.items ≡ patched anchor tail spots.now out.old.items }
{
    for spot in spots {
        let at = target_of(spot, tail, anchor);
        overwrite(
            out,
            tail + spot.at,
            &[192 + (at / 256) as u8, (at % 256) as u8],
        );
    }
}

// Where a spot leads.
#[inline]
fn target_of(spot: &Spot, tail: usize, anchor: usize) -> usize
    requires anchor { anchor ≤ tail }
    requires near { tail + spot.now.behind < POINTER_END }
    ensures value { result ≡ leads_to anchor tail spot.now }
    ensures small { result < POINTER_END }
{
    if spot.in_anchor {
        return anchor + spot.behind;
    }
    tail + spot.behind
}
