ghost use Rattle.std.specs.Prelude.{◌≡◌, ◌≤◌, ◌++◌, IsTrue, IsFalse, IfOk, OnOk};
ghost use Rattle.dns_write.specs.Written.{size};
ghost use Rattle.dns_write.specs.Tails.{Knows, PutsAll, with_tail};

use crate::listing::has_label;
use crate::plan::{Plan, label_above, plan_of};
use crate::writer::Writer;
use dns_data::limit::{HEADER_BYTES, POINTER_END};
use dns_data::{Name, NoMemory, Record, RecordRoom, Slot};
use std::alloc::Global;
use std::marker::Model;

// So many bytes more than a text the labels of an anchor may take (RFC 1035, section 2.3.4).
const FAR: usize = 256;

/// Records of the sections authority and additional that stand behind the answers to many
/// questions: those for names at or below one name, the anchor. How they are written there is found
/// once, where all their types are A, NS, SOA or AAAA.
#[derive(Debug, Drop)]
pub struct Tail {
    authority: RecordRoom,
    additional: RecordRoom,
    plan: Option<Plan>,
}

impl Model for Tail {
    ghost use Rattle.std.specs.Prelude.{◌++◌};
    ghost use Rattle.dns_write.specs.Tails.{IsPlanned, TailData};

    ghost Value = { TailData };

    ghost view = { λ t. record { authority = t.authority; additional = t.additional } };

    ghost invariant = { λ t. IsPlanned (t.authority ++ t.additional) t.plan };
}

impl Tail {
    /// Copies of these records, and how they are written behind an answer.
    pub fn new(
        alloc: Global,
        anchor: &Name,
        authority: &[Record],
        additional: &[Record],
    ) -> Result<Tail, NoMemory>
        ensures { IfOk result (λ tail. tail
            ≡ record { authority = authority.now; additional = additional.now }) }
    {
        let mut front = RecordRoom::new(alloc);
        front.push_all(alloc, authority)?;
        let mut back = RecordRoom::new(alloc);
        back.push_all(alloc, additional)?;
        let plan = plan_of(alloc, anchor, authority, additional)?;
        Ok(Tail {
            authority: front,
            additional: back,
            plan,
        })
    }

    /// Those of the authority section.
    #[inline]
    pub fn authority(&self) -> &[Record]
        ensures { result.now ≡ self.now.authority }
    {
        self.authority.as_slice()
    }

    /// Those of the additional section.
    #[inline]
    pub fn additional(&self) -> &[Record]
        ensures { result.now ≡ self.now.additional }
    {
        self.additional.as_slice()
    }

    /// Copies the records to where they stand in an answer, in place of those behind it.
    pub fn copy_into(&self, alloc: Global, slot: &mut Slot) -> Result<(), NoMemory>
        ensures { OnOk result (slot.new ≡ with_tail slot.old self.now) }
    {
        slot.authority.clear();
        slot.additional.clear();
        slot.authority.push_all(alloc, self.authority())?;
        slot.additional.push_all(alloc, self.additional())
    }

    /// Puts the records behind an answer to a question for this name, where their plan serves there
    /// and they fit, and says whether it did.
    #[inline]
    pub(crate) fn put(&self, writer: &mut Writer<'_>, name: &Name, room: usize) -> bool
        requires room { room ≤ 65535 }
        requires fits { size writer.old ≤ room }
        requires known { Knows name.now writer.old }
        ensures put { IsTrue result → PutsAll writer.old writer.new
            (self.now.authority ++ self.now.additional) room }
        ensures none { IsFalse result → writer.new ≡ writer.old }
    {
        let Some(plan) = &self.plan else {
            return false;
        };
        if room - writer.len() < plan.text.len() {
            return false;
        }
        let Some((above, count)) = label_above(name, &plan.anchor) else {
            return false;
        };
        let behind = name.as_wire().len() - plan.anchor.as_wire().len();
        if writer.offset_count() != count + plan.depth {
            return false;
        }
        // The anchor stands in the question, so the second test never holds.
        let end = writer.len() + plan.text.len();
        if POINTER_END < end + FAR || writer.len() < HEADER_BYTES + behind {
            return false;
        }
        if has_label(plan.labels.as_slice(), above) {
            return false;
        }
        writer.put_filled(&plan.text, &plan.spots, HEADER_BYTES + behind)
    }
}
