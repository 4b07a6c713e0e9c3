ghost use Rattle.std.specs.Prelude.{◌≡◌, IfOk, IfSome};
ghost use Rattle.record_text.specs.{LeadsTo};
ghost use Rattle.template_plugin.specs.Heads.{BeginsAddress};
ghost use Rattle.template_plugin.specs.Template.{default_ttl};

use crate::part::Part;
use dns_data::{NoMemory, Seq};
use record_text::{AddressHead, read_address_head};
use std::alloc::Global;
use std::marker::Model;

/// A record's text as it is filled in. Contracts see its parts.
#[derive(Debug, Drop)]
pub struct RecordParts {
    parts: Seq<Part>,
    // What stands behind the name, where the text begins with it and is that of an address.
    head: Option<AddressHead>,
}

/// The texts of the three sections of an answer.
#[derive(Debug, Drop)]
pub struct Sections {
    pub answer: Seq<RecordParts>,
    pub authority: Seq<RecordParts>,
    pub additional: Seq<RecordParts>,
}

impl Model for RecordParts {
    ghost use Rattle.std.specs.Prelude.{List, IfSome};
    ghost use Rattle.template_plugin.specs.declared.part.Part.{Part};
    ghost use Rattle.template_plugin.specs.Heads.{BeginsAddress};

    ghost Value = { List Part };

    ghost view = { λ r. r.parts };

    ghost invariant = { λ r. IfSome r.head (BeginsAddress r.parts) };
}

impl RecordParts {
    pub(crate) fn new(alloc: Global, parts: Seq<Part>) -> Result<RecordParts, NoMemory>
        ensures { IfOk result (λ made. made ≡ parts) }
    {
        let head = address_head(alloc, parts.as_slice())?;
        Ok(RecordParts { parts, head })
    }

    pub(crate) fn as_slice(&self) -> &[Part]
        ensures { result.now ≡ self.now }
    {
        self.parts.as_slice()
    }

    /// What stands behind the name, where the text begins with it and is that of an address.
    pub(crate) fn head(&self) -> Option<AddressHead>
        ensures { IfSome result (BeginsAddress self.now) }
    {
        self.head
    }
}

// What stands behind the name at the head of a text, where that is the text of an address.
fn address_head(alloc: Global, parts: &[Part]) -> Result<Option<AddressHead>, NoMemory>
    ensures { IfOk result (λ head. IfSome head (BeginsAddress parts.now)) }
{
    let Some((Part::Bytes(front), behind)) = parts.split_first() else {
        return Ok(None);
    };
    if 0 < front.len() {
        return Ok(None);
    }
    let Some((Part::Name, behind)) = behind.split_first() else {
        return Ok(None);
    };
    let Some((Part::Bytes(bytes), _)) = behind.split_first() else {
        return Ok(None);
    };
    read_address_head(alloc, bytes.as_slice(), DEFAULT_TTL)
}

/// The TTL of a record whose text has none, in seconds.
pub(crate) const DEFAULT_TTL: u32 = 3600;
