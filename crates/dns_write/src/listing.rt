ghost use Rattle.std.specs.Prelude.{◌≡◌, ℕ, List, IsTrue, IsFalse, OnOk, IfOk};
ghost use Rattle.dns_write.specs.Tails.{AreListed, AsksRecord, AsksRecords, Lacks};

use dns_data::{Bytes, Name, NoMemory, Rdata, Record, Seq, are_equal};
use std::alloc::Global;

/// Whether a label is one of these, letter for letter.
#[inline]
pub fn has_label(labels: &[Bytes], label: &[u8]) -> bool
    ensures missing { IsFalse result → Lacks label.now labels.now }
    ensures found { IsTrue result → (other : List ℕ) → Lacks other labels.now
        → label.now ≡ other → ⊥ }
{
    for other in labels {
        if are_equal(other.as_slice(), label) {
            return true;
        }
    }
    false
}

/// Adds the labels of all names of records to these, each once, where all their types are A, NS,
/// SOA or AAAA, and says whether it did.
pub fn list_records(
    alloc: Global,
    labels: &mut Seq<Bytes>,
    records: &[Record],
) -> Result<bool, NoMemory>
    ensures listed { IfOk result (λ done.
        IsTrue done → AsksRecords (AreListed labels.new) records.now) }
    ensures kept { IfOk result (λ done.
        IsTrue done → (label : List ℕ) → Lacks label labels.new → Lacks label labels.old) }
{
    for entry in records {
        if !list_record(alloc, labels, entry)? {
            return Ok(false);
        }
    }
    Ok(true)
}

// Adds the labels of a record's names, where its type is one of these.
fn list_record(alloc: Global, labels: &mut Seq<Bytes>, entry: &Record) -> Result<bool, NoMemory>
    ensures listed { IfOk result (λ done.
        IsTrue done → AsksRecord (AreListed labels.new) entry.now) }
    ensures kept { IfOk result (λ done.
        IsTrue done → (label : List ℕ) → Lacks label labels.new → Lacks label labels.old) }
{
    list_labels(alloc, labels, &entry.owner)?;
    match &entry.rdata {
        Rdata::A(_) => Ok(true),
        Rdata::Ns(name) => {
            list_labels(alloc, labels, name)?;
            Ok(true)
        }
        Rdata::Soa(soa) => {
            list_labels(alloc, labels, &soa.mname)?;
            list_labels(alloc, labels, &soa.rname)?;
            Ok(true)
        }
        Rdata::Aaaa(_) => Ok(true),
        _ => Ok(false),
    }
}

// Adds the labels of a name that aren't there.
fn list_labels(alloc: Global, labels: &mut Seq<Bytes>, name: &Name) -> Result<(), NoMemory>
    ensures listed { OnOk result (AreListed labels.new name.now) }
    ensures kept { OnOk result
        ((label : List ℕ) → Lacks label labels.new → Lacks label labels.old) }
{
    let mut rest = name.labels();
    while let Some(label) = rest.next() {
        if !has_label(labels.as_slice(), label) {
            labels.push(Bytes::from_slice(alloc, label)?)?;
        }
    }
    Ok(())
}
