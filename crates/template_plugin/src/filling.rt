ghost use Rattle.std.specs.Prelude.{◌≡◌, [], ◌++◌, option_map, slice_range, unwrap_or, OnOk};
ghost use Rattle.pattern.specs.Texts.{whole_span};
ghost use Rattle.template_plugin.specs.Made.{HasParts, filling_data};
ghost use Rattle.template_plugin.specs.Parts.{filled_in, part_text};
ghost use Rattle.template_plugin.specs.Template.{longer, longest_by, spanned};

use crate::part::Part;
use dns_data::{Bytes, Name, Names, NoMemory, Query};
use pattern::Scratch;
use std::alloc::Global;
use type_names::kind_text;

/// What texts are filled in with.
#[derive(Drop)]
pub struct Filling<'q, 'z, 'n, 's> {
    pub query: &'q Query,
    /// The zones of the directive.
    pub zones: &'z Names,
    /// The text of the query's name, in small letters.
    pub name: &'n str,
    /// The groups of the pattern that was found; None where the template has no pattern.
    pub groups: Option<&'s Scratch>,
}

/// Adds the texts of parts.
pub(crate) fn fill_in(
    alloc: Global,
    parts: &[Part],
    filling: &Filling<'_, '_, '_, '_>,
    out: &mut Bytes,
) -> Result<(), NoMemory>
    requires parts { HasParts filling.now }
    ensures { OnOk result (out.new ≡ out.old ++ filled_in (filling_data filling.now) parts.now) }
{
    let mut rest = parts;
    while let Some((part, behind)) = rest.split_first() {
        put_part(alloc, part, filling, out)?;
        rest = behind;
    }
    Ok(())
}

fn put_part(
    alloc: Global,
    part: &Part,
    filling: &Filling<'_, '_, '_, '_>,
    out: &mut Bytes,
) -> Result<(), NoMemory>
    requires parts { HasParts filling.now }
    ensures { OnOk result (out.new ≡ out.old ++ part_text (filling_data filling.now) part.now) }
{
    match part {
        Part::Bytes(bytes) => out.append(bytes.as_slice()),
        Part::Name => out.append(filling.name.as_bytes()),
        Part::Zone => put_zone(alloc, filling, out),
        Part::Type => out.append(kind_text(alloc, filling.query.kind)?.as_str().as_bytes()),
        Part::Remote => out.append(filling.query.client.text(alloc)?.as_str().as_bytes()),
        Part::Group(number) => put_group(*number, filling, out),
    }
}

fn put_zone(
    alloc: Global,
    filling: &Filling<'_, '_, '_, '_>,
    out: &mut Bytes,
) -> Result<(), NoMemory>
    ensures { OnOk result (out.new ≡ out.old ++ (filling_data filling.now).zone) }
{
    let root = Name::root(alloc);
    let zone = longest(&filling.query.name, &root, filling.zones.as_slice());
    out.append(zone.text(alloc)?.as_str().as_bytes())
}

// The longest of this zone and of those that hold a name.
fn longest<'a>(name: &Name, first: &'a Name, zones: &'a [Name]) -> &'a Name
    ensures { result.now ≡ longest_by name.now first.now zones.now }
{
    let mut longest = first;
    let mut rest = zones;
    while let Some((zone, behind)) = rest.split_first() {
        longest = longer(name, zone, longest);
        rest = behind;
    }
    longest
}

fn longer<'a>(name: &Name, zone: &'a Name, other: &'a Name) -> &'a Name
    ensures { result.now ≡ longer name.now zone.now other.now }
{
    if name.is_within(zone) && other.label_count() < zone.label_count() {
        zone
    } else {
        other
    }
}

fn put_group(
    number: usize,
    filling: &Filling<'_, '_, '_, '_>,
    out: &mut Bytes,
) -> Result<(), NoMemory>
    requires parts { HasParts filling.now }
    ensures { OnOk result (out.new
        ≡ out.old ++ spanned filling.now.name.now ((filling_data filling.now).span number)) }
{
    match filling.groups {
        Some(scratch) => put_some(scratch.part(filling.name, number), out),
        None => put_some(whole_part(filling.name, number), out),
    }
}

// The part of a group where the whole of a text is found.
fn whole_part(text: &str, number: usize) -> Option<&str>
    ensures { option_map (λ part. part.now) result
        ≡ option_map (λ s. slice_range text.now s.0 s.1) (whole_span text.now number) }
{
    if number == 0 {
        return Some(text);
    }
    None
}

fn put_some(text: Option<&str>, out: &mut Bytes) -> Result<(), NoMemory>
    ensures { OnOk result
        (out.new ≡ out.old ++ unwrap_or (option_map (λ text. text.now) text.entry) []) }
{
    match text {
        Some(text) => out.append(text.as_bytes()),
        None => Ok(()),
    }
}
