ghost use Rattle.std.specs.Prelude.{◌≡◌, IfOk};
ghost use Rattle.dns_data.specs.Message.{no_answer};
ghost use Rattle.template_plugin.specs.Made.{Says, own_say};
ghost use Rattle.template_plugin.specs.Template.{first_found, found_said, next, searched};
ghost use Rattle.template_plugin.specs.Template.{template_say, unmatched};
ghost use Rattle.template_plugin.specs.Words.{patterns_of};

use crate::answering::{TemplateSay, answer};
use crate::filling::Filling;
use crate::plan::TemplatePlan;
use crate::searching::find_first;
use dns_data::{Bytes, NoMemory, Query, Slot, Text};
use pattern::Scratch;
use std::alloc::Global;
use zone_words::is_in;

/// A worker's room for searches and for texts. It keeps nothing that the next query reads.
#[derive(Drop)]
pub struct TemplateRoom {
    scratch: Scratch,
    /// The text of the query's name.
    name: Text,
    /// That of a record.
    text: Bytes,
}

impl TemplateRoom {
    /// Takes no memory yet.
    pub fn new(alloc: Global) -> TemplateRoom {
        TemplateRoom {
            scratch: Scratch::new(alloc),
            name: Text::new(alloc),
            text: Bytes::new(alloc),
        }
    }
}

/// What the templates of a block say of a query, tried in the order of the text: a reply fills the
/// slot.
#[tactic(auto, unfolding(crate::specs::Template::template_say))]
pub fn decide(
    alloc: Global,
    plans: &[TemplatePlan],
    query: &Query,
    room: &mut TemplateRoom,
    slot: &mut Slot,
) -> Result<TemplateSay, NoMemory>
    requires clear { slot.old ≡ no_answer }
    ensures { IfOk result (λ say. Says say (template_say plans.now query.now) slot.new) }
{
    let mut rest = plans;
    while let Some((plan, behind)) = rest.split_first() {
        if plan.applies(query) {
            match plan.say(alloc, query, room, slot)? {
                TemplateSay::Next => {}
                say => return Ok(say),
            }
        }
        rest = behind;
    }
    Ok(TemplateSay::Next)
}

impl TemplatePlan {
    // What it says of a query that it is for.
    fn say(
        &self,
        alloc: Global,
        query: &Query,
        room: &mut TemplateRoom,
        slot: &mut Slot,
    ) -> Result<TemplateSay, NoMemory>
        requires clear { slot.old ≡ no_answer }
        ensures { IfOk result (λ say. Says say (own_say self.now query.now) slot.new) }
    {
        query.name.write_lower(alloc, &mut room.name)?;
        if 0 < self.patterns.len() {
            return self.say_by_pattern(alloc, query, room, slot);
        }
        let name = room.name.as_str();
        let text = &mut room.text;
        let filling = Filling {
            query,
            zones: &self.zones,
            name,
            groups: None,
        };
        answer(alloc, &self.whole, &filling, self.rcode, text, slot)
    }

    // What it says by the first of its patterns that is found in the name's text, which the room
    // has.
    fn say_by_pattern(
        &self,
        alloc: Global,
        query: &Query,
        room: &mut TemplateRoom,
        slot: &mut Slot,
    ) -> Result<TemplateSay, NoMemory>
        requires name { room.old.name ≡ searched query.now.name }
        requires clear { slot.old ≡ no_answer }
        ensures { IfOk result (λ say. Says say (found_said self.now query.now next
            (first_found (patterns_of self.now.directive.body) room.old.name)) slot.new) }
    {
        let name = room.name.as_str();
        let (scratch, text) = (&mut room.scratch, &mut room.text);
        let Some(number) = find_first(self.patterns.as_slice(), name, scratch)? else {
            return Ok(self.unmatched(query));
        };
        let filling = Filling {
            query,
            zones: &self.zones,
            name,
            groups: Some(scratch),
        };
        let sections = self.sections.at(number);
        answer(alloc, sections, &filling, self.rcode, text, slot)
    }

    // What it says of a name that nothing matches.
    fn unmatched(&self, query: &Query) -> TemplateSay
        ensures { Says result (unmatched self.now query.now next) no_answer }
    {
        if is_in(&query.name, self.fallthrough.as_slice()) {
            return TemplateSay::Next;
        }
        TemplateSay::NoMatch
    }
}
