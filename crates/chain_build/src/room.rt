ghost use Rattle.std.specs.Prelude.{◌≡◌, []};
ghost use Rattle.dns_data.specs.Message.{no_answer};

use dns_data::{Buffer, Query, RecordRoom, Slot};
use outside::Kept;
use rewrite_plugin::{Changed, RewriteRoom};
use std::alloc::Global;
use std::mem;
use template_plugin::TemplateRoom;

/// What a worker keeps from one query to the next, so that the next takes no memory for it: the
/// query, the bytes of a reply that was sent, and what a walk writes in.
#[derive(Drop)]
pub struct Room {
    pub query: Query,
    pub reply: Buffer,
    pub front: FrontRoom,
}

/// What `dns64` writes in, and what the walk behind it does.
#[derive(Drop)]
pub struct FrontRoom {
    /// The query that the rest is asked in place of the client's.
    pub second: Query,
    /// Changes places with the slot's answer.
    pub spare: RecordRoom,
    pub walk: WalkRoom,
}

/// What the walk through a chain behind `dns64` writes in. It keeps nothing that the next query
/// reads.
#[derive(Drop)]
pub struct WalkRoom {
    /// The query behind the rules of `rewrite`.
    pub changed: Changed,
    pub plugins: PluginRoom,
}

/// What plugins write in while they serve a query: the answer, and what they search and turn in.
#[derive(Drop)]
pub struct PluginRoom {
    pub slot: Slot,
    /// What a cache in front keeps of the inner marks.
    pub kept: Kept,
    pub template: TemplateRoom,
    pub rewrite: RewriteRoom,
}

impl PluginRoom {
    pub fn new(alloc: Global) -> PluginRoom
        ensures slot { result.slot ≡ no_answer }
    {
        PluginRoom {
            slot: Slot::new(alloc),
            kept: Kept::Off,
            template: TemplateRoom::new(alloc),
            rewrite: RewriteRoom::new(alloc),
        }
    }
}

impl Room {
    pub fn new(alloc: Global) -> Room
        ensures reply { result.reply ≡ [] }
        ensures slot { result.front.walk.plugins.slot ≡ no_answer }
    {
        Room {
            query: Query::blank(alloc),
            reply: Buffer::new(alloc),
            front: FrontRoom {
                second: Query::blank(alloc),
                spare: RecordRoom::new(alloc),
                walk: WalkRoom {
                    changed: Changed::new(alloc),
                    plugins: PluginRoom::new(alloc),
                },
            },
        }
    }

    /// Takes the reply's bytes out.
    #[inline]
    pub fn take_reply(&mut self, alloc: Global) -> Buffer
        ensures bytes { result ≡ self.old.reply }
        ensures rest { self.new ≡ record self.old { reply = [] } }
    {
        mem::replace(&mut self.reply, Buffer::new(alloc))
    }
}
