//! An answer is put into a cache, where its rules keep it.
ghost use Rattle.std.specs.Prelude.{◌≡◌, [], ◌∷◌, None, IfOk};
ghost use Rattle.std.specs.Arc.{arc_value};
ghost use Rattle.outside.specs.declared.entry.InnerMark.{InnerMark};
ghost use Rattle.std.specs.Prelude.{List};
ghost use Rattle.cache_rules.specs.{key_of};
ghost use Rattle.chain_meaning.specs.Caching.{entry_for, put_or, take_put};
ghost use Rattle.chain_meaning.specs.declared.decision.Decision.{Decision};
ghost use Rattle.cache_plugin.specs.Calling.{CallsBy, state_at};
ghost use Rattle.cache_plugin.specs.Keeping.{ArePast, IsFair, IsMade, kept_result, put_result};
ghost use Rattle.cache_shards.specs.Calls.{put_marks};
ghost use Rattle.outside.specs.{EntryData};
ghost use Rattle.outside.specs.declared.entry.Key.{Key};
ghost use Rattle.outside.specs.declared.mark.Mark.TheVariants as mark;
ghost use Rattle.cache_plugin.specs.Uses.{KeepsParts, SameUse, use_logs};

use crate::cache_use::{CacheQuery, CacheUse, Decided, Missed};
use cache_rules::{class_of, is_light};
use cache_shards::{Judge, Kept as Put};
use dns_data::{Copies, NoMemory};
use outside::{Entry, Kept, Key, Seen, Side};
use std::alloc::Global;
use std::sync::{Arc, Wait};

impl<J: Judge> CacheUse<J> {
    /// Puts the answer to a query into the cache, where its rules keep it, and then gives the
    /// entry. A cache that has no memory for it loses it alone.
    pub fn keep<R: Wait, S: Side>(
        &mut self,
        asked: &CacheQuery<'_, R>,
        missed: Missed,
        decided: Decided,
        side: &mut S,
    ) -> Result<Option<Arc<Entry>>, NoMemory>
        requires key { missed.key ≡ key_of asked.now.query.now }
        requires fair { IsFair (J.just self.old.cache.judge) asked.now.plan.now asked.now.query.now
            missed.moment decided.answer decided.kept }
        ensures same { SameUse self.old self.new }
        ensures keeps { KeepsParts self.old self.new }
        ensures calls { (inner : List InnerMark) → ArePast decided.kept inner
            → CallsBy (key_of asked.now.query.now)
            (put_or asked.now.plan.now missed.moment decided.answer
            (entry_for asked.now.plan.now asked.now.query.now missed.moment decided.answer inner))
            (kept_result asked.now.plan.now missed.moment decided.answer result)
            (state_at (S.state side.old) (use_logs self.old))
            (state_at (S.state side.new) (use_logs self.new)) }
    {
        let Missed { key, moment } = missed;
        let Some(entry) = entry_of(asked, moment, decided)? else {
            return Ok(None);
        };
        let entry = self.put(asked.alloc, asked.rt, key, entry, side)?;
        Ok(Some(entry))
    }

    // Puts an entry under its key.
    fn put<R: Wait, S: Side>(
        &mut self,
        alloc: Global,
        rt: &R,
        key: Key,
        entry: Entry,
        side: &mut S,
    ) -> Result<Arc<Entry>, NoMemory>
        requires key { key ≡ key_of entry.origin }
        requires just { J.just self.old.cache.judge entry }
        ensures same { SameUse self.old self.new }
        ensures keeps { KeepsParts self.old self.new }
        ensures entry { IfOk result (λ put. arc_value put ≡ entry) }
        ensures calls { (v : Decision) → CallsBy key (take_put entry v) (put_result v result)
            (state_at (S.state side.old) (use_logs self.old))
            (state_at (S.state side.new) (use_logs self.new)) }
    {
        let copy = key.copy(alloc)?;
        let entry = Arc::new(alloc, entry)?;
        let shared = Arc::try_clone(&entry)?;
        let kept = is_kept(self.cache.put(rt, &mut self.seat, key, shared));
        side.saw(Seen::Put(&copy, &entry, kept));
        Ok(entry)
    }
}

// Whether a put was kept.
fn is_kept(put: Put) -> bool
    ensures { (key : Key) → (entry : EntryData)
        → put_marks key entry put ≡ mark.Put key entry result ∷ [] }
{
    match put {
        Put::Kept => true,
        Put::NoMemory => false,
    }
}

// The entry of an answer to a query, where the rules keep one.
fn entry_of<R>(
    asked: &CacheQuery<'_, R>,
    moment: u64,
    decided: Decided,
) -> Result<Option<Entry>, NoMemory>
    ensures is { IfOk result (λ entry. (inner : List InnerMark) → ArePast decided.kept inner
        → entry_for asked.now.plan.now asked.now.query.now moment decided.answer inner ≡ entry) }
    ensures made { IfOk result
        (IsMade asked.now.plan.now asked.now.query.now moment decided.answer decided.kept) }
{
    let Decided { answer, kept } = decided;
    let Some(lived) = class_of(asked.plan, &answer) else {
        return Ok(None);
    };
    let Kept::On(light) = kept else {
        return Ok(None);
    };
    if !is_light(&answer, light.as_slice()) {
        return Ok(None);
    }
    Ok(Some(Entry {
        class: lived.class,
        born: moment,
        life: lived.life,
        answer,
        origin: asked.query.copy(asked.alloc)?,
        inner: light.into_marks(),
    }))
}
