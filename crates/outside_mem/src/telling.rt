ghost use Rattle.std.specs.Prelude.{◌≡◌, ◌<◌, ◌^◌, length, MatchResult, IfSome};
ghost use Rattle.outside_mem.specs.Telling.{TellsMark};

use dns_data::{NoMemory, Seq};

/// Tells one mark more. Where memory ran out for it, nothing is told any more.
pub(crate) fn tell<T: Drop>(journal: &mut Option<Seq<T>>, mark: Result<T, NoMemory>)
    ensures told { MatchResult mark (TellsMark journal.old journal.new) (λ _. journal.new ≡ None) }
    ensures short { IfSome journal.new (λ marks. length marks < 2 ^ 64) }
{
    if let (Some(marks), Ok(mark)) = (&mut *journal, mark) {
        if marks.len() < usize::MAX && marks.push(mark).is_ok() {
            return;
        }
    }
    *journal = None;
}
