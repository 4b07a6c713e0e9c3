ghost use Rattle.std.specs.Prelude.{ℕ, List, IfOk};
ghost use Rattle.template_plugin.specs.Judging.{AreOf};
ghost use Rattle.template_plugin.specs.Made.{Finds};

use dns_data::NoMemory;
use pattern::Scratch;
use shared_patterns::SharedPattern;

/// The number of the first of patterns that is found in a text. The scratch keeps its groups.
pub(crate) fn find_first(
    patterns: &[SharedPattern],
    text: &str,
    scratch: &mut Scratch,
) -> Result<Option<usize>, NoMemory>
    ensures { IfOk result (λ found. (texts : List (List ℕ)) → AreOf texts patterns.now
        → Finds patterns.now text.now scratch.new texts found) }
{
    let mut number = 0;
    let mut rest = patterns;
    while let Some((pattern, behind)) = rest.split_first() {
        if let Some(_) = pattern.find(scratch, text, true)? {
            return Ok(Some(number));
        }
        number += 1;
        rest = behind;
    }
    Ok(None)
}
