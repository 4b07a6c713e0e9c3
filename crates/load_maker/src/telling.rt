//! Lines that are told one after another.
ghost use Rattle.outside.specs.Causes.{HostNoneFell};
ghost use Rattle.load_maker.specs.Lines.{TellsLines};

use dns_data::Text;
use outside::{Host, Wrote};

/// Tells lines one after another, up to the first that fails.
pub fn tell_lines<H: Host>(host: &mut H, lines: &[Text]) -> Wrote
    ensures tells { TellsLines (H.state host.old) (H.state host.new) lines.now result }
    ensures counts { HostNoneFell (H.state host.old).counts (H.state host.new).counts }
{
    for line in lines {
        match host.tell(line.as_str().as_bytes()) {
            Wrote::Ok => {}
            Wrote::Failed => return Wrote::Failed,
        }
    }
    Wrote::Ok
}
