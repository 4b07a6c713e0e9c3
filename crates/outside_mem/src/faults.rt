ghost use Rattle.std.specs.Prelude.{◌≡◌, ◌≤◌, not};
ghost use Rattle.outside.specs.Marks.{went};
ghost use Rattle.outside.specs.Script.{is_to_fail};
ghost use Rattle.outside_mem.specs.Calls.{one_more, counted};
ghost use Rattle.outside_mem.specs.Faults.{faults_with, ask_faults_with, silences_with};
ghost use Rattle.outside_mem.specs.Faults.{read_faults_with, is_starved};

use crate::calls::Calls;
use outside::{Outcome, ReadOut, Wrote};

/// Counts one more failing call. The count stays at the last value of u64.
pub(crate) fn count(faults: &mut u64)
    ensures value { faults.new ≡ one_more faults.old }
    ensures rose { faults.old ≤ faults.new }
{
    *faults = faults.saturating_add(1);
}

/// Makes the next of the calls that hand something out, and counts it, and its failure too.
pub(crate) fn hand_out(calls: &mut Calls, faults: &mut u64) -> Wrote
    ensures went { went result ≡ not (is_to_fail calls.old.fails calls.old.counted) }
    ensures calls { calls.new ≡ counted calls.old }
    ensures faults { faults.new ≡ faults_with faults.old result }
    ensures rose { faults.old ≤ faults.new }
{
    let fails = calls.is_to_fail();
    calls.count();
    if fails {
        count(faults);
        return Wrote::Failed;
    }
    Wrote::Ok
}

/// Counts an outcome where it is a failure or a silence.
pub(crate) fn count_outcome(faults: &mut u64, silences: &mut u64, outcome: &Outcome)
    ensures faults { faults.new ≡ ask_faults_with faults.old outcome.now }
    ensures silences { silences.new ≡ silences_with silences.old outcome.now }
    ensures rose { (faults.old ≤ faults.new) × (silences.old ≤ silences.new) }
{
    match outcome {
        Outcome::Failed => count(faults),
        Outcome::Silence => count(silences),
        Outcome::Got(_) | Outcome::NoMemory => {}
    }
}

/// Counts a read where it is a failure.
pub(crate) fn count_read(faults: &mut u64, out: &ReadOut)
    ensures faults { faults.new ≡ read_faults_with faults.old out.now }
    ensures rose { faults.old ≤ faults.new }
{
    match out {
        ReadOut::Failed => count(faults),
        ReadOut::Got(_) | ReadOut::Missing | ReadOut::NoMemory => {}
    }
}

/// Whether a read met want of memory.
pub(crate) fn is_starved(out: &ReadOut) -> bool
    ensures { result ≡ is_starved out.now }
{
    match out {
        ReadOut::NoMemory => true,
        ReadOut::Got(_) | ReadOut::Missing | ReadOut::Failed => false,
    }
}
