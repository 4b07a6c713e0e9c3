//! What a datagram means by the marks that serving it took, as far as a judge asks for it.
ghost use Rattle.std.specs.Prelude.{◌≡◌, ◌<◌, ℕ, IfOk, List, []};
ghost use Rattle.outside.specs.declared.datagram.Datagram.{Datagram};
ghost use Rattle.outside.specs.declared.mark.Mark.{Mark};
ghost use Rattle.chain_meaning.specs.declared.served.Served.{Served};
ghost use Rattle.chain_meaning.specs.declared.served.Served.TheVariants as served;
ghost use Rattle.audit_run.specs.Own.{AllOwn};
ghost use Rattle.audit_run.specs.Walks.{Meanings, MeansSo};

use dns_data::{Buffer, NoMemory};
use outside::{Datagram, Mark};
use std::alloc::Global;

/// What a datagram means by its own marks.
#[derive(Debug, Drop)]
pub enum TurnMeans {
    /// It is replied to with these bytes.
    Replies(Buffer),
    /// It is not replied to.
    Silence,
    /// The marks end too early.
    Short,
    /// The mark with this number may not stand there.
    Off(usize),
}

/// The configurations that a run published, as far as turns ask for them.
pub trait TurnMeaning {
    /// What a datagram may come to.
    ghost serves: { Self → Meanings };

    /// How many were published.
    ghost published: { Self → ℕ };

    fn count(&self) -> u64
        ensures { result ≡ published self.now };

    /// What a datagram means under the one with this serial.
    fn mean(
        &self,
        alloc: Global,
        serial: u64,
        datagram: &Datagram,
        marks: &[Mark],
    ) -> Result<TurnMeans, NoMemory>
        requires { serial < published self.now }
        ensures { IfOk result (λ means.
            MeansSo (serves self.now serial datagram.now) marks.now means) };

    ghost within: { (s : Self) (serial : ℕ) (d : Datagram) (marks : List Mark) (served : Served)
        → serves s serial d marks served → serial < published s };

    ghost starves: { (s : Self) (serial : ℕ) (d : Datagram) → serial < published s
        → serves s serial d [] served.NoMemory };

    ghost own: { (s : Self) (serial : ℕ) (d : Datagram) (marks : List Mark) (served : Served)
        → serves s serial d marks served → AllOwn marks };
}
