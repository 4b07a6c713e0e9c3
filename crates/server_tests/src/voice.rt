//! An extra of any name that says by how many words it has what becomes of each query, counts its
//! calls, and may refuse one of those that set it.
ghost use Rattle.std.specs.Prelude.{◌≡◌, IfOk};
ghost use Rattle.server_tests.specs.Voice.{voice_by};

use dns_data::{Answer, Bytes, Copies, Directive, NoMemory, Query, Seq, rcode};
use plugin_api::{Code, Extra, Rulebook, Verdict};
use std::alloc::Global;

#[derive(Drop)]
pub struct Voice {
    pub name: Bytes,
    /// Which of the calls that set it is refused, as for want of memory; 0 for none.
    pub refused: u64,
    /// How often it was to be set.
    pub calls: u64,
    /// How many queries it was asked.
    pub asked: u64,
    pub setting: Option<Directive>,
}

/// What is promised of voices.
#[derive(Drop)]
pub struct VoiceBook;

impl Rulebook for VoiceBook {
    ghost use Rattle.server_tests.specs.Voice.{voice_said, voice_takes};

    ghost taken = { λ name. voice_takes };

    ghost said = { λ name. voice_said };
}

impl Extra for Voice {
    ghost use Rattle.server_tests.specs.Voice.{voice_said, voice_takes};

    ghost title = { λ voice. voice.name };

    ghost takes = { λ voice. voice_takes };

    ghost ruling = { λ voice. voice_said };

    ghost setting = { λ voice. voice.setting };

    fn name(&self) -> &[u8] {
        self.name.as_slice()
    }

    fn accepts(&self, _directive: &Directive) -> bool {
        true
    }

    fn configure(&mut self, alloc: Global, directive: &Directive) -> Result<(), NoMemory> {
        self.calls = self.calls.saturating_add(1);
        if self.calls == self.refused {
            return Err(NoMemory);
        }
        self.setting = Some(directive.copy(alloc)?);
        Ok(())
    }

    fn decide(&mut self, alloc: Global, _query: &Query) -> Result<Verdict, NoMemory> {
        self.asked = self.asked.saturating_add(1);
        match &self.setting {
            Some(directive) => Ok(decide_by(alloc, directive.args.len())),
            None => Ok(Verdict::Pass),
        }
    }
}

// What it says with so many words.
fn decide_by(alloc: Global, words: usize) -> Verdict
    ensures { result ≡ voice_by words }
{
    if words == 0 {
        return Verdict::Drop;
    }
    if words == 1 {
        return Verdict::Code(Code::ServFail);
    }
    if words == 2 {
        return Verdict::Pass;
    }
    Verdict::Reply(Answer {
        rcode: rcode::NXDOMAIN,
        aa: true,
        ra: false,
        tc: false,
        answer: Seq::new(alloc),
        authority: Seq::new(alloc),
        additional: Seq::new(alloc),
    })
}

/// A voice of this name that refuses this call.
pub fn named(alloc: Global, name: &str, refused: u64) -> Result<Voice, NoMemory> {
    Ok(Voice {
        name: Bytes::from_slice(alloc, name.as_bytes())?,
        refused,
        calls: 0,
        asked: 0,
        setting: None,
    })
}

/// Voices of these names, with spaces between them, of which the one with this number refuses this
/// call.
pub fn voices(
    alloc: Global,
    names: &str,
    number: usize,
    refused: u64,
) -> Result<Vec<Voice>, NoMemory> {
    let mut voices = Vec::new(alloc);
    for name in names.split(' ') {
        let call = if voices.len() == number { refused } else { 0 };
        voices.push(named(alloc, name, call)?)?;
    }
    Ok(voices)
}
