//! What a directive says of each class of answers.
ghost use Rattle.std.specs.Prelude.{◌≡◌, ◌<◌, ◌^◌};
ghost use Rattle.std.specs.NonZero.{non_zero_usize_get};
ghost use Rattle.cache_rules.specs.Settings.{class_begun, class_with, least_with, shard_room};
ghost use Rattle.cache_rules.specs.Settings.{servfail_with, settings_by, settings_of};
ghost use Rattle.cache_rules.specs.Settings.{times_with, with_line, without};

use crate::options::{
    Choice, Opens, chosen, opened, read_capacity, read_seconds, read_ttl, ttl_of,
};
use dns_data::{Directive, Line, Text};
use std::marker::Model;
use std::num::NonZeroUsize;

/// What is said of one class of answers.
#[derive(Debug, Drop)]
pub struct ClassRules {
    /// Whether answers of this class are kept.
    pub enabled: bool,
    /// How many entries all shards together keep.
    pub capacity: u32,
    /// The longest and the shortest lifetime in seconds, below 2^31.
    pub most: u32,
    pub least: u32,
}

impl Model for ClassRules {
    ghost use Rattle.std.specs.Prelude.{◌<◌, ◌≤◌, ◌^◌};
    ghost use Rattle.cache_rules.specs.Rules.{ClassData};

    ghost Value = { ClassData };

    ghost view = { λ p. record {
      enabled = p.enabled;
      capacity = p.capacity;
      most = p.most;
      least = p.least;
    } };

    ghost invariant = { λ p. (8 ≤ p.capacity) × (p.capacity ≤ 1000000) × (p.most < 2 ^ 31)
        × (p.least < 2 ^ 31) };
}

impl ClassRules {
    // Without a word for this class.
    fn begun(most: u32) -> ClassRules
        requires { most < 2 ^ 31 }
        ensures { result ≡ class_begun most }
    {
        ClassRules {
            enabled: true,
            capacity: 9_984,
            most,
            least: 5,
        }
    }

    // A capacity, which both times may follow.
    fn read(&mut self, words: &[Text])
        ensures { self.new ≡ class_with self.old words.now }
    {
        if let Some((word, rest)) = words.split_first() {
            self.capacity = read_capacity(word).unwrap_or(self.capacity);
            self.read_times(rest);
        }
    }

    fn read_times(&mut self, words: &[Text])
        ensures { self.new ≡ times_with self.old words.now }
    {
        if let Some((word, rest)) = words.split_first() {
            self.most = read_ttl(word).unwrap_or(self.most);
            self.read_least(rest);
        }
    }

    fn read_least(&mut self, words: &[Text])
        ensures { self.new ≡ least_with self.old words.now }
    {
        if let Some((word, _)) = words.split_first() {
            self.least = read_ttl(word).unwrap_or(self.least);
        }
    }

    /// How many entries each shard keeps of this class.
    pub fn shard_room(&self) -> NonZeroUsize
        ensures { non_zero_usize_get result ≡ shard_room self.now }
    {
        let Some(room) = NonZeroUsize::new((self.capacity as usize + 7) / 8) else {
            unreachable!()
        };
        room
    }
}

/// What a directive says of answers.
#[derive(Debug, Drop)]
pub struct Settings {
    pub success: ClassRules,
    pub denial: ClassRules,
    /// How many seconds a failure is kept, at most 300; 0 for none.
    pub servfail: u32,
    /// Whether the TTLs of a hit stay as they came.
    pub keepttl: bool,
}

impl Model for Settings {
    ghost use Rattle.std.specs.Prelude.{◌≤◌};
    ghost use Rattle.cache_rules.specs.Rules.{SettingsData};

    ghost Value = { SettingsData };

    ghost view = { λ p. record {
      success = p.success;
      denial = p.denial;
      servfail = p.servfail;
      keepttl = p.keepttl;
    } };

    ghost invariant = { λ p. p.servfail ≤ 300 };
}

impl Settings {
    /// What a directive says.
    pub(crate) fn of(directive: &Directive) -> Settings
        ensures { result ≡ settings_of directive.now }
    {
        let ttl = ttl_of(directive.args.as_slice());
        let mut settings = Settings {
            success: ClassRules::begun(ttl.unwrap_or(3_600)),
            denial: ClassRules::begun(ttl.unwrap_or(1_800)),
            servfail: 5,
            keepttl: false,
        };
        settings.read_lines(directive.body.as_slice());
        settings
    }

    fn read_lines(&mut self, lines: &[Line])
        ensures { self.new ≡ settings_by self.old lines.now }
    {
        for line in lines {
            self.read(line.words.as_slice());
        }
    }

    fn read(&mut self, words: &[Text])
        ensures { self.new ≡ with_line self.old words.now }
    {
        let Some((word, rest)) = words.split_first() else {
            return;
        };
        match opened(word) {
            Opens::Success => self.success.read(rest),
            Opens::Denial => self.denial.read(rest),
            Opens::Servfail => self.read_servfail(rest),
            Opens::Disable => self.disable(rest),
            Opens::Keepttl => self.keepttl = true,
            Opens::Nothing => {}
        }
    }

    fn read_servfail(&mut self, words: &[Text])
        ensures { self.new ≡ servfail_with self.old words.now }
    {
        if let Some((word, _)) = words.split_first() {
            self.servfail = read_seconds(word).unwrap_or(self.servfail);
        }
    }

    fn disable(&mut self, words: &[Text])
        ensures { self.new ≡ without self.old words.now }
    {
        if let Some((word, _)) = words.split_first() {
            match chosen(word) {
                Choice::Success => self.success.enabled = false,
                Choice::Denial => self.denial.enabled = false,
                Choice::Neither => {}
            }
        }
    }
}
