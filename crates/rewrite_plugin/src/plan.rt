ghost use Rattle.std.specs.Prelude.{◌≡◌, length};
ghost use Rattle.pattern_judging.specs.{maker_behind};
ghost use Rattle.rewrite_plugin.specs.Judging.{ReadsRewrite};
ghost use Rattle.rewrite_plugin.specs.Reading.{patterns_of};

use crate::finder::{Finder, make_all};
use crate::made::made_written;
use crate::reading::read_written;
use crate::rule::{Answering, Matcher, Rule, Written};
use dns_data::{Copies, Directive, NoMemory, Seq};
use outside::PatternMaker;
use plugin_api::DirectiveFault;
use shared_patterns::SharedPattern;
use std::alloc::Global;
use std::marker::Model;

/// A directive `rewrite`, with what was made of its words once. Contracts see the directive.
#[derive(Debug, Drop)]
pub struct RewritePlan {
    directive: Directive,
    pub(crate) written: Written<Finder>,
    /// How many patterns it has.
    patterns: usize,
}

impl Model for RewritePlan {
    ghost use Rattle.dns_data.specs.declared.directive.Directive.{Directive};
    ghost use Rattle.rewrite_plugin.specs.Made.{IsMade};

    ghost Value = { Directive };

    ghost view = { λ p. p.directive };

    ghost invariant = { λ p. IsMade p.directive p.written p.patterns };
}

impl RewritePlan {
    /// Reads a directive behind so many patterns of the configuration, or says what is wrong with
    /// it.
    pub fn read<M: PatternMaker>(
        alloc: Global,
        directive: &Directive,
        patterns: usize,
        maker: &mut M,
    ) -> Result<RewritePlan, DirectiveFault>
        ensures value { ReadsRewrite patterns directive.now (M.last maker.new) result }
        ensures maker { M.state maker.new ≡ maker_behind result (M.state maker.old) }
    {
        RewritePlan::reread(alloc, &[], directive, patterns, maker)
    }

    /// The same where patterns are there that were made before. One of these is shared for its
    /// text, and not made again.
    pub fn reread<M: PatternMaker>(
        alloc: Global,
        there: &[&SharedPattern],
        directive: &Directive,
        patterns: usize,
        maker: &mut M,
    ) -> Result<RewritePlan, DirectiveFault>
        ensures value { ReadsRewrite patterns directive.now (M.last maker.new) result }
        ensures maker { M.state maker.new ≡ maker_behind result (M.state maker.old) }
    {
        let own = directive.copy(alloc)?;
        let mut found = Seq::new(alloc);
        let read = read_written(alloc, directive, &mut found)?;
        match make_all(alloc, there, patterns, found.as_slice(), maker) {
            Err(fault) => Err(fault),
            Ok(finders) => match read {
                Err(fault) => Err(fault),
                Ok(written) => Ok(RewritePlan {
                    directive: own,
                    written: made_written(alloc, &written, finders)?,
                    patterns: found.len(),
                }),
            },
        }
    }

    /// Adds its patterns to those that are there.
    pub fn push_patterns<'a>(&'a self, there: &mut Vec<&'a SharedPattern>) -> Result<(), NoMemory> {
        match &self.written.rule {
            Rule::Name(renaming) => {
                push_matcher(&renaming.from, there)?;
                push_answers(renaming.answers.as_slice(), there)
            }
            Rule::Type(_, _) => Ok(()),
            Rule::Ttl(from, _) => push_matcher(from, there),
        }
    }

    /// How many patterns it has.
    pub fn pattern_count(&self) -> usize
        ensures { result ≡ length (patterns_of self.now) }
    {
        self.patterns
    }
}

fn push_matcher<'a>(
    from: &'a Matcher<Finder>,
    there: &mut Vec<&'a SharedPattern>,
) -> Result<(), NoMemory> {
    if let Matcher::Regex(finder) = from {
        there.push(finder.pattern())?;
    }
    Ok(())
}

fn push_answers<'a>(
    answers: &'a [Answering<Finder>],
    there: &mut Vec<&'a SharedPattern>,
) -> Result<(), NoMemory> {
    for answering in answers {
        match answering {
            Answering::Auto => {}
            Answering::Name(replacing) => there.push(replacing.pattern.pattern())?,
            Answering::Value(replacing) => there.push(replacing.pattern.pattern())?,
        }
    }
    Ok(())
}
