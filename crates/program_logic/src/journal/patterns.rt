//! The patterns of a filter.
ghost use Rattle.std.specs.Prelude.{◌≡◌, Some, IfOk, IfErr, option_map};
ghost use Rattle.regex.specs.Strings.{regex_pattern, matcher_pattern};
ghost use Rattle.program_logic.specs.Journal.KeptView.{IsPatternOf, filter_rule, patterns_rule};
ghost use Rattle.program_logic.specs.Journal.Patterns.{IsFaultOf, IsFaultOfOne};

use crate::journal::filter::PathFilter;
use crate::journal::pattern::{Pattern, PatternFault};
use regex::{Error, Matcher, Regex};
use std::alloc::{AllocError, Global};

/// Two patterns, each of which may be missing: a path is wanted if it matches the first and doesn't
/// match the second.
#[derive(Drop)]
pub struct Patterns {
    pub(crate) include: Option<Regex>,
    pub(crate) exclude: Option<Regex>,
}

impl Patterns {
    /// Reads the patterns.
    pub fn parse<'o, 't>(
        alloc: Global,
        include: Option<Pattern<'o, 't>>,
        exclude: Option<Pattern<'o, 't>>,
    ) -> Result<Patterns, PatternFault<'o, 't>>
        ensures include { IfOk result (λ p.
            IsPatternOf (option_map (λ s. s.text.now) include.entry) p.include) }
        ensures exclude { IfOk result (λ p.
            IsPatternOf (option_map (λ s. s.text.now) exclude.entry) p.exclude) }
        ensures err { IfErr result (IsFaultOfOne include.entry exclude.entry) }
    {
        Ok(Patterns {
            include: pattern_of(alloc, include)?,
            exclude: pattern_of(alloc, exclude)?,
        })
    }

    /// Returns the filter of these patterns.
    pub fn filter(&self, alloc: Global) -> Result<PathFilter<'_>, AllocError>
        ensures { IfOk result (λ filter. filter_rule filter ≡ patterns_rule self.now) }
    {
        Ok(PathFilter {
            include: matcher_of(alloc, &self.include)?,
            exclude: matcher_of(alloc, &self.exclude)?,
        })
    }
}

fn pattern_of<'o, 't>(
    alloc: Global,
    given: Option<Pattern<'o, 't>>,
) -> Result<Option<Regex>, PatternFault<'o, 't>>
    ensures ok { IfOk result (IsPatternOf (option_map (λ s. s.text.now) given.entry)) }
    ensures err { IfErr result (λ e. (pattern : _) × (given.entry ≡ Some pattern)
        × IsFaultOf pattern e) }
{
    match given {
        None => Ok(None),
        Some(pattern) => Ok(Some(read(alloc, pattern)?)),
    }
}

/// Reads one pattern.
fn read<'o, 't>(alloc: Global, pattern: Pattern<'o, 't>) -> Result<Regex, PatternFault<'o, 't>>
    ensures ok { IfOk result (λ regex. IsPatternOf (Some pattern.entry.text.now) (Some regex)) }
    ensures err { IfErr result (IsFaultOf pattern.entry) }
{
    match Regex::new(alloc, pattern.text) {
        Ok(regex) => Ok(regex),
        Err(Error::Syntax(error)) => Err(PatternFault::Wrong(pattern, error.span.start)),
        Err(Error::OutOfMemory) => Err(PatternFault::Memory),
        Err(Error::CompiledTooBig | Error::Internal) => Err(PatternFault::TooLarge(pattern)),
    }
}

fn matcher_of(alloc: Global, pattern: &Option<Regex>) -> Result<Option<Matcher<'_>>, AllocError>
    ensures { IfOk result (λ m.
        option_map matcher_pattern m ≡ option_map regex_pattern pattern.now) }
{
    match pattern {
        None => Ok(None),
        Some(pattern) => Ok(Some(pattern.matcher(alloc)?)),
    }
}
