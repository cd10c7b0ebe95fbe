//! The filter of some patterns.
ghost use Rattle.std.specs.Prelude.{◌≡◌, IfOk, option_map};
ghost use Rattle.regex.specs.Strings.{matcher_pattern};
ghost use Rattle.std.specs.List.{list_any};
ghost use Rattle.program_logic.specs.Journal.Kept.{is_found, is_wanted_text, is_wanted, is_kept, passing};
ghost use Rattle.program_logic.specs.Journal.KeptView.{filter_rule};

use notify_paths::PathBuf;
use notify_types::DebouncedEvent;
use regex::Matcher;
use std::alloc::{AllocError, Global};

/// Keeps the events of which some path is wanted, and those that name no path.
#[derive(Drop)]
pub struct PathFilter<'p> {
    pub(crate) include: Option<Matcher<'p>>,
    pub(crate) exclude: Option<Matcher<'p>>,
}

impl<'p> PathFilter<'p> {
    /// Returns what is kept of the batch, in order.
    pub fn keep(
        &mut self,
        alloc: Global,
        batch: Vec<DebouncedEvent>,
    ) -> Result<Vec<DebouncedEvent>, AllocError>
        ensures kept { IfOk result (λ kept. kept.items
            ≡ passing (filter_rule self.old) batch.items) }
        ensures same { filter_rule self.new ≡ filter_rule self.old }
    {
        let mut kept = Vec::new(alloc);
        for event in batch {
            if self.keeps(&event) {
                kept.push(event)?;
            }
        }
        Ok(kept)
    }

    /// Whether some path of the event is wanted, or it names none.
    fn keeps(&mut self, event: &DebouncedEvent) -> bool
        ensures kept { result ≡ is_kept (filter_rule self.old) event.now }
        ensures same { filter_rule self.new ≡ filter_rule self.old }
    {
        event.event.paths.is_empty() || self.wants_some(event.event.paths.as_slice())
    }

    fn wants_some(&mut self, paths: &[PathBuf]) -> bool
        ensures wanted { result ≡ list_any (is_wanted (filter_rule self.old)) paths.now }
        ensures same { filter_rule self.new ≡ filter_rule self.old }
    {
        for path in paths {
            if self.wants(path.as_str()) {
                return true;
            }
        }
        false
    }

    /// Whether the path of this text is wanted.
    fn wants(&mut self, text: &str) -> bool
        ensures wanted { result ≡ is_wanted_text (filter_rule self.old) text.now }
        ensures same { filter_rule self.new ≡ filter_rule self.old }
    {
        let included = is_found(&mut self.include, text, true);
        let excluded = is_found(&mut self.exclude, text, false);
        included && !excluded
    }
}

/// Whether the pattern is found somewhere in the text; one that is missing gives this answer.
fn is_found(pattern: &mut Option<Matcher<'_>>, text: &str, missing: bool) -> bool
    ensures found { result ≡ is_found missing (option_map matcher_pattern pattern.old) text.now }
    ensures same { option_map matcher_pattern pattern.new ≡ option_map matcher_pattern pattern.old }
{
    match pattern {
        None => missing,
        Some(matcher) => matcher.is_match(text),
    }
}
