//! Where a program reads hints.
ghost use Rattle.std.specs.Prelude.{◌≡◌, Some, None, codes, bytes_eq, option_map, IfSome};
ghost use Rattle.clap.specs.Words.{first_value, found_of, one_text};

use crate::hints::Ends;
use clap::ArgMatches;

/// Where hints are read, and what stands after each.
#[derive(Clone, Copy, Debug)]
pub struct HintWords<'a> {
    /// The file's name; `-` is standard input.
    pub file: &'a str,
    /// What stands after each path.
    pub ends: Ends,
}

impl HintWords<'_> {
    /// Whether they come by standard input.
    pub fn is_input(&self) -> bool
        ensures { result ≡ bytes_eq self.now.file.now (codes "-") }
    {
        self.file == "-"
    }
}

/// Returns what the words say by `--hints` and `--hints-zero`.
pub fn hints_of<'a>(matches: &ArgMatches<'a>) -> Option<HintWords<'a>>
    ensures hints { option_map (λ h. h.file.now) result
        ≡ first_value (found_of matches.now) (codes "hints") }
    ensures lines { one_text (found_of matches.now) (codes "hints-zero") ≡ None
        → IfSome result (λ h. h.ends ≡ Ends.Lines) }
    ensures zeros { one_text (found_of matches.now) (codes "hints-zero") ≡ Some (codes "true")
        → IfSome result (λ h. h.ends ≡ Ends.Zeros) }
{
    let ends = ends_of(matches);
    match matches.get_str("hints") {
        Some(file) => Some(HintWords { file, ends }),
        None => None,
    }
}

/// What stands after each path.
fn ends_of(matches: &ArgMatches<'_>) -> Ends
    ensures lines { one_text (found_of matches.now) (codes "hints-zero") ≡ None
        → result ≡ Ends.Lines }
    ensures zeros { one_text (found_of matches.now) (codes "hints-zero") ≡ Some (codes "true")
        → result ≡ Ends.Zeros }
{
    if matches.get_flag("hints-zero") {
        Ends::Zeros
    } else {
        Ends::Lines
    }
}
