//! The configuration that is in force.
ghost use Rattle.std.specs.Prelude.{◌≡◌, None, IfOk, IfSome, OnErr};
ghost use Rattle.std.specs.Option.{option_copied};
ghost use Rattle.program_logic.specs.Config.InForce.{Follows, IsComplaint, ShowsMembers};
ghost use Rattle.program_logic.specs.Config.Parsed.{IsParsed};
ghost use Rattle.toml.specs.Errors.{IsMemory};
ghost use Rattle.toml.specs.View.{table_view};

use crate::config::Config;
use crate::config::printed::paragraph;
use std::alloc::{AllocError, Global};
use toml::de::Error;

/// Keeps the last configuration that was read without an error.
#[derive(Drop)]
pub struct Reloader {
    in_force: Option<Config>,
}

impl Reloader {
    /// Returns a reloader that has read nothing yet.
    pub fn new() -> Reloader
        ensures { result.in_force ≡ None }
    {
        Reloader { in_force: None }
    }

    /// Reads the text, and returns what there is to print. If it is a document, it is in force from then
    /// on, and the lines are `loaded` and the configuration. Else what was in force stays, and the lines
    /// are `kept` and the complaint. An error says that an allocation failed.
    pub fn reload(&mut self, alloc: Global, text: &str) -> Result<Vec<u8>, AllocError>
        ensures ok { IfOk result (λ lines.
            Follows text.now self.old.in_force self.new.in_force lines.items) }
        ensures err { OnErr result (self.new ≡ self.old) }
    {
        match Config::parse(alloc, text) {
            Ok(config) => {
                let lines = loaded(alloc, &config)?;
                self.in_force = Some(config);
                Ok(lines)
            }
            Err(error) => kept(alloc, &error),
        }
    }

    /// Returns the configuration in force, or `None` if none was ever read.
    pub fn in_force(&self) -> Option<&Config>
        ensures same { option_copied result ≡ self.now.in_force }
        ensures parsed { IfSome result (λ config. ∥ IsParsed (table_view config.now.table) ∥₁) }
    {
        self.in_force.as_ref()
    }
}

/// The lines of a configuration that was read. A document of what was read fails for memory alone.
fn loaded(alloc: Global, config: &Config) -> Result<Vec<u8>, AllocError>
    ensures { IfOk result (λ lines. ShowsMembers (table_view config.now.table) lines.items) }
{
    match config.to_text(alloc) {
        Ok(text) => paragraph(alloc, "loaded", text.as_str()),
        Err(_) => Err(AllocError),
    }
}

/// The lines of a text that was refused, unless an allocation failed.
fn kept(alloc: Global, error: &Error) -> Result<Vec<u8>, AllocError>
    ensures shown { IfOk result (λ lines. IsComplaint lines.items) }
    ensures refused { IfOk result (λ _. ¬ IsMemory error.now) }
{
    if error.is_memory() {
        return Err(AllocError);
    }
    let complaint = format!(in alloc; "{error}")?;
    paragraph(alloc, "kept", complaint.as_str())
}
