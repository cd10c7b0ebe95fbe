//! What a core shows while it carries out a script.
use mirror_run::script::read_script;
use notify_debouncer_full::{Command, DebounceDataInner, NoCache, RecursiveMode};
use std::alloc::{AllocError, Global};

/// Writes down what a core without a cache shows: at each event the mode of its first path, before each
/// tick how many events wait, after it how many queues it found due, and at the end the latest moment.
pub fn show_run(alloc: Global, script: &str, text: &mut String) -> Result<(), AllocError> {
    let Ok(script) = read_script(alloc, &mut script.as_bytes()) else {
        return text.push_str("no script, or no memory\n");
    };
    let mut core = DebounceDataInner::new(alloc, NoCache::new(), script.timeout);
    show_commands(&mut core, script.commands, text)
}

fn show_commands(
    core: &mut DebounceDataInner<NoCache>,
    commands: Vec<Command>,
    text: &mut String,
) -> Result<(), AllocError> {
    for command in commands {
        show_step(core, command, text)?;
    }
    writeln!(text, "latest {}", core.latest())
}

/// Carries out a command, and writes down what is seen at it.
fn show_step(
    core: &mut DebounceDataInner<NoCache>,
    command: Command,
    text: &mut String,
) -> Result<(), AllocError> {
    match command {
        Command::Tick(now) => {
            writeln!(text, "waiting {}", core.waiting())?;
            core.step(Command::Tick(now));
            writeln!(text, "visited {}", core.visited())
        }
        Command::Event(event, now, exists) => {
            if let Some(path) = event.first_path() {
                writeln!(text, "mode {}", word_of(core.recursive_mode(path)))?;
            }
            core.step(Command::Event(event, now, exists));
            Ok(())
        }
        other => {
            core.step(other);
            Ok(())
        }
    }
}

fn word_of(mode: RecursiveMode) -> &'static str {
    match mode {
        RecursiveMode::Recursive => "Recursive",
        RecursiveMode::NonRecursive => "NonRecursive",
    }
}
