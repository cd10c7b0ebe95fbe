//! A script that is carried out over a map of file numbers.
use crate::answers::walk::{Map, Walk, push_numbers, push_path};
use mirror_run::script::read_script;
use notify_debouncer_full::{Command, DebounceDataInner, DebouncedEvent, FileIdMap, Reply};
use std::alloc::{AllocError, Global};

/// What comes of the script: after each command its batch and the numbers, and at the end what was scanned.
pub fn carried_out(alloc: Global, script: &str) -> Result<String, AllocError> {
    let mut text = String::new(alloc);
    let Ok(script) = read_script(alloc, &mut script.as_bytes()) else {
        text.push_str("no script, or no memory\n")?;
        return Ok(text);
    };
    let map = FileIdMap::new(alloc, Walk::new(alloc));
    let mut core = DebounceDataInner::new(alloc, map, script.timeout);
    push_steps(alloc, &mut text, &mut core, script.commands)?;
    Ok(text)
}

fn push_steps(
    alloc: Global,
    text: &mut String,
    core: &mut DebounceDataInner<Map>,
    commands: Vec<Command>,
) -> Result<(), AllocError> {
    for command in commands {
        let reply = core.step(command);
        push_reply(text, &reply)?;
        push_numbers(alloc, text, core.cache())?;
    }
    text.push_str(core.cache().scan().asked())
}

fn push_reply(text: &mut String, reply: &Reply) -> Result<(), AllocError> {
    match reply {
        Reply::Batch(events) => {
            writeln!(text, "batch {}", events.len())?;
            for event in events {
                push_event(text, event)?;
            }
            Ok(())
        }
        Reply::Errors(errors) => writeln!(text, "errors {}", errors.len()),
        Reply::Refused(_) => text.push_str("refused\n"),
        _ => Ok(()),
    }
}

fn push_event(text: &mut String, event: &DebouncedEvent) -> Result<(), AllocError> {
    write!(text, "{} {}", event.time, event.kind().word())?;
    for path in &event.event.paths {
        text.push(' ')?;
        push_path(text, path)?;
    }
    text.push('\n')
}
