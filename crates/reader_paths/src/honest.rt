//! Whether a stream of events is honest.
ghost use Rattle.std.specs.Prelude.{◌≡◌, ◌↔◌, ◌==◌, ◌&&◌, true, not, length, IfOk, IfErr, IsTrue};
ghost use Rattle.notify_paths.specs.Errors.{out_of_memory};
ghost use Rattle.debounce_model.specs.CommandView.{command_value, reply_value, command_values, reply_values};
ghost use Rattle.debounce_model.specs.Honest.{is_honest_at, is_honest_event, are_honest};
ghost use Rattle.debounce_model.specs.Play.{play, accepted};
ghost use Rattle.reader_paths.specs.Played.{accepted_by};
ghost use Rattle.reader_paths.specs.Stream.{is_honest, IsHonestStream};

use crate::path_set::PathSet;
use debounce_model::{Command, Reply};
use notify_paths::{Error, PathBuf};
use notify_types::{Event, EventKind};
use std::alloc::Allocator;

/// Whether each command has a reply, and the accepted events are honest from this set on: the set is
/// closed; no event is a rename or has the Rescan flag; each names one path, which isn't empty; a
/// path that is created is absent and its folders are there; a path that is removed is there.
pub fn is_honest<A: Allocator + Copy>(
    start: &PathSet<A>,
    commands: &[Command<A>],
    replies: &[Reply<A>],
) -> Result<bool, Error<A>>
    ensures value { IfOk result (λ yes. yes
        ≡ is_honest start.now (command_values commands.now) (reply_values replies.now)) }
    ensures ok { IfOk result (λ yes.
        IsTrue yes ↔ IsHonestStream start.now (command_values commands.now)
        (reply_values replies.now)) }
    ensures err { IfErr result (λ e. e ≡ out_of_memory) }
{
    if commands.len() != replies.len() {
        return Ok(false);
    }
    if !start.is_closed()? {
        return Ok(false);
    }
    let mut raw = start.try_clone()?;
    are_honest(&mut raw, commands, replies)
}

/// Whether the accepted events are honest, one after the other. Plays those before the first that
/// isn't.
fn are_honest<A: Allocator + Copy>(
    raw: &mut PathSet<A>,
    commands: &[Command<A>],
    replies: &[Reply<A>],
) -> Result<bool, Error<A>>
    ensures ok { IfOk result (λ yes. yes
        ≡ are_honest raw.old (accepted (command_values commands.now) (reply_values replies.now))) }
    ensures err { IfErr result (λ e. e ≡ out_of_memory) }
{
    for (command, reply) in commands.iter().zip(replies) {
        if !play_honest(raw, command, reply)? {
            return Ok(false);
        }
    }
    Ok(true)
}

/// Whether the command's event, if it was taken, is honest. Plays it then.
fn play_honest<A: Allocator + Copy>(
    raw: &mut PathSet<A>,
    command: &Command<A>,
    reply: &Reply<A>,
) -> Result<bool, Error<A>>
    ensures ok { IfOk result (λ yes. yes
        ≡ are_honest raw.old (accepted_by (command_value command.now) (reply_value reply.now))) }
    ensures played { IfOk result (λ yes. yes ≡ true → raw.new
        ≡ play raw.old (accepted_by (command_value command.now) (reply_value reply.now))) }
    ensures err { IfErr result (λ e. e ≡ out_of_memory) }
{
    let (Command::Event(event, _, _), Reply::Taken(_)) = (command, reply) else {
        return Ok(true);
    };
    if !is_honest_event(raw, event)? {
        return Ok(false);
    }
    raw.play_event(event)?;
    Ok(true)
}

/// Whether the event is honest if these are the raw paths so far.
fn is_honest_event<A: Allocator + Copy>(
    raw: &PathSet<A>,
    event: &Event<A>,
) -> Result<bool, Error<A>>
    ensures ok { IfOk result (λ yes. yes ≡ is_honest_event raw.now event.now) }
    ensures err { IfErr result (λ e. e ≡ out_of_memory) }
{
    if event.need_rescan() {
        return Ok(false);
    }
    match event.paths.as_slice() {
        [path] if !path.is_empty() => is_honest_at(raw, event.kind, path),
        _ => Ok(false),
    }
}

/// Whether an event of this kind is honest at this path.
fn is_honest_at<A: Allocator + Copy>(
    raw: &PathSet<A>,
    kind: EventKind,
    path: &PathBuf<A>,
) -> Result<bool, Error<A>>
    ensures ok { IfOk result (λ yes. yes ≡ is_honest_at raw.now kind path.now) }
    ensures err { IfErr result (λ e. e ≡ out_of_memory) }
{
    if kind.is_creation() {
        return Ok(!raw.contains(path) && raw.has_folders(path)?);
    }
    if kind.is_removal() {
        return Ok(raw.contains(path));
    }
    Ok(!kind.is_rename())
}
