//! Scripts for threads: all of one timeout, and without counts.
ghost use Rattle.std.specs.Prelude.{◌≡◌, ◌⊎◌, ◌≤◌, ◌<◌, ◌↔◌, length, map, IsTrue, IfSome, IfNone, IfOk, IfErr, OnErr};
ghost use Rattle.std.specs.List.{count_by};
ghost use Rattle.debounce_model.specs.CommandView.{command_value, command_values};
ghost use Rattle.mirror_run.specs.Script.ScriptView.{script_value};
ghost use Rattle.mirror_threads.specs.Threads.{command_count, event_count, is_event, AreGiven, BeginsLine, HasCounts, HaveTimeout, IsEarlyStop, IsGiven, IsPlainFault, IsPlainStop};

use crate::stop::Stop;
use debounce_model::Command;
use mirror_run::script::{Fault, Script, read_script};
use notify_types::Moment;
use std::alloc::Allocator;
use std::io::{ErrorKind, Read};

/// Reads the scripts, in order, up to the first fault.
pub(crate) fn read_scripts<'n, A: Allocator + Copy, R: Read>(
    alloc: A,
    names: &'n [String<A>],
    readers: &mut [R],
) -> Result<Vec<Script<A>, A>, Stop<'n>>
    ensures ok { IfOk result (λ scripts.
        AreGiven (map R.remaining readers.old) (map script_value scripts.items)) }
    ensures err { IfErr result (IsEarlyStop (map R.remaining readers.old)) }
{
    let Ok(mut scripts) = Vec::with_capacity(alloc, readers.len()) else {
        return Err(Stop::Faulty("", Fault::Memory));
    };
    for number in 0..readers.len() {
        let script = read_named(alloc, name_at(names, number), &mut readers[number])?;
        let Ok(()) = scripts.push(script) else {
            return Err(Stop::Faulty("", Fault::Memory));
        };
    }
    Ok(scripts)
}

/// The name of this number, or the empty text if there is none.
fn name_at<A: Allocator>(names: &[String<A>], number: usize) -> &str {
    match names.get(number) {
        Some(name) => name.as_str(),
        None => "",
    }
}

/// Reads the script of this name, in which a `counts` line is a fault.
fn read_named<'n, A: Allocator + Copy, R: Read>(
    alloc: A,
    name: &'n str,
    reader: &mut R,
) -> Result<Script<A>, Stop<'n>>
    ensures ok { IfOk result (λ script. IsGiven (R.remaining reader.old) (script_value script)) }
    ensures err { IfErr result (IsPlainStop (R.remaining reader.old)) }
{
    match read_plain(alloc, reader) {
        Ok(script) => Ok(script),
        Err(fault) => Err(Stop::Faulty(name, fault)),
    }
}

/// Reads a script in which a `counts` line is a fault.
fn read_plain<A: Allocator + Copy, R: Read>(alloc: A, reader: &mut R) -> Result<Script<A>, Fault>
    ensures ok { IfOk result (λ script. IsGiven (R.remaining reader.old) (script_value script)) }
    ensures err { IfErr result (IsPlainFault (R.remaining reader.old)) }
{
    let bytes = read_whole(alloc, reader)?;
    plain_script(alloc, bytes.as_slice())
}

/// The script that the bytes are, in which a `counts` line is a fault.
#[tactic(auto, using(crate::proofs::GivenLemmas::plain_fault))]
fn plain_script<A: Allocator + Copy>(alloc: A, bytes: &[u8]) -> Result<Script<A>, Fault>
    ensures ok { IfOk result (λ script. IsGiven (Some bytes.now) (script_value script)) }
    ensures err { IfErr result (IsPlainFault (Some bytes.now)) }
{
    let mut reader = bytes;
    let counts = counts_line(bytes);
    match read_script(alloc, &mut reader) {
        Ok(script) => match counts {
            Some(line) => Err(Fault::NotCommand(line)),
            None => Ok(script),
        },
        Err(Fault::NotCommand(line)) => Err(Fault::NotCommand(counts.unwrap_or(line).min(line))),
        Err(fault) => Err(fault),
    }
}

/// The bytes that the reader gives, up to its end.
fn read_whole<A: Allocator, R: Read>(alloc: A, reader: &mut R) -> Result<Vec<u8, A>, Fault>
    ensures ok { IfOk result (λ bytes. IfSome (R.remaining reader.old) (λ given. bytes.items
        ≡ given)) }
    ensures err { IfErr result (λ fault. (fault ≡ Fault.CannotRead) ⊎ (fault ≡ Fault.Memory)) }
{
    let mut bytes = Vec::new(alloc);
    match reader.read_to_end(&mut bytes) {
        Ok(_) => Ok(bytes),
        Err(e) if e.kind() == ErrorKind::OutOfMemory => Err(Fault::Memory),
        Err(_) => Err(Fault::CannotRead),
    }
}

/// The number of the first line that begins with the word `counts`, from 1.
fn counts_line(bytes: &[u8]) -> Option<u64>
    ensures some { IfSome result (λ line. HasCounts bytes.now) }
    ensures none { IfNone result (HasCounts bytes.now → ⊥) }
{
    let mut number = 0u64;
    for at in 0..bytes.len() {
        if !begins_line(bytes, at) {
            continue;
        }
        number = number.saturating_add(1);
        if bytes[at..].starts_with(b"counts") {
            return Some(number);
        }
    }
    None
}

/// Whether a line begins at this place.
fn begins_line(bytes: &[u8], at: usize) -> bool
    requires fits { at < length bytes.now }
    ensures { IsTrue result ↔ BeginsLine bytes.now at }
{
    at == 0 || bytes[at - 1] == b'\n'
}

/// The timeout of the scripts, if they have the same.
pub(crate) fn timeout_of<A: Allocator>(scripts: &[Script<A>]) -> Result<Moment, Stop<'static>>
    ensures ok { IfOk result (HaveTimeout (map script_value scripts.now)) }
    ensures differ { OnErr result ((timeout : _) →
        HaveTimeout (map script_value scripts.now) timeout → ⊥) }
    ensures err { IfErr result (λ stop. stop ≡ Stop.Timeouts) }
{
    if scripts.is_empty() {
        return Ok(0);
    }
    let timeout = scripts[0].timeout;
    for script in scripts {
        if script.timeout != timeout {
            return Err(Stop::Timeouts);
        }
    }
    Ok(timeout)
}

/// How many commands the scripts have, and how many of them are events.
pub(crate) fn counts_of<A: Allocator>(scripts: &[Script<A>]) -> (u128, u128)
    ensures commands { result.0 ≡ command_count (map script_value scripts.now) }
    ensures events { result.1 ≡ event_count (map script_value scripts.now) }
{
    let mut commands = 0u128;
    let mut events = 0u128;
    for number in 0..scripts.len() {
        let script = scripts[number].commands.as_slice();
        commands += script.len() as u128;
        events += events_of(script) as u128;
    }
    (commands, events)
}

/// How many of the commands are events.
fn events_of<A: Allocator>(commands: &[Command<A>]) -> usize
    ensures { result ≡ count_by is_event (command_values commands.now) }
{
    let mut count = 0usize;
    for number in 0..commands.len() {
        if !is_event(&commands[number]) {
            continue;
        }
        count += 1;
    }
    count
}

fn is_event<A: Allocator>(command: &Command<A>) -> bool
    ensures { result ≡ is_event (command_value command.now) }
{
    matches!(command, Command::Event(..))
}

/// The commands of the scripts.
pub(crate) fn commands_of<A: Allocator + Copy>(
    alloc: A,
    scripts: Vec<Script<A>, A>,
) -> Result<Vec<Vec<Command<A>, A>, A>, Fault> {
    let mut lists = Vec::with_capacity(alloc, scripts.len())?;
    for script in scripts {
        lists.push(script.commands)?;
    }
    Ok(lists)
}
