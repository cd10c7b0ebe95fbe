//! The names in a folder.
ghost use Rattle.std.specs.Prelude.{◌≡◌, ◌≢◌, ◌+◌, ◌-◌, ◌^◌, ◌≤◌, ◌==◌, filter, min, map, IfErr, IfOk, IfSome, IsOk, OnOk, ◌∷◌, [], string_bytes};
ghost use Rattle.std.specs.IoError.{error_kind};
ghost use Rattle.std.specs.List.{after_first, before_first, position_or_len};
ghost use Rattle.std.specs.Str.{IsUtf8};
ghost use Rattle.poll_watcher.specs.Entries.Names.{AddsNames, ReadsNames, is_entry, names_in};

use std::alloc::{AllocError, Allocator};
use std::io;
use std::io::{ErrorKind, Read};

/// The names as which an open folder reads: some of them by each read, a zero byte after each. Those that are no
/// text are left out, and counted. A read that is interrupted is made again. After an error what was counted stays
/// counted.
pub fn read_names<F: Read, A: Allocator + Copy>(
    folder: &mut F,
    alloc: A,
    left_out: &mut u64,
) -> io::Result<Vec<String<A>, A>>
    ensures ok { IfSome (F.remaining folder.old) (λ bytes. IfOk result (λ names.
        ReadsNames bytes (map string_bytes names.items) left_out.old left_out.new)) }
    ensures counted { left_out.old ≤ left_out.new }
    ensures retried { IfErr result (λ e. error_kind e ≢ ErrorKind.Interrupted) }
{
    let mut names = Vec::new(alloc);
    let mut buffer = [0; 4096];
    for _ in 0..u64::MAX {
        match folder.read(&mut buffer) {
            Ok(0) => return Ok(names),
            Ok(count) => add_names(&mut names, &buffer[..count], left_out)?,
            Err(error) if error.kind() == ErrorKind::Interrupted => {}
            Err(error) => return Err(error),
        }
    }
    // An endless folder has no last name.
    Err(io::Error::from(ErrorKind::TimedOut))
}

/// Adds the names of the entries.
fn add_names<A: Allocator + Copy>(
    names: &mut Vec<String<A>, A>,
    bytes: &[u8],
    left_out: &mut u64,
) -> Result<(), AllocError>
    ensures ok { OnOk result (AddsNames (names_in bytes.now) (map string_bytes names.old.items)
        (map string_bytes names.new.items) left_out.old left_out.new) }
    ensures counted { left_out.old ≤ left_out.new }
{
    let mut rest = bytes;
    while !rest.is_empty() {
        let (name, after) = first_name(rest);
        add_entry(names, name, left_out)?;
        rest = after;
    }
    Ok(())
}

/// The first name, and what comes after the byte that ends it.
fn first_name(bytes: &[u8]) -> (&[u8], &[u8])
    ensures name { result.0.now ≡ before_first (λ byte. byte == 0) bytes.now }
    ensures after { result.1.now ≡ after_first (λ byte. byte == 0) bytes.now }
{
    let (name, end) = bytes.split_at(length_of_name(bytes));
    match end {
        [_, after @ ..] => (name, after),
        [] => (name, end),
    }
}

/// How many bytes come before the first one that ends a name.
fn length_of_name(bytes: &[u8]) -> usize
    ensures { result ≡ position_or_len (λ byte. byte == 0) bytes.now }
{
    bytes
        .iter()
        .position(|byte| *byte == 0)
        .unwrap_or(bytes.len())
}

/// Adds the name, if it is that of an entry.
fn add_entry<A: Allocator + Copy>(
    names: &mut Vec<String<A>, A>,
    name: &[u8],
    left_out: &mut u64,
) -> Result<(), AllocError>
    ensures ok { OnOk result (AddsNames (filter is_entry (name.now ∷ []))
        (map string_bytes names.old.items) (map string_bytes names.new.items)
        left_out.old left_out.new) }
    ensures counted { left_out.old ≤ left_out.new }
{
    if is_entry(name) {
        add_name(names, name, left_out)?;
    }
    Ok(())
}

/// Whether it is an entry's name: neither that of the folder itself nor that of the one above, and not empty.
fn is_entry(name: &[u8]) -> bool
    ensures { result ≡ is_entry name.now }
{
    !matches!(name, b"" | b"." | b"..")
}

/// Adds the name, or counts it, if it is no text.
fn add_name<A: Allocator + Copy>(
    names: &mut Vec<String<A>, A>,
    name: &[u8],
    left_out: &mut u64,
) -> Result<(), AllocError>
    ensures ok { OnOk result (AddsNames (name.now ∷ []) (map string_bytes names.old.items)
        (map string_bytes names.new.items) left_out.old left_out.new) }
    ensures left_out { (IsUtf8 name.now → ⊥) → IsOk result
        × (left_out.new ≡ min (left_out.old + 1) (2 ^ 64 - 1)) }
    ensures named { IsUtf8 name.now → left_out.new ≡ left_out.old }
    ensures counted { left_out.old ≤ left_out.new }
{
    match std::str::from_utf8(name) {
        Ok(name) => names.push(String::from_str(*names.allocator(), name)?)?,
        Err(_) => *left_out = left_out.saturating_add(1),
    }
    Ok(())
}
