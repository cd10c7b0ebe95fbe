//! The replay of a journal by one thread.
ghost use Rattle.std.specs.Prelude.{◌≡◌, IfErr};

use debounce_book::Entry;
use debounce_cache::NoCache;
use debounce_core::DebounceDataInner;
use debounce_model::Reply;
use mirror_run::Fault;
use notify_paths::ErrorKind;
use notify_types::Moment;
use std::alloc::Allocator;

/// Whether the journal's commands, carried out in its order, have the replies that stand in it.
pub(crate) fn is_same<A: Allocator + Copy>(
    alloc: A,
    timeout: Moment,
    journal: Vec<Entry<A>, A>,
) -> Result<bool, Fault>
    ensures { IfErr result (λ fault. fault ≡ Fault.Memory) }
{
    let mut core = DebounceDataInner::new(alloc, NoCache::new(), timeout);
    for entry in journal {
        if !is_same_reply(&mut core, entry)? {
            return Ok(false);
        }
    }
    Ok(true)
}

/// Whether the entry's command has the entry's reply now.
fn is_same_reply<A: Allocator + Copy>(
    core: &mut DebounceDataInner<NoCache, A>,
    entry: Entry<A>,
) -> Result<bool, Fault>
    ensures { IfErr result (λ fault. fault ≡ Fault.Memory) }
{
    let Entry { command, reply, .. } = entry;
    let again = core.step(command);
    if let Reply::Refused(error) = &again {
        if error.kind == ErrorKind::Memory {
            return Err(Fault::Memory);
        }
    }
    Ok(again == reply)
}
