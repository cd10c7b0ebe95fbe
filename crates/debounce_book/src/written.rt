//! What a journal writes of a command: copies are made before anything has changed, those of a batch by the
//! core, and the entry is written after the core's call.
ghost use Rattle.std.specs.Prelude.{◌≡◌, ◌+◌, ◌≤◌, ◌++◌, ◌∷◌, [], IfOk, IfErr, OnOk, vec_len, vec_capacity};
ghost use Rattle.notify_paths.specs.Errors.{out_of_memory};
ghost use Rattle.debounce_model.specs.CommandView.{command_value, reply_value};
ghost use Rattle.debounce_book.specs.Book.{entry_of};

use crate::entry::Entry;
use debounce_core::DebounceDataInner;
use debounce_model::{Command, Reply};
use notify_paths::Error;
use std::alloc::Allocator;

/// Room for one more entry.
pub(crate) fn reserve<A: Allocator + Copy>(
    alloc: A,
    journal: &mut Vec<Entry<A>, A>,
) -> Result<(), Error<A>>
    ensures room { OnOk result (vec_len journal.new + 1 ≤ vec_capacity journal.new) }
    ensures same { journal.new.items ≡ journal.old.items }
    ensures err { IfErr result (λ e. e ≡ out_of_memory) }
{
    journal.reserve(1).map_err(|_| Error::out_of_memory(alloc))
}

/// Room for one more entry, and a copy of what its command names.
pub(crate) fn draft<T: Clone, A: Allocator + Copy>(
    alloc: A,
    journal: &mut Vec<Entry<A>, A>,
    named: &T,
) -> Result<T, Error<A>>
    ensures ok { IfOk result (λ copy. T.is_clone named.now copy) }
    ensures room { OnOk result (vec_len journal.new + 1 ≤ vec_capacity journal.new) }
    ensures same { journal.new.items ≡ journal.old.items }
    ensures err { IfErr result (λ e. e ≡ out_of_memory) }
{
    reserve(alloc, journal)?;
    named.clone().map_err(|_| Error::out_of_memory(alloc))
}

/// Room for one more entry, and copies of the errors that are kept.
pub(crate) fn draft_errors<C, A: Allocator + Copy>(
    alloc: A,
    core: &DebounceDataInner<C, A>,
    journal: &mut Vec<Entry<A>, A>,
) -> Result<Vec<Error<A>, A>, Error<A>>
    ensures ok { IfOk result (λ errors. errors.items ≡ core.now.state.errors) }
    ensures room { OnOk result (vec_len journal.new + 1 ≤ vec_capacity journal.new) }
    ensures same { journal.new.items ≡ journal.old.items }
    ensures err { IfErr result (λ e. e ≡ out_of_memory) }
{
    reserve(alloc, journal)?;
    core.pending_errors()
        .to_vec(alloc)
        .map_err(|_| Error::out_of_memory(alloc))
}

/// Writes the entry of a command that had this reply into the journal, in which there is room.
pub(crate) fn write<A: Allocator>(
    journal: &mut Vec<Entry<A>, A>,
    from: usize,
    command: Command<A>,
    reply: Reply<A>,
)
    requires { vec_len journal.old + 1 ≤ vec_capacity journal.old }
    ensures { journal.new.items ≡ journal.old.items
        ++ entry_of from (command_value command) (reply_value reply) ∷ [] }
{
    journal.push_reserved(Entry {
        from,
        command,
        reply,
    });
}
