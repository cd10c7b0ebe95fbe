//! What a journal writes down: room and copies are asked for before a step, and its entry is written after it.
ghost use Rattle.std.specs.Prelude.{◌≡◌, ◌+◌, ◌≤◌, ◌++◌, ◌∷◌, [], IfOk, IfErr, OnOk, vec_len, vec_capacity};
ghost use Rattle.debounce_book.specs.Book.{entry_of};
ghost use Rattle.debounce_model.specs.CommandView.{command_value, reply_value};
ghost use Rattle.debounce_c.specs.declared.desk.fault.Fault.TheVariants.{NoMemory};

use crate::desk::fault::Fault;
use debounce_book::Entry;
use debounce_model::{Command, Reply};
use notify_paths::Error;
use std::alloc::Global;

/// Room for one more entry.
pub(crate) fn reserve(journal: &mut Vec<Entry>) -> Result<(), Fault>
    ensures room { OnOk result (vec_len journal.new + 1 ≤ vec_capacity journal.new) }
    ensures same { journal.new.items ≡ journal.old.items }
    ensures err { IfErr result (λ f. f ≡ NoMemory) }
{
    match journal.reserve(1) {
        Ok(()) => Ok(()),
        Err(_) => Err(Fault::NoMemory),
    }
}

/// Room for one more entry, and a copy of what its command names.
pub(crate) fn draft<T: Clone>(journal: &mut Vec<Entry>, named: &T) -> Result<T, Fault>
    ensures ok { IfOk result (λ copy. T.is_clone named.now copy) }
    ensures room { OnOk result (vec_len journal.new + 1 ≤ vec_capacity journal.new) }
    ensures same { journal.new.items ≡ journal.old.items }
    ensures err { IfErr result (λ f. f ≡ NoMemory) }
{
    reserve(journal)?;
    named.clone().map_err(|_| Fault::NoMemory)
}

/// Room for one more entry, and copies of these errors.
pub(crate) fn draft_errors(
    alloc: Global,
    journal: &mut Vec<Entry>,
    errors: &[Error],
) -> Result<Vec<Error>, Fault>
    ensures ok { IfOk result (λ copies. copies.items ≡ errors.now) }
    ensures room { OnOk result (vec_len journal.new + 1 ≤ vec_capacity journal.new) }
    ensures same { journal.new.items ≡ journal.old.items }
    ensures err { IfErr result (λ f. f ≡ NoMemory) }
{
    reserve(journal)?;
    errors.to_vec(alloc).map_err(|_| Fault::NoMemory)
}

/// Writes the entry of a command that had this reply into the journal, in which there is room.
pub(crate) fn write(journal: &mut Vec<Entry>, command: Command, reply: Reply)
    requires { vec_len journal.old + 1 ≤ vec_capacity journal.old }
    ensures { journal.new.items ≡ journal.old.items
        ++ entry_of 0 (command_value command) (reply_value reply) ∷ [] }
{
    journal.push_reserved(Entry {
        from: 0,
        command,
        reply,
    });
}
