//! Entries of a journal.
ghost use Rattle.std.specs.Prelude.{◌≡◌, ◌↔◌, IfOk, IfErr, IsTrue};
ghost use Rattle.std.specs.Cmp.{partial_equiv_from_equiv};
ghost use Rattle.notify_paths.specs.Errors.{out_of_memory};
ghost use Rattle.debounce_book.specs.EntryEquality.{entry_eq};
ghost use Rattle.debounce_book.specs.EntryEqualityLaws.{entry_eq_equiv};

use debounce_model::{Command, Reply};
use notify_paths::Error;
use std::alloc::{AllocError, Allocator, Global};
use std::marker::Model;

/// A command that was accepted, with its reply.
#[derive(Debug, Drop)]
pub struct Entry<A: Allocator = Global> {
    /// The number of the script that the command came from: 0 outside `run_threads`.
    pub from: usize,
    pub command: Command<A>,
    pub reply: Reply<A>,
}

impl<A: Allocator> Model for Entry<A> {
    ghost use Rattle.debounce_model.specs.CommandView.{command_value, reply_value};
    ghost use Rattle.debounce_book.specs.Journal.{EntryValue};

    ghost Value = { EntryValue };

    ghost view = { λ a. record {
      from = a.from;
      command = command_value a.command;
      reply = reply_value a.reply;
    } };
}

impl<A: Allocator + Copy> Entry<A> {
    /// Returns an equal entry.
    pub fn try_clone(&self, alloc: A) -> Result<Entry<A>, Error<A>>
        ensures ok { IfOk result (λ entry. entry ≡ self.now) }
        ensures err { IfErr result (λ e. e ≡ out_of_memory) }
    {
        self.clone().map_err(|_| Error::out_of_memory(alloc))
    }
}

impl<A: Allocator + Copy> Clone for Entry<A> {
    ghost is_clone = { λ entry copy. copy ≡ entry };

    fn clone(&self) -> Result<Entry<A>, AllocError> {
        Ok(Entry {
            from: self.from,
            command: self.command.clone()?,
            reply: self.reply.clone()?,
        })
    }
}

impl<A: Allocator> PartialEq for Entry<A> {
    ghost eq = { entry_eq };

    ghost laws = { partial_equiv_from_equiv entry_eq_equiv };

    fn eq(&self, other: &Entry<A>) -> bool
        ensures value { result ≡ entry_eq self.now other.now }
        ensures same { IsTrue result ↔ (self.now ≡ other.now) }
    {
        self.from == other.from && self.command == other.command && self.reply == other.reply
    }
}

impl<A: Allocator> Eq for Entry<A> {
    ghost laws = { entry_eq_equiv };
}
