//! The steps of a desk's core. If a journal is kept, each has an entry there; room for it, and copies, are asked for
//! before the step, so that nothing has changed if there is no memory for them.
ghost use Rattle.std.specs.Prelude.{◌≡◌, ◌≢◌, ◌-◌, ◌^◌, ◌||◌, IfOk, IfErr, OnOk, is_some, not, true};
ghost use Rattle.debounce_model.specs.Command.{EventCommand, ErrorCommand, RootCommand, UnrootCommand, ErrorsCommand, TickCommand, TakenReply, NotedReply, RootedReply, UnrootedReply, ErrorsReply, BatchReply};
ghost use Rattle.debounce_model.specs.Memory.{takes_no_memory};
ghost use Rattle.debounce_model.specs.State.{with_error, with_state, without_errors};
ghost use Rattle.debounce_model.specs.Step.{IsTaken, IsRooted, IsUnrooted};
ghost use Rattle.debounce_model.specs.Tick.{IsBatch, IsOnlyBatch, after_tick};
ghost use Rattle.debounce_c.specs.Numbered.Numbers.{said_numbers};
ghost use Rattle.debounce_c.specs.Desk.{stepped};
ghost use Rattle.debounce_c.specs.Desk.Faults.{errors_need, tick_needs};
ghost use Rattle.debounce_c.specs.declared.desk.fault.Fault.TheVariants.{NoMemory};

use crate::desk::Desk;
use crate::desk::fault::Fault;
use crate::desk::written::{draft, draft_errors, reserve, write};
use debounce_model::{Command, Reply};
use notify_paths::{Error, PathBuf};
use notify_types::{DebouncedEvent, Event, Moment, RecursiveMode};
use std::alloc::Global;

impl Desk {
    /// Takes an event.
    pub fn take(&mut self, event: Event, now: Moment, exists: bool) -> Result<(), Fault>
        requires { self.old.core.state.taken ≢ 2 ^ 64 - 1 }
        ensures ok { OnOk result
            (IsTaken said_numbers self.old.core event now exists self.new.core) }
        ensures rest { OnOk result (self.new ≡ stepped self.old self.new.core
            (EventCommand event now exists) (TakenReply self.new.core.answer)) }
        ensures err { IfErr result (λ f. (f ≡ NoMemory) × ((is_some self.old.journal
            || not (takes_no_memory true self.old.core.state event exists)) ≡ true)) }
        ensures unchanged { IfErr result (λ f. self.new ≡ self.old) }
    {
        let Desk { core, journal, .. } = self;
        let Some(journal) = journal else {
            return match core.add_event(event, now, exists) {
                Ok(()) => Ok(()),
                Err(_) => Err(Fault::NoMemory),
            };
        };
        let Ok(copy) = draft(journal, &event) else {
            return Err(Fault::NoMemory);
        };
        let Ok(()) = core.add_event(event, now, exists) else {
            return Err(Fault::NoMemory);
        };
        let reply = Reply::Taken(core.answer());
        write(journal, Command::Event(copy, now, exists), reply);
        Ok(())
    }

    /// Keeps an error.
    pub fn note(&mut self, error: Error) -> Result<(), Fault>
        ensures ok { OnOk result (self.new ≡ stepped self.old
            (with_state self.old.core (with_error self.old.core.state error))
            (ErrorCommand error) NotedReply) }
        ensures err { IfErr result (λ f. (f ≡ NoMemory) × (self.new ≡ self.old)) }
    {
        let Desk { core, journal, .. } = self;
        let Some(journal) = journal else {
            return match core.add_error(error) {
                Ok(()) => Ok(()),
                Err(_) => Err(Fault::NoMemory),
            };
        };
        let Ok(copy) = draft(journal, &error) else {
            return Err(Fault::NoMemory);
        };
        let Ok(()) = core.add_error(error) else {
            return Err(Fault::NoMemory);
        };
        write(journal, Command::Error(copy), Reply::Noted);
        Ok(())
    }

    /// Watches a path.
    pub fn watch(&mut self, path: &PathBuf, mode: RecursiveMode) -> Result<(), Fault>
        ensures ok { OnOk result
            (IsRooted said_numbers self.old.core path.now mode self.new.core) }
        ensures rest { OnOk result (self.new
            ≡ stepped self.old self.new.core (RootCommand path.now mode) RootedReply) }
        ensures err { IfErr result (λ f. (f ≡ NoMemory) × (self.new ≡ self.old)) }
    {
        let Desk { core, journal, .. } = self;
        let Some(journal) = journal else {
            return match core.add_root(path, mode) {
                Ok(()) => Ok(()),
                Err(_) => Err(Fault::NoMemory),
            };
        };
        let Ok(copy) = draft(journal, path) else {
            return Err(Fault::NoMemory);
        };
        let Ok(()) = core.add_root(path, mode) else {
            return Err(Fault::NoMemory);
        };
        write(journal, Command::Root(copy, mode), Reply::Rooted);
        Ok(())
    }

    /// Watches a path no longer.
    pub fn unwatch(&mut self, path: &PathBuf) -> Result<(), Fault>
        ensures ok { OnOk result (IsUnrooted said_numbers self.old.core path.now self.new.core) }
        ensures rest { OnOk result (self.new
            ≡ stepped self.old self.new.core (UnrootCommand path.now) UnrootedReply) }
        ensures err { IfErr result (λ f. (f ≡ NoMemory) × (self.new ≡ self.old)) }
    {
        let Desk { core, journal, .. } = self;
        let Some(journal) = journal else {
            return match core.remove_root(path) {
                Ok(()) => Ok(()),
                Err(_) => Err(Fault::NoMemory),
            };
        };
        let Ok(copy) = draft(journal, path) else {
            return Err(Fault::NoMemory);
        };
        let Ok(()) = core.remove_root(path) else {
            return Err(Fault::NoMemory);
        };
        write(journal, Command::Unroot(copy), Reply::Unrooted);
        Ok(())
    }

    /// Emits what is expired. The entry's batch is a copy, which is asked for before the tick.
    pub(crate) fn emit(&mut self, now: Moment) -> Result<Vec<DebouncedEvent>, Fault>
        ensures batch { IfOk result (λ batch. IsBatch self.old.core.state now batch.items) }
        ensures only { IfOk result (λ batch. IsOnlyBatch self.old.core.state now batch.items) }
        ensures ok { IfOk result (λ batch. self.new ≡ stepped self.old
            (after_tick self.old.core now batch.items)
            (TickCommand now) (BatchReply batch.items)) }
        ensures err { IfErr result (λ f. (f ≡ NoMemory)
            × ((tick_needs now self.old ≡ true) × (self.new ≡ self.old))) }
    {
        let Desk { core, journal, .. } = self;
        let Some(journal) = journal else {
            let Ok(batch) = core.debounced_events(now) else {
                return Err(Fault::NoMemory);
            };
            return Ok(batch);
        };
        let Ok(()) = reserve(journal) else {
            return Err(Fault::NoMemory);
        };
        let Ok(copy) = core.batch_at(now) else {
            return Err(Fault::NoMemory);
        };
        let Ok(batch) = core.debounced_events(now) else {
            return Err(Fault::NoMemory);
        };
        write(journal, Command::Tick(now), Reply::Batch(copy));
        Ok(batch)
    }

    /// Hands out the errors that were kept.
    pub(crate) fn hand_out(&mut self, alloc: Global) -> Result<Vec<Error>, Fault>
        ensures ok { IfOk result (λ errors. (errors.items ≡ self.old.core.state.errors)
            × (self.new ≡ stepped self.old
            (with_state self.old.core (without_errors self.old.core.state))
            ErrorsCommand (ErrorsReply errors.items))) }
        ensures err { IfErr result (λ f. (f ≡ NoMemory)
            × ((errors_need self.old ≡ true) × (self.new ≡ self.old))) }
    {
        let Desk { core, journal, .. } = self;
        let Some(journal) = journal else {
            return Ok(core.errors());
        };
        let Ok(copies) = draft_errors(alloc, journal, core.pending_errors()) else {
            return Err(Fault::NoMemory);
        };
        let errors = core.errors();
        write(journal, Command::Errors, Reply::Errors(copies));
        Ok(errors)
    }
}
