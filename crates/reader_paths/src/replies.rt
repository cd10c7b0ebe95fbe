//! What a run's replies make of a set of paths.
ghost use Rattle.std.specs.Prelude.{◌≡◌, OnOk, IfErr};
ghost use Rattle.notify_paths.specs.Errors.{out_of_memory};
ghost use Rattle.debounce_model.specs.CommandView.{command_value, reply_value, command_values, reply_values};
ghost use Rattle.debounce_model.specs.Play.{play, raw_paths, events_of};
ghost use Rattle.reader_paths.specs.Played.{emitted_by, reader_paths, accepted_by};

use crate::path_set::PathSet;
use debounce_model::{Command, Reply};
use notify_paths::Error;
use std::alloc::Allocator;

impl<A: Allocator + Copy> PathSet<A> {
    /// Plays the batches among the replies. If an allocation fails, some of them may be played.
    pub fn play_batches(&mut self, replies: &[Reply<A>]) -> Result<(), Error<A>>
        ensures ok { OnOk result (self.new ≡ reader_paths self.old (reply_values replies.now)) }
        ensures err { IfErr result (λ e. e ≡ out_of_memory) }
    {
        for reply in replies {
            self.play_batch(reply)?;
        }
        Ok(())
    }

    fn play_batch(&mut self, reply: &Reply<A>) -> Result<(), Error<A>>
        ensures ok { OnOk result (self.new
            ≡ play self.old (events_of (emitted_by (reply_value reply.now)))) }
        ensures err { IfErr result (λ e. e ≡ out_of_memory) }
    {
        match reply {
            Reply::Batch(batch) => self.play_in_place(batch.as_slice()),
            _ => Ok(()),
        }
    }

    /// Plays the accepted events, as they came. If an allocation fails, some of them may be played.
    pub fn play_accepted(
        &mut self,
        commands: &[Command<A>],
        replies: &[Reply<A>],
    ) -> Result<(), Error<A>>
        ensures ok { OnOk result (self.new
            ≡ raw_paths self.old (command_values commands.now) (reply_values replies.now)) }
        ensures err { IfErr result (λ e. e ≡ out_of_memory) }
    {
        for (command, reply) in commands.iter().zip(replies) {
            self.play_taken(command, reply)?;
        }
        Ok(())
    }

    fn play_taken(&mut self, command: &Command<A>, reply: &Reply<A>) -> Result<(), Error<A>>
        ensures ok { OnOk result (self.new
            ≡ play self.old (accepted_by (command_value command.now) (reply_value reply.now))) }
        ensures err { IfErr result (λ e. e ≡ out_of_memory) }
    {
        match (command, reply) {
            (Command::Event(event, _, _), Reply::Taken(_)) => self.play_event(event),
            _ => Ok(()),
        }
    }
}
