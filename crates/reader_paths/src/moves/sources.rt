//! What a batch tells of its paths.
ghost use Rattle.std.specs.Prelude.{◌≡◌, IfOk, IfErr, OnOk};
ghost use Rattle.notify_paths.specs.Errors.{out_of_memory};
ghost use Rattle.debounce_model.specs.Play.{events_of};
ghost use Rattle.reader_paths.specs.Moves.{AreSourcesOf};
ghost use Rattle.reader_paths.specs.Moves.Told.{AddsSource};

use crate::moves::Moves;
use notify_paths::{Error, PathBuf};
use notify_types::DebouncedEvent;
use std::alloc::{AllocError, Allocator};
use std::collections::BTreeMap;

impl<A: Allocator + Copy> Moves<A> {
    /// Returns the [source](Moves::source_of) of each path that an event of the batch has one for, of
    /// the last such event, if there are several. Whoever renames a folder as a whole takes away again
    /// what lies at or below its new path and isn't among these.
    pub fn sources(
        &self,
        batch: &[DebouncedEvent<A>],
    ) -> Result<BTreeMap<PathBuf<A>, PathBuf<A>, A>, Error<A>>
        ensures ok { IfOk result (λ sources.
            AreSourcesOf self.now (events_of batch.now) sources.entries) }
        ensures err { IfErr result (λ e. e ≡ out_of_memory) }
    {
        self.find_sources(batch)
            .map_err(|_| Error::out_of_memory(self.alloc))
    }

    fn find_sources(
        &self,
        batch: &[DebouncedEvent<A>],
    ) -> Result<BTreeMap<PathBuf<A>, PathBuf<A>, A>, AllocError>
        ensures { IfOk result (λ sources.
            AreSourcesOf self.now (events_of batch.now) sources.entries) }
    {
        let mut sources = BTreeMap::new(self.alloc);
        for event in batch {
            self.add_source(&mut sources, event)?;
        }
        Ok(sources)
    }

    /// Puts in the event's source, if it has one.
    fn add_source(
        &self,
        sources: &mut BTreeMap<PathBuf<A>, PathBuf<A>, A>,
        event: &DebouncedEvent<A>,
    ) -> Result<(), AllocError>
        ensures { OnOk result
            (AddsSource self.now event.now.event sources.old.entries sources.new.entries) }
    {
        let (Some(source), Some(path)) = (self.find_source(event)?, event.first_path()) else {
            return Ok(());
        };
        sources.insert(path.clone()?, source)?;
        Ok(())
    }
}
