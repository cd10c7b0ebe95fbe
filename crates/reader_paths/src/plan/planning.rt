//! The actions that a batch of events asks for.
ghost use Rattle.std.specs.Prelude.{◌≡◌, ◌++◌, IfOk, OnOk};
ghost use Rattle.std.specs.Map.{keys_of};
ghost use Rattle.std.specs.Option.{option_copied};
ghost use Rattle.debounce_model.specs.Play.{events_of};
ghost use Rattle.reader_paths.specs.Plan.{KeepsOthers, ActsAsPlayed, LeavesWhatStands, copies, copy_if, gone_first, look_at, planned, removals, removals_first, stands};

use crate::plan::action::{Action, Standing};
use crate::plan::wanting::wanted;
use notify_paths::PathBuf;
use notify_types::DebouncedEvent;
use std::alloc::{AllocError, Allocator};
use std::collections::BTreeMap;

/// Returns the actions after which a copy has, at each path that an event names first, what stands
/// there, if the batch wants the path ([`wanted`]): first the removals, in the events' order, and then the
/// copies, in the order of their paths. What an event says was removed goes, and isn't copied, also if
/// something stands there again: that is reported as created by the next look, and if it goes before
/// that, nobody would say so.
pub fn plan<A: Allocator + Copy>(
    alloc: A,
    standing: &BTreeMap<PathBuf<A>, Standing, A>,
    batch: &[DebouncedEvent<A>],
) -> Result<Vec<Action<A>, A>, AllocError>
    ensures plan { IfOk result (λ actions. actions.items
        ≡ planned (look_at standing.now.entries) (events_of batch.now)) }
    // A closed copy has what a reader has who plays the batch, if what stands agrees with it.
    ensures played { IfOk result (λ actions.
        ActsAsPlayed (look_at standing.now.entries) (events_of batch.now) actions.items) }
    ensures here { IfOk result (λ actions.
        LeavesWhatStands (look_at standing.now.entries) (events_of batch.now) actions.items) }
    ensures others { IfOk result (λ actions. KeepsOthers (events_of batch.now) actions.items) }
{
    let mut actions = Vec::new(alloc);
    push_removals(&mut actions, standing, batch)?;
    let paths = wanted(alloc, batch)?;
    push_copies(&mut actions, standing, &paths)?;
    Ok(actions)
}

/// Returns the path that the event takes away, if it does: its first path, if it is a removal, or if
/// nothing stands there. What lies below that path goes with it.
pub fn gone_at<'a, V, A: Allocator>(
    standing: &BTreeMap<PathBuf<A>, V, A>,
    event: &'a DebouncedEvent<A>,
) -> Option<&'a PathBuf<A>>
    ensures { option_copied result ≡ gone_first (stands (look_at standing.now.entries))
        event.now.event.kind event.now.event.paths }
{
    let path = event.first_path()?;
    if event.kind().is_removal() || !standing.contains_key(path) {
        Some(path)
    } else {
        None
    }
}

/// Adds the removals that the events ask for.
fn push_removals<A: Allocator + Copy>(
    actions: &mut Vec<Action<A>, A>,
    standing: &BTreeMap<PathBuf<A>, Standing, A>,
    batch: &[DebouncedEvent<A>],
) -> Result<(), AllocError>
    ensures { OnOk result (actions.new.items ≡ actions.old.items
        ++ removals (look_at standing.now.entries) (events_of batch.now)) }
{
    for event in batch {
        push_removal(actions, standing, event)?;
    }
    Ok(())
}

/// Adds the copies of what stands at these paths.
fn push_copies<A: Allocator + Copy>(
    actions: &mut Vec<Action<A>, A>,
    standing: &BTreeMap<PathBuf<A>, Standing, A>,
    paths: &BTreeMap<PathBuf<A>, (), A>,
) -> Result<(), AllocError>
    ensures { OnOk result (actions.new.items ≡ actions.old.items
        ++ copies (look_at standing.now.entries) (keys_of paths.now.entries)) }
{
    for path in paths.keys() {
        push_copy(actions, standing, path)?;
    }
    Ok(())
}

/// Adds the removal that the event asks for, if it does.
fn push_removal<A: Allocator + Copy>(
    actions: &mut Vec<Action<A>, A>,
    standing: &BTreeMap<PathBuf<A>, Standing, A>,
    event: &DebouncedEvent<A>,
) -> Result<(), AllocError>
    ensures { OnOk result (actions.new.items ≡ actions.old.items
        ++ removals_first (look_at standing.now.entries) event.now.event.kind
        event.now.event.paths) }
{
    if let Some(path) = gone_at(standing, event) {
        actions.push(Action {
            path: path.clone()?,
            wanted: None,
        })?;
    }
    Ok(())
}

/// Adds the copy of what stands at the path, if something does.
fn push_copy<A: Allocator + Copy>(
    actions: &mut Vec<Action<A>, A>,
    standing: &BTreeMap<PathBuf<A>, Standing, A>,
    path: &PathBuf<A>,
) -> Result<(), AllocError>
    ensures { OnOk result (actions.new.items ≡ actions.old.items
        ++ copy_if (look_at standing.now.entries path.now) path.now) }
{
    let wanted = standing.get(path).copied();
    if wanted.is_some() {
        actions.push(Action {
            path: path.clone()?,
            wanted,
        })?;
    }
    Ok(())
}
