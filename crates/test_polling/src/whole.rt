//! A reader over the whole chain: folders whose tree a type tells, the thread of a watcher that polls, a debouncer with
//! its own, its reports.
ghost use Rattle.std.specs.Prelude.{◌≡◌, IfErr, IfOk};
ghost use Rattle.notify_paths.specs.Errors.{out_of_memory};
ghost use Rattle.test_polling.specs.Garden.{garden, tree_of};

use crate::build::path;
use notify_debouncer_full::{DebouncerRuntime, EntryKind, Error, Listing, PathBuf, RecursiveMode};
use reader_laws::callers::{ReadWhole, read_tree};
use std::alloc::Global;
use std::process::Abort;
use std::time::Duration;
use test_fakes::folders::{FixedTree, TreeFolders};

/// A garden with a rose in a bed.
#[derive(Drop)]
struct Garden;

impl FixedTree<Global> for Garden {
    ghost tree = { tree_of garden };

    fn folders(alloc: Global) -> Result<TreeFolders<Global>, Error<Global>> {
        let Some(tree) = Listing::from_entries(alloc, entries(alloc)?)? else {
            return Err(Error::out_of_memory(alloc));
        };
        TreeFolders::new(alloc, tree).ok_or_else(|| Error::out_of_memory(alloc))
    }
}

/// What stands in it.
fn entries(alloc: Global) -> Result<Vec<(PathBuf, EntryKind, u64)>, Error>
    ensures ok { IfOk result (λ entries. entries.items ≡ garden) }
    ensures err { IfErr result (λ e. e ≡ out_of_memory) }
{
    let garden = PathBuf::parse(alloc, "garden")?;
    let bed = PathBuf::parse(alloc, "garden/bed")?;
    let rose = PathBuf::parse(alloc, "garden/bed/rose")?;
    let entries = vec![in alloc;
        (garden, EntryKind::Folder, 0),
        (bed, EntryKind::Folder, 0),
        (rose, EntryKind::File, 3),
    ];
    entries.map_err(|_| Error::out_of_memory(alloc))
}

/// Checks that a reader who watches the bed has the bed and its rose, and the garden above it.
fn read_garden<R: DebouncerRuntime + Abort + AllocGlobal>(rt: R) {
    let timeout = Duration::from_millis(20);
    let patience = Duration::from_secs(10);
    let bed = path(&rt, rt.alloc(), "garden/bed");
    let read = read_tree::<Garden, R, Global>(
        rt,
        rt.alloc(),
        timeout,
        &bed,
        RecursiveMode::Recursive,
        patience,
    );
    let ReadWhole {
        paths,
        found,
        missed,
        unsent,
    } = read.expect(&rt, "memory and threads");
    assert_eq!(rt; (found.went_well, missed, unsent), (true, 0, 0));
    drop(found);
    let paths = paths.to_list().expect(&rt, "memory");
    match paths.as_slice() {
        [garden, bed, rose] => {
            assert_eq!(rt; garden.as_str(), "garden");
            assert_eq!(rt; bed.as_str(), "garden/bed");
            assert_eq!(rt; rose.as_str(), "garden/bed/rose");
        }
        _ => panic!(rt; "{} paths", paths.len()),
    }
}

#[test]
fn a_reader_has_what_the_tree_shows(rt: HostRuntime) {
    read_garden(rt);
}
