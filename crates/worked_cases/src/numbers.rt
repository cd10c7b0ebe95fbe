//! A scan for the cache of file numbers.
ghost use Rattle.notify_debouncer_full.specs.Scans.{some_scans};

use notify_debouncer_full::{Error, FileId, FileIdCache, FileIdMap, PathBuf, Scan};
use std::alloc::AllocError;
use test_fakes::allocator::RefusingHeap;

type Found<A> = Vec<(PathBuf<A>, FileId), A>;

/// What a scan finds in each path. They are five, so that a map which is filled by scans has room for some
/// of the next one's, and grows for the others.
const NAMES: [&str; 5] = [
    "numbered1",
    "numbered2",
    "numbered3",
    "numbered4",
    "numbered5",
];

/// A scan that finds the same entries in each path, with other numbers each time.
#[derive(Drop)]
pub struct Numbers<A: RefusingHeap> {
    heap: A,
    /// How many scans there were: the device of what this one finds.
    scans: u64,
    found: Found<A>,
}

/// The entries in the path, each with its number on this device. It is empty if there is no memory for
/// them.
fn found_in<A: RefusingHeap>(heap: A, device: u64, path: &PathBuf<A>) -> Option<Found<A>> {
    let mut found = Vec::new(heap);
    for name in NAMES {
        let number = found.len() as u128;
        if let Some(entry) = path.child(name).ok()? {
            found.push((entry, FileId { device, number })).ok()?;
        }
    }
    Some(found)
}

impl<A: RefusingHeap> Numbers<A> {
    pub fn new(heap: A) -> Numbers<A> {
        Numbers {
            heap,
            scans: 0,
            found: Vec::new(heap),
        }
    }
}

impl<A: RefusingHeap> Scan<A> for Numbers<A> {
    ghost rules = { some_scans (λ s. s.found.items) };

    fn scan(&mut self, path: &PathBuf<A>, _recursive: bool) -> Result<(), Error<A>> {
        self.scans = self.scans.saturating_add(1);
        match found_in(self.heap, self.scans, path) {
            Some(found) => {
                self.found = found;
                Ok(())
            }
            None => Err(Error::out_of_memory(self.heap)),
        }
    }

    fn found(&self) -> &[(PathBuf<A>, FileId)] {
        self.found.as_slice()
    }
}

/// The number that a map holds for each entry that a scan finds in the path.
pub fn numbers_in<A: RefusingHeap>(
    heap: A,
    map: &FileIdMap<Numbers<A>, A>,
    path: &PathBuf<A>,
) -> Result<Vec<Option<FileId>, A>, AllocError> {
    let mut numbers = Vec::new(heap);
    for name in NAMES {
        if let Some(entry) = path.child(name)? {
            numbers.push(map.cached_file_id(&entry))?;
        }
    }
    Ok(numbers)
}
