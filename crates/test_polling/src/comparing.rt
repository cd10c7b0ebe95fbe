//! What changed between two listings.
use crate::build::check_text;
use crate::trees::{listing, text_of};
use poll_listing::{Listing, compare};
use std::process::Abort;

/// An old listing, a new one, and the events between them.
const COMPARISONS: [&str; 8] = [
    "/ folder | / folder | ",
    "/ folder, /d folder, /d/x file 3 | / folder, /d file 1 | Remove(Folder) /d, Create(File) /d",
    "/ folder, /f file 3 | / folder, /f file 4 | Modify(Data(Any)) /f",
    "/ folder, /f file 3 | / folder, /f file 3 | ",
    "/ folder, /d folder | / folder, /d folder, /d/f file 2 | Create(File) /d/f",
    "/ folder, /d folder, /d/f file 2 | / folder, /d file 5 | Remove(Folder) /d, Create(File) /d",
    "/ folder, /d folder, /d/e folder, /d/e/f file 1 | / folder | Remove(Folder) /d",
    "/ folder, /a file 1, /b other | / folder, /a file 2, /b folder, /b/c other | Remove(Other) /b, Create(Folder) /b, Create(Other) /b/c, Modify(Data(Any)) /a",
];

#[test]
fn listings_are_compared(rt: HostRuntime) {
    for comparison in COMPARISONS {
        check_line(&rt, comparison);
    }
}

fn check_line(rt: &(impl Abort + AllocGlobal), comparison: &str) {
    let (old, others) = comparison.split_once(" | ").expect(rt, comparison);
    let (new, events) = others.split_once(" | ").expect(rt, comparison);
    check_comparison(rt, old, new, events);
}

fn check_comparison(rt: &(impl Abort + AllocGlobal), old: &str, new: &str, wanted: &str) {
    let before = listing(rt, rt.alloc(), old);
    let after = copy_of(rt, new);
    let events = compare(rt.alloc(), &before, &after).expect(rt, "memory");
    check_text(rt, text_of(rt, events.as_slice()).as_str(), wanted, new);
}

/// A copy of the listing of a text.
fn copy_of(rt: &(impl Abort + AllocGlobal), text: &str) -> Listing {
    listing(rt, rt.alloc(), text)
        .try_clone(rt.alloc())
        .expect(rt, "memory")
}
