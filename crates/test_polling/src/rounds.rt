//! Listings one after the other, a debouncer that is given what changed, and a reader of its batches.
use crate::build::{check_numbers, check_text, path};
use crate::cache::add_batch;
use crate::trees::{Notes, listing, tree};
use notify_debouncer_full::{
    Command, DebounceDataInner, Event, Listing, NoCache, PathBuf, Polled, RecursiveMode, Reply,
};
use poll_listing::compare;
use reader_laws::callers::Follower;
use reader_paths::PathSet;
use std::process::Abort;
use test_fakes::folders::ClosedFolders;

/// Checks that these are the paths of the listing, which stand in their order in its text.
fn check_paths(rt: &impl Abort, paths: &[PathBuf], text: &str) {
    let mut rest = paths;
    for entry in text.split(", ") {
        let (place, _) = entry.split_once(' ').expect(rt, entry);
        match rest {
            [path, more @ ..] if path.as_str() == place => rest = more,
            _ => panic!(rt; "{place} of {text}"),
        }
    }
    check_numbers(rt, &[rest.len() as u64], &[0], text);
}

/// Five listings, one after the other, and when each is seen.
const LISTINGS: &str = "0 / folder, /d folder
40 / folder, /d folder, /d/e folder, /d/e/g file 1, /d/f file 2
80 / folder, /d file 5
120 / folder, /d folder, /d/f file 2, /e other
160 / folder, /d folder, /d/f file 3";

/// The file still waits when its folder becomes a file, and is dropped.
const REPLACED: &str = "0 / folder, /d folder
40 / folder, /d folder, /d/f file 2
75 / folder, /d file 5
200 / folder, /d file 5";

/// The follower once it has seen this listing, and then a tick 30 nanoseconds later. Adds what that emits.
fn follow(
    rt: &(impl Abort + AllocGlobal),
    follower: Follower,
    text: &str,
    now: u128,
    emitted: &mut String,
) -> Follower {
    let follower = follower
        .see(listing(rt, rt.alloc(), text), now)
        .expect(rt, "memory");
    let (follower, batch) = follower.tick(now.saturating_add(30)).expect(rt, "memory");
    add_batch(emitted, batch.as_slice()).expect(rt, "memory");
    follower
}

/// Checks that a reader of what was emitted, and then of what is pending, has the paths of this listing.
fn check_reader(rt: &impl Abort, follower: &Follower, text: &str) {
    let paths = follower.paths().expect(rt, "memory");
    check_paths(rt, paths.to_list().expect(rt, "memory").as_slice(), text);
}

/// Follows the listings of some lines. After each a reader has its paths. Adds what is emitted.
fn follow_all(rt: &(impl Abort + AllocGlobal), lines: &str, emitted: &mut String) {
    let mut follower = Follower::new(rt.alloc(), 50);
    for line in lines.split('\n') {
        let (now, text) = line.split_once(' ').expect(rt, line);
        follower = follow(rt, follower, text, moment(rt, now), emitted);
        check_reader(rt, &follower, text);
    }
    drop(follower);
}

fn moment(rt: &impl Abort, text: &str) -> u128 {
    match text.parse::<u128>() {
        Ok(moment) => moment,
        Err(_) => panic!(rt; "{text} is no moment"),
    }
}

#[test]
fn a_reader_ends_with_the_paths_of_the_last_listing(rt: HostRuntime) {
    follow_all(&rt, LISTINGS, &mut String::new(rt.alloc()));
}

/// Has the core carry out what changes from one listing to the next, and then a tick 30 nanoseconds later. The
/// reader plays what is emitted.
fn run_changes(
    rt: &(impl Abort + AllocGlobal),
    core: &mut DebounceDataInner<NoCache>,
    reader: &mut PathSet,
    changes: Vec<Event>,
    now: u128,
) {
    let mut asked = Vec::new(rt.alloc());
    for event in changes {
        asked
            .push(Command::Event(event, now, true))
            .expect(rt, "memory");
    }
    asked
        .push(Command::Tick(now.saturating_add(30)))
        .expect(rt, "memory");
    for reply in core.run(asked).expect(rt, "memory") {
        play_reply(rt, reader, &reply);
    }
}

/// Plays a batch. An event is taken, with no number.
fn play_reply(rt: &impl Abort, reader: &mut PathSet, reply: &Reply) {
    match reply {
        Reply::Batch(batch) => reader.play(batch.as_slice()).expect(rt, "memory"),
        Reply::Taken(None) => {}
        _ => panic!(rt; "another reply"),
    }
}

/// Checks that a reader who has these paths, and then plays what is pending, has the paths of this listing.
fn check_rest(rt: &impl Abort, core: &DebounceDataInner<NoCache>, reader: &PathSet, text: &str) {
    let mut paths = reader.try_clone().expect(rt, "memory");
    let rest = core.outlook().expect(rt, "memory");
    paths.play(rest.as_slice()).expect(rt, "memory");
    check_paths(rt, paths.to_list().expect(rt, "memory").as_slice(), text);
}

#[test]
fn what_changes_between_listings_is_run_and_played(rt: HostRuntime) {
    run_all(&rt, LISTINGS);
    run_all(&rt, REPLACED);
}

/// Runs what changes from each listing of some lines to the next. After each a reader has its paths.
fn run_all(rt: &(impl Abort + AllocGlobal), lines: &str) {
    let mut core = DebounceDataInner::new(rt.alloc(), NoCache::new(), 50);
    let mut reader = PathSet::new(rt.alloc());
    let mut last = Listing::new(rt.alloc());
    for line in lines.split('\n') {
        let (now, text) = line.split_once(' ').expect(rt, line);
        let next = listing(rt, rt.alloc(), text);
        let changes = compare(rt.alloc(), &last, &next).expect(rt, "memory");
        run_changes(rt, &mut core, &mut reader, changes, moment(rt, now));
        check_rest(rt, &core, &reader, text);
        last = next;
    }
}

#[test]
fn a_folder_becomes_a_file(rt: HostRuntime) {
    let mut emitted = String::new(rt.alloc());
    follow_all(&rt, REPLACED, &mut emitted);
    let wanted = "[] [Create(Folder) 0 /, Create(Folder) 0 /d, ] [] \
        [Remove(Folder) 75 /d, Create(File) 75 /d, ] ";
    check_text(&rt, emitted.as_str(), wanted, "what is emitted");
}

/// Watches the path in folders that hold these entries, and returns what it begins with.
fn watch(rt: &(impl Abort + AllocGlobal), polled: &mut Polled, text: &str, place: &str) -> Listing {
    let mut folders = tree(rt, rt.alloc(), text);
    polled
        .watch_listed(
            &mut folders,
            &path(rt, rt.alloc(), place),
            RecursiveMode::Recursive,
        )
        .expect(rt, place)
}

#[test]
fn a_watch_lists_what_it_takes_from_the_rounds(rt: HostRuntime) {
    check_listed(&rt, "/ folder, /d folder, /d/f file 2");
}

/// Watches two roots, the second when the folders hold these entries.
fn check_listed(rt: &(impl Abort + AllocGlobal), later: &str) {
    let mut polled = Polled::new(rt.alloc());
    drop(watch(rt, &mut polled, "/ folder, /d folder", "/"));
    // The file came since, and the first root would report it in the next round.
    let listed = watch(rt, &mut polled, later, "/d");
    check_round(rt, &mut polled, later, "nothing");
    drop(polled);
    check_same(rt, &listed, later);
}

/// Checks that nothing differs between the two listings.
fn check_same(rt: &(impl Abort + AllocGlobal), listed: &Listing, text: &str) {
    let differences = compare(rt.alloc(), listed, &listing(rt, rt.alloc(), text));
    let count = differences.expect(rt, "memory").len() as u64;
    check_numbers(rt, &[count], &[0], text);
}

/// What happens, in scenes: each begins with `now` and what stands in the folders. Then come, line by line,
/// `deep` or `flat` and a path that is watched from then on, with all that is below it or what it holds;
/// `unwatch` and a path; `round` and what it reports.
const STORIES: [&str; 5] = [
    // A folder that was watched as a whole is watched alone: what is deeper is let go without an event.
    "now / folder, /d folder, /d/e folder, /d/e/f file 1
deep /d
flat /d
now / folder, /d folder, /d/e folder
round nothing
now / folder, /d folder
round Remove(Folder) /d/e",
    // The other way round: what is deeper isn't new, and is followed from then on.
    "now / folder, /d folder, /d/e folder, /d/e/f file 1
flat /d
deep /d
round nothing
now / folder, /d folder, /d/e folder, /d/e/f file 2
round Modify(Data(Any)) /d/e/f",
    // What the first root has keeps its old entry, so that its change is reported.
    "now / folder, /d folder, /d/f file 1
deep /
now / folder, /d folder, /d/f file 2, /d/g file 1
deep /d
round Modify(Data(Any)) /d/f",
    // What two roots show is reported once.
    "now / folder, /d folder
deep /
flat /d
now / folder, /d folder, /d/f file 1
round Create(File) /d/f",
    // One of two roots is left: what only the other showed is let go without an event.
    "now / folder, /c file 1, /d folder, /d/f file 1
deep /
flat /d
unwatch /
round nothing
now / folder, /c file 2, /d folder, /d/f file 2
round Modify(Data(Any)) /d/f",
];

/// The same of a watcher that begins with nothing: `show` or `show_flat` and a path that is watched from then
/// on; `hide` and a path that isn't any longer.
const STORIES_FROM_NOTHING: [&str; 3] = [
    // A file goes, and is there again when a second root is watched that shows it too.
    "now / folder, /d folder, /d/p file 1
show /d
round Create(Folder) /, Create(Folder) /d, Create(File) /d/p
now / folder, /d folder
round Remove(File) /d/p
now / folder, /d folder, /d/p file 1
show /
round Create(File) /d/p
hide /
round nothing
hide /d
round Remove(Folder) /",
    // A root is watched again, in the other mode.
    "now / folder, /d folder, /d/e folder, /d/e/f file 1
show_flat /d
round Create(Folder) /, Create(Folder) /d, Create(Folder) /d/e
show /d
round Create(File) /d/e/f
show_flat /d
round Remove(File) /d/e/f",
    // What no round saw was never there.
    "now / folder, /d folder
show /
hide /
round nothing",
];

/// The same with `look`, some paths, and what one look at them reports.
const LOOKS: [&str; 4] = [
    // A look sees what stands at the path and below it, and nothing beside.
    "now / folder, /d folder, /d/e folder, /d/f file 1
show /d
round Create(Folder) /, Create(Folder) /d, Create(Folder) /d/e, Create(File) /d/f
now / folder, /d folder, /d/e folder, /d/e/g file 2, /d/f file 9
look /d/e: Create(File) /d/e/g
look /d/e: nothing
look /d/f: Modify(Data(Any)) /d/f
round nothing",
    // Below a folder that isn't known yet it begins at that folder.
    "now / folder, /d folder
show /d
round Create(Folder) /, Create(Folder) /d
now / folder, /d folder, /d/e folder, /d/e/g file 2, /d/f file 9
look /d/e/g: Create(Folder) /d/e, Create(File) /d/e/g
round Create(File) /d/f",
    // What went is reported as it is named, and what no root shows isn't.
    "now / folder, /d folder, /d/e folder, /d/e/g file 2, /x file 3
show /d
round Create(Folder) /, Create(Folder) /d, Create(Folder) /d/e, Create(File) /d/e/g
now / folder, /d folder
look /x: nothing
look /d/e/g: Remove(File) /d/e/g
round Remove(Folder) /d/e",
    // Several are one look.
    "now / folder, /d folder
show /d
round Create(Folder) /, Create(Folder) /d
now / folder, /d folder, /d/e folder, /d/e/g file 2, /d/f file 9, /d/h file 1
look /d/h /d/e/g /d/e/x: Create(Folder) /d/e, Create(File) /d/e/g, Create(File) /d/h
round Create(File) /d/f",
];

/// The same with `shut`, some folders that are closed in a round that keeps what was shown of them, and what it reports;
/// `peek`, a folder that is closed, and some paths that one look is at.
const STORIES_OF_CLOSED: [&str; 4] = [
    // What lies in a closed folder stays, whatever becomes of it meanwhile. The rest is reported, and so is what has
    // changed once it is open.
    "now / folder, /c file 1, /d folder, /d/e folder, /d/e/f file 1
show /
round Create(Folder) /, Create(File) /c, Create(Folder) /d, Create(Folder) /d/e, Create(File) /d/e/f
now / folder, /c file 2, /d folder, /g file 1
shut /d: Create(File) /g, Modify(Data(Any)) /c
shut /d: nothing
round Remove(Folder) /d/e",
    // The root itself is closed, and then it isn't.
    "now / folder, /d folder, /d/f file 1
show /d
round Create(Folder) /, Create(Folder) /d, Create(File) /d/f
now / folder, /d folder, /d/g file 1
shut /d: nothing
round Remove(File) /d/f, Create(File) /d/g",
    // A closed folder that is new is shown, and nothing in it; one that goes is reported.
    "now / folder, /d folder
show /
round Create(Folder) /, Create(Folder) /d
now / folder, /d folder, /e folder, /e/f file 1
shut /e: Create(Folder) /e
shut /e: nothing
round Create(File) /e/f
now / folder, /d folder
shut /e: Remove(Folder) /e",
    // A look keeps as a round does.
    "now / folder, /c file 1, /d folder, /d/f file 1
show /
round Create(Folder) /, Create(File) /c, Create(Folder) /d, Create(File) /d/f
now / folder, /c file 2, /d folder
peek /d /d/f /c: Modify(Data(Any)) /c
peek /d /d: nothing
look /d/f: Remove(File) /d/f",
];

/// Checks what was reported.
fn check_notes(rt: &(impl Abort + AllocGlobal), notes: &mut Notes, text: &str, wanted: &str) {
    let wanted = if wanted == "nothing" { "" } else { wanted };
    check_text(rt, notes.take().as_str(), wanted, text);
}

/// Makes a round, and checks what it reports.
fn check_round(rt: &(impl Abort + AllocGlobal), polled: &mut Polled, text: &str, wanted: &str) {
    let mut notes = Notes::new(rt);
    polled.round(&mut tree(rt, rt.alloc(), text), &mut notes);
    check_notes(rt, &mut notes, text, wanted);
}

/// The paths of a line.
fn paths_of(rt: &(impl Abort + AllocGlobal), line: &str) -> Vec<PathBuf> {
    let mut paths = Vec::new(rt.alloc());
    for place in line.split(' ') {
        paths.push(path(rt, rt.alloc(), place)).expect(rt, "memory");
    }
    paths
}

/// Looks at some paths, and checks what this reports.
fn check_look(rt: &(impl Abort + AllocGlobal), polled: &mut Polled, text: &str, line: &str) {
    let (places, wanted) = line.split_once(": ").expect(rt, line);
    let paths = paths_of(rt, places);
    let mut notes = Notes::new(rt);
    polled.look_at(
        &mut tree(rt, rt.alloc(), text),
        &mut notes,
        paths.as_slice(),
    );
    check_notes(rt, &mut notes, text, wanted);
}

/// Makes a round in which some folders are closed, and checks what it reports.
fn check_shut(rt: &(impl Abort + AllocGlobal), polled: &mut Polled, text: &str, line: &str) {
    let (places, wanted) = line.split_once(": ").expect(rt, line);
    let shut = paths_of(rt, places);
    let mut notes = Notes::new(rt);
    let mut folders = ClosedFolders::new(rt.alloc(), tree(rt, rt.alloc(), text), shut);
    polled.kept_round(&mut folders, &mut None, &mut notes);
    check_notes(rt, &mut notes, line, wanted);
}

/// Looks at some paths while a folder is closed, and checks what this reports.
fn check_peek(rt: &(impl Abort + AllocGlobal), polled: &mut Polled, text: &str, line: &str) {
    let (places, wanted) = line.split_once(": ").expect(rt, line);
    let (place, named) = places.split_once(' ').expect(rt, line);
    let paths = paths_of(rt, named);
    let mut notes = Notes::new(rt);
    let mut folders = ClosedFolders::new(
        rt.alloc(),
        tree(rt, rt.alloc(), text),
        paths_of(rt, place),
    );
    polled.kept_look(&mut folders, &mut None, &mut notes, paths.as_slice());
    check_notes(rt, &mut notes, line, wanted);
}

/// The mode that a word of a scene asks for.
fn mode_of(word: &str) -> RecursiveMode {
    match word {
        "deep" | "show" => RecursiveMode::Recursive,
        _ => RecursiveMode::NonRecursive,
    }
}

/// Carries out a line of a scene in folders that hold these entries.
fn carry_out(
    rt: &(impl Abort + AllocGlobal),
    polled: &mut Polled,
    text: &str,
    word: &str,
    rest: &str,
) {
    if word == "round" {
        return check_round(rt, polled, text, rest);
    }
    if word == "look" {
        return check_look(rt, polled, text, rest);
    }
    if word == "shut" {
        return check_shut(rt, polled, text, rest);
    }
    if word == "peek" {
        return check_peek(rt, polled, text, rest);
    }
    let place = path(rt, rt.alloc(), rest);
    let mut folders = tree(rt, rt.alloc(), text);
    let answer = match word {
        "unwatch" => polled.unwatch(&place),
        "hide" => polled.unwatch_reported(&place),
        "show" | "show_flat" => polled.watch_reported(&mut folders, &place, mode_of(word)),
        _ => polled.watch(&mut folders, &place, mode_of(word)),
    };
    answer.expect(rt, rest);
}

/// Plays a scene: its first line is what stands in the folders, and the others happen then.
fn play_scene(rt: &(impl Abort + AllocGlobal), polled: &mut Polled, scene: &str) {
    let (text, lines) = scene.split_once('\n').expect(rt, scene);
    for line in lines.split('\n') {
        if !line.is_empty() {
            let (word, rest) = line.split_once(' ').expect(rt, line);
            carry_out(rt, polled, text, word, rest);
        }
    }
}

/// Plays each story, with a watcher of its own.
fn play(rt: &(impl Abort + AllocGlobal), stories: &[&str]) {
    for story in stories {
        let mut polled = Polled::new(rt.alloc());
        for scene in story.split("now ") {
            if !scene.is_empty() {
                play_scene(rt, &mut polled, scene);
            }
        }
    }
}

#[test]
fn roots_overlap_and_change_their_modes(rt: HostRuntime) {
    play(&rt, &STORIES);
}

#[test]
fn roots_are_reported_from_nothing(rt: HostRuntime) {
    play(&rt, &STORIES_FROM_NOTHING);
}

#[test]
fn looks_see_what_is_named(rt: HostRuntime) {
    play(&rt, &LOOKS);
}

#[test]
fn what_is_closed_is_kept(rt: HostRuntime) {
    play(&rt, &STORIES_OF_CLOSED);
}
