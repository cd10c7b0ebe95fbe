//! The laws of all calls that a program makes of the library, in whatever order.
ghost use Rattle.debounce_c.specs.Desk.Calls.{CallsAreARun, CallsAreARunBetween, CallsAreWrittenDown, CallsEmitSoon, CallsFloodNowhere, CallsGiveRawPaths, CallsInventNoRename, CallsLoseNoChange, CallsTellKnown};

/// Does nothing. By its contract calls that did what they say, made one after the other, are a run of the core, and
/// the laws of runs hold of them if the first was the one that made the debouncer.
///
/// A call that says a file number, or takes one out, is no command of the core: it changes what the core's cache
/// answers. With such calls it is a run between whose steps the numbers change, of which the laws hold alike.
///
/// The commands of the run are what was fed, kept, watched, unwatched, asked for and ticked, its replies what C
/// read. A call that was refused has changed nothing, and so is no part of it.
///
/// If all events were fed by looks, a reader of what C read, of the outlook and of what waits has just the known paths.
///
/// A journal, if one is kept, got the commands and the replies of the run, from where it was begun on.
pub fn laws_of_calls()
    ensures run { CallsAreARun }
    ensures between { CallsAreARunBetween }
    ensures written { CallsAreWrittenDown }
    ensures raw { CallsGiveRawPaths }
    ensures kept { CallsLoseNoChange }
    ensures founded { CallsInventNoRename }
    ensures flood { CallsFloodNowhere }
    ensures soon { CallsEmitSoon }
    ensures known { CallsTellKnown }
{}
