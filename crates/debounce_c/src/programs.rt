//! The laws of what a C program does with a handle.
ghost use Rattle.debounce_c.specs.Programs.{HistoriesAreWrittenDown, HistoriesKeepLaws};

use crate::desk::laws::laws_of_calls;

/// Does nothing. By its contract the laws of runs hold of each history of a handle: of the calls of exports, right
/// and wrong, in any order, from an `ndf_new` that answered 0 on to the next one, or to `ndf_free`, if each was
/// answered as its export promises. A call that answered another code than 0 has changed nothing, and is passed over.
///
/// If all its events were fed by looks, a reader who begins with what `ndf_look_known` took, and plays what was emitted,
/// the outlook and what wasn't fed yet, has just the known paths.
///
/// A journal, if one is kept, holds what was done since it was begun, with the core's replies, and nothing else: of each
/// history without an `ndf_journal` that answered 0 it got the commands and replies of the run, in order, which lead from
/// the state before to the one after.
pub fn laws_of_programs()
    ensures laws { HistoriesKeepLaws }
    ensures written { HistoriesAreWrittenDown }
{
    laws_of_calls();
}
