//! What a program took that followed folders to the end.
ghost use Rattle.program_laws.specs.Whole.{TakesAllReports};

use reader_laws::law_of_one_feeder;

/// Does nothing. By its contract a program that was called with all that a folder's reports gave, as [`follow_folder`]
/// says of a run that went well, was called with all that the debouncer emitted, each report once and in order, and then
/// with all that waited at its end, if nothing was lost. If the watcher began with nothing, a program that plays these
/// from no paths on has the paths that the watcher found last.
///
/// [`follow_folder`]: program_reports::follow_folder
pub fn law_of_all_reports()
    ensures all { TakesAllReports }
{
    law_of_one_feeder();
}
