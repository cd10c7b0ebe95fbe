//! What waits below a folder that is renamed.
ghost use Rattle.reader_laws.specs.Renames.{KeepsWhatIsBelow};

/// Does nothing. By its contract no event that waits strictly below a folder is lost when the folder is
/// renamed: after the joined rename all of them wait at the same place below the new path, in the same
/// order, each with its kind, and none is older than the rename.
///
/// It is said of two paths of which neither lies at or below the other; otherwise nothing goes along.
pub fn law_of_renamed_folders()
    ensures { KeepsWhatIsBelow }
{}
