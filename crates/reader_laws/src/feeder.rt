//! What a watcher that reports all gives to a debouncer's feed, as a reader of the batches has it.
ghost use Rattle.reader_laws.specs.Feeder.{ReaderHasTheLastListing};

/// Does nothing. By its contract a reader who begins with no paths, plays every batch of a debouncer's history, and then
/// what waits, has the paths of the last listing, if nothing was missed. Of the feed it asks what a debouncer's end
/// says: a watcher that began with the listing of nothing called it, and reports all (`Reported`), and nothing else was
/// fed.
pub fn law_of_one_feeder()
    ensures { ReaderHasTheLastListing }
{}
