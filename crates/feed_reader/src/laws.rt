//! Laws of reading. Their functions do nothing: what is proved is what their contracts say.
ghost use Rattle.feed_reader.specs.WholeFeeds.{BrokenStays};

/// A feed whose first fault is that of a line keeps this first fault, whatever bytes come after it.
pub fn broken_feeds_stay_broken()
    ensures { BrokenStays }
{}
