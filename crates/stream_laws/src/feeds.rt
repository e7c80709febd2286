//! Laws of the level feed. Their functions do nothing: what is proved is what their contracts say.
ghost use Rattle.stream_laws.specs.FeedLaws.{FoldsAtBlocks, FoldsBetweenBlocks, FoldsWhole, SameListings, AmendmentsKeepLevels};

/// For fewer than 2^24 messages, whatever they are, under products that were read from texts and amend one another: the fold of
/// the feed's text from any snapshot to the end of any block is the levels of the state after the message of that block, and of
/// each later state before the message of the next increment, or of each later one if none follows. The fold of the whole text is
/// the levels of the book after all messages.
pub fn feeds_of_histories_fold_to_levels()
    ensures at_blocks { FoldsAtBlocks }
    ensures between_blocks { FoldsBetweenBlocks }
    ensures whole { FoldsWhole }
{}

/// All products of a history list the same instruments with the same ticks and as many orders, so that one listing reads the whole
/// feed. An amendment changes no level, so that the feed has no block for it.
pub fn amendments_keep_the_feed()
    ensures listings { SameListings }
    ensures levels { AmendmentsKeepLevels }
{}
