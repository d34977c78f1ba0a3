//! Laws of the merged list and its text.
ghost use Rattle.feed_merge.specs.Laws.{MergedHasEachLine, MergedAscends, MergedIsTheOnlyOne, FeedKeepsItsOrder, MergedIsCut, KeyIsGreatest};

/// The merged list has each line of each feed exactly once.
pub fn merged_has_each_line()
    ensures { MergedHasEachLine }
{}

/// The merged lines ascend by key, then by feed, then by their number in the feed.
pub fn merged_ascends()
    ensures { MergedAscends }
{}

/// No other list has each line exactly once, in this order.
pub fn merged_is_the_only_one()
    ensures { MergedIsTheOnlyOne }
{}

/// The lines of a feed keep their order.
pub fn feed_keeps_its_order()
    ensures { FeedKeepsItsOrder }
{}

/// The merged text is cut into the merged lines.
pub fn merged_is_cut()
    ensures { MergedIsCut }
{}

/// The greatest second of some lines is no less than that of each, and is 0 or that of one.
pub fn key_is_greatest()
    ensures { KeyIsGreatest }
{}
