//! Laws of reports.
ghost use Rattle.bound_table.specs.Laws.{WrittenIsRead, ReadIsOfNetwork, BoundsHaveOneSpelling, ReportHasOneSpelling};

/// Bounds are read as they were printed, whatever lines stand before them.
pub fn written_is_read()
    ensures { WrittenIsRead }
{}

/// Bounds that are read ascend, and are of the network and within the ranges of numbers.
pub fn read_is_of_network()
    ensures { ReadIsOfNetwork }
{}

/// Bounds have one spelling: a bounds part that is read as these is what is printed of them, and a
/// report that is read as these is lines before the bounds part, and then this spelling.
pub fn bounds_have_one_spelling()
    ensures part { BoundsHaveOneSpelling }
    ensures report { ReportHasOneSpelling }
{}
