//! Laws of the texts.
ghost use Rattle.grid_maker.specs.Laws.{StormHasLines, TextsAreShort};

/// The text of a storm has ten thousand lines for each feeder.
pub fn storm_has_lines()
    ensures { StormHasLines }
{}

/// The text of a network has at most 15,000,000 bytes, and that of a storm at most 62,000,000.
pub fn texts_are_short()
    ensures { TextsAreShort }
{}
