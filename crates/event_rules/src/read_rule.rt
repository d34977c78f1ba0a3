//! The rules by which a line of an event text is refused before its event is applied.

/// The rules of a line of an event text, in the order in which a line is tried by them.
#[derive(Clone, Copy, Debug, PartialEq, Eq)]
pub enum ReadRule {
    /// The line has more than 512 bytes.
    TooLong,
    /// The line has no fields, fewer than two or more than four of them, or not the number of fields
    /// that lines of its word have.
    BadFields,
    /// The second field is no word of an event, or the last field of a `ping` or of a `confirm` is
    /// none of its words.
    BadWord,
    /// The first field is no stamp of a second that exists in the years 1970 to 9999.
    BadTime,
    /// The text that names the meter or the device isn't 1 to 32 letters, digits or `_ - . /`, or is
    /// `-`.
    BadName,
    /// The network has no such meter.
    UnknownMeter,
    /// The network has no such device.
    UnknownDevice,
}
