//! Why no event is read of a line.
use event_rules::ReadRule;
use line_text::FieldsFault;

/// Why no event is read of a line: the first rule that it breaks, in this order, or want of memory.
#[derive(Clone, Copy, Debug, PartialEq, Eq)]
pub enum ReadRefusal {
    /// The line has more than 512 bytes.
    TooLong,
    /// The line has no fields, fewer than two or more than four of them, or not the number of fields
    /// that lines of its word have.
    BadFields,
    /// The second field is no word of an event, or the last field of a `ping` or of a `confirm` is
    /// none of its words.
    BadWord,
    /// The first field is no stamp of a second that exists in the years 1970 to 9999.
    BadTime,
    /// The text that names the meter or the device isn't 1 to 32 letters, digits or `_ - . /`, or is
    /// `-`.
    BadName,
    /// The network has no such meter.
    UnknownMeter,
    /// The network has no such device.
    UnknownDevice,
    /// There was no memory.
    Memory,
}

impl From<ReadRule> for ReadRefusal {
    ghost use Rattle.std.specs.Prelude.{◌≡◌};
    ghost use Rattle.event_reader.specs.Refusals.{refusal_by};

    ghost from_gives = { λ rule refusal. refusal ≡ refusal_by rule };

    fn from(rule: ReadRule) -> ReadRefusal {
        match rule {
            ReadRule::TooLong => ReadRefusal::TooLong,
            ReadRule::BadFields => ReadRefusal::BadFields,
            ReadRule::BadWord => ReadRefusal::BadWord,
            ReadRule::BadTime => ReadRefusal::BadTime,
            ReadRule::BadName => ReadRefusal::BadName,
            ReadRule::UnknownMeter => ReadRefusal::UnknownMeter,
            ReadRule::UnknownDevice => ReadRefusal::UnknownDevice,
        }
    }
}

impl From<FieldsFault> for ReadRefusal {
    ghost use Rattle.std.specs.Prelude.{◌≡◌};
    ghost use Rattle.event_reader.specs.Refusals.{refusal_without_fields};

    ghost from_gives = { λ fault refusal. refusal ≡ refusal_without_fields fault };

    fn from(fault: FieldsFault) -> ReadRefusal {
        match fault {
            FieldsFault::Bad => ReadRefusal::BadFields,
            FieldsFault::Memory => ReadRefusal::Memory,
        }
    }
}
