//! The words of the texts.
ghost use Rattle.std.specs.Prelude.{◌≡◌};
ghost use Rattle.word_tables.specs.Tables.{AreDistinct};
ghost use Rattle.word_tables.specs.Words as words;

use crate::table::WordTable;

/// The words of events.
pub fn event_words() -> WordTable<9>
    ensures words { result ≡ words.event_words }
    ensures distinct { AreDistinct result }
{
    WordTable::new(&[
        "call", "gasp", "ping", "powerup", "confirm", "restore", "open", "close", "clock",
    ])
}

/// The words of the kinds of devices.
pub fn kind_words() -> WordTable<7>
    ensures words { result ≡ words.kind_words }
    ensures distinct { AreDistinct result }
{
    WordTable::new(&[
        "fuse",
        "transformer",
        "recloser",
        "breaker",
        "line",
        "switch",
        "tie",
    ])
}

/// The words of what a network may set: five weights and three times.
pub fn setting_words() -> WordTable<8>
    ensures words { result ≡ words.setting_words }
    ensures distinct { AreDistinct result }
{
    WordTable::new(&[
        "call",
        "gasp",
        "ping_down",
        "ping_up",
        "powerup",
        "live_hold",
        "grace",
        "ok_hold",
    ])
}

/// The words of the rules by which a line of events is refused.
pub fn rule_words() -> WordTable<10>
    ensures words { result ≡ words.rule_words }
    ensures distinct { AreDistinct result }
{
    WordTable::new(&[
        "TooLong",
        "BadFields",
        "BadWord",
        "BadTime",
        "BadName",
        "UnknownMeter",
        "UnknownDevice",
        "Backwards",
        "NotClosed",
        "Loop",
    ])
}

/// The words with which the lines of a report begin.
pub fn report_words() -> WordTable<17>
    ensures words { result ≡ words.report_words }
    ensures distinct { AreDistinct result }
{
    WordTable::new(&[
        "refused",
        "leaves",
        "enters",
        "cost",
        "report",
        "counts",
        "total",
        "outage",
        "crew",
        "unexplained",
        "line",
        "index",
        "end",
        "bounds",
        "cut",
        "row",
        "endbounds",
    ])
}
