//! The words with which the lines of a report begin.
ghost use Rattle.std.specs.Prelude.{◌≡◌, false, IfSome, IfNone};
ghost use Rattle.bound_table.specs.Words.{spelling, is_report_word};

use word_tables::{place_of, report_words, variant_at};

/// The first word of a line of an output.
#[derive(Clone, Copy, Debug, PartialEq, Eq)]
pub enum ReportWord {
    Refused,
    Leaves,
    Enters,
    Cost,
    Report,
    Counts,
    Total,
    Outage,
    Crew,
    Unexplained,
    Line,
    Index,
    End,
    Bounds,
    Cut,
    Row,
    EndBounds,
}

/// The word of a text; none exactly where the text is no word.
pub(crate) fn report_word(text: &[u8]) -> Option<ReportWord>
    ensures found { IfSome result (λ word. text.now ≡ spelling word) }
    ensures none { IfNone result (is_report_word text.now ≡ false) }
{
    let place = report_words().find(text)?;
    variant_at!(place;
        ReportWord::Refused,
        ReportWord::Leaves,
        ReportWord::Enters,
        ReportWord::Cost,
        ReportWord::Report,
        ReportWord::Counts,
        ReportWord::Total,
        ReportWord::Outage,
        ReportWord::Crew,
        ReportWord::Unexplained,
        ReportWord::Line,
        ReportWord::Index,
        ReportWord::End,
        ReportWord::Bounds,
        ReportWord::Cut,
        ReportWord::Row,
        ReportWord::EndBounds,
    )
}

/// The text of a word.
pub fn text_of(word: ReportWord) -> &'static [u8]
    ensures { result.now ≡ spelling word }
{
    let place = place_of!(word;
        ReportWord::Refused,
        ReportWord::Leaves,
        ReportWord::Enters,
        ReportWord::Cost,
        ReportWord::Report,
        ReportWord::Counts,
        ReportWord::Total,
        ReportWord::Outage,
        ReportWord::Crew,
        ReportWord::Unexplained,
        ReportWord::Line,
        ReportWord::Index,
        ReportWord::End,
        ReportWord::Bounds,
        ReportWord::Cut,
        ReportWord::Row,
        ReportWord::EndBounds,
    );
    report_words().word(place).as_bytes()
}
