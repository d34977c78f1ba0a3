//! The words of an event text.
ghost use Rattle.std.specs.Prelude.{◌≡◌, false, IfSome, IfNone};
ghost use Rattle.event_rules.specs.EventLines.{is_event_word};
ghost use Rattle.event_reader.specs.Words.{spelling, finding_named, answer_named};

use grid_model::Confirmed;
use word_tables::{event_words, variant_at};

/// The word of a line.
#[derive(Clone, Copy)]
pub(crate) enum EventWord {
    Call,
    Gasp,
    Ping,
    Powerup,
    Confirm,
    Restore,
    Open,
    Close,
    Clock,
}

/// The word of a text; none exactly where the text is no word.
pub(crate) fn event_word(text: &[u8]) -> Option<EventWord>
    ensures found { IfSome result (λ word. text.now ≡ spelling word) }
    ensures none { IfNone result (is_event_word text.now ≡ false) }
{
    let place = event_words().find(text)?;
    variant_at!(place;
        EventWord::Call,
        EventWord::Gasp,
        EventWord::Ping,
        EventWord::Powerup,
        EventWord::Confirm,
        EventWord::Restore,
        EventWord::Open,
        EventWord::Close,
        EventWord::Clock,
    )
}

/// Whether a ping was answered.
pub(crate) fn is_answered(word: &[u8]) -> Option<bool>
    ensures { result ≡ answer_named word.now }
{
    if word == b"up".as_slice() {
        return Some(true);
    }
    (word == b"down".as_slice()).then_some(false)
}

/// What a crew says of a device.
pub(crate) fn finding(word: &[u8]) -> Option<Confirmed>
    ensures { result ≡ finding_named word.now }
{
    if word == b"open".as_slice() {
        return Some(Confirmed::Opened);
    }
    if word == b"ok".as_slice() {
        return Some(Confirmed::Fine);
    }
    (word == b"clear".as_slice()).then_some(Confirmed::Cleared)
}
