//! The rule by which a line says no event.
ghost use Rattle.std.specs.Prelude.{◌≡◌, IfSome, IsNone};
ghost use Rattle.event_reader.specs.Refusals.{refusal_by};
ghost use Rattle.event_reader.specs.declared.refusal.ReadRefusal.{ReadRefusal};

use event_reader::ReadRefusal;
use event_rules::ReadRule;

/// The rule of a refusal; none for want of memory.
pub(crate) fn rule_in(refusal: ReadRefusal) -> Option<ReadRule>
    ensures rule { IfSome result (λ rule. refusal ≡ refusal_by rule) }
    ensures none { IsNone result → refusal ≡ ReadRefusal.Memory }
{
    match refusal {
        ReadRefusal::TooLong => Some(ReadRule::TooLong),
        ReadRefusal::BadFields => Some(ReadRule::BadFields),
        ReadRefusal::BadWord => Some(ReadRule::BadWord),
        ReadRefusal::BadTime => Some(ReadRule::BadTime),
        ReadRefusal::BadName => Some(ReadRule::BadName),
        ReadRefusal::UnknownMeter => Some(ReadRule::UnknownMeter),
        ReadRefusal::UnknownDevice => Some(ReadRule::UnknownDevice),
        ReadRefusal::Memory => None,
    }
}
