//! What is kept of the reports of one meter.
ghost use Rattle.std.specs.Prelude.{◌≡◌, ℕ, false, ◌+◌, ◌<◌, ◌≤◌, ◌^◌, not, option_map, is_some, IfSome};
ghost use Rattle.grid_model.specs.Places.{meter_id};
ghost use Rattle.grid_model.specs.declared.history.What.TheVariants as what;
ghost use Rattle.history_rules.specs.Evidence.{is_dark_signal_of, is_live_signal_of, weight_of, weight_in, earliest};
ghost use Rattle.history_rules.specs.Slots.{slots_after, slots_restored, dark_signal_in, live_signal_in, dark_in, live_in, due_in, since_in, came_back_in, is_quiet, end_after, grace_after};
ghost use Rattle.history_rules.specs.StampTexts.{last_second};
ghost use Rattle.evidence.specs.Kept.{nothing_kept, pull_by, sign_what, stamp_at};
ghost use Rattle.evidence.specs.Slot.{slots_in, kept_in, event_in, seconds, with_settings, IsPast, AreModest};

use crate::Pull;
use grid_model::{Setting, Stamp};

/// A report that a meter itself sends.
#[derive(Clone, Copy, Debug, PartialEq, Eq)]
pub enum Sign {
    /// A last gasp.
    Gasp,
    /// A ping that found the meter down.
    PingDown,
    /// A ping that found the meter up.
    PingUp,
    /// A power-up message.
    Powerup,
}

/// A signal, and when it came.
#[derive(Clone, Copy)]
pub struct Signal {
    pub sign: Sign,
    pub time: Stamp,
}

/// What is kept of the reports of one meter.
#[derive(Clone, Copy)]
pub struct Slot {
    /// The last signal.
    pub signal: Option<Signal>,
    /// When the meter was last brought back after that signal.
    pub back: Option<Stamp>,
    /// When the last call came that nothing answered.
    pub call: Option<Stamp>,
    /// The time of the last change.
    pub at: Stamp,
}

impl Sign {
    // Whether it says that the meter is dark, and not live.
    fn is_dark(self) -> bool
        ensures dark { (m : ℕ) → result ≡ is_dark_signal_of m (sign_what self (meter_id m)) }
        ensures live { (m : ℕ) → not result ≡ is_live_signal_of m (sign_what self (meter_id m)) }
    {
        match self {
            Sign::Gasp => true,
            Sign::PingDown => true,
            Sign::PingUp => false,
            Sign::Powerup => false,
        }
    }

    // What it weighs.
    fn weight(self, settings: &[u64; 8]) -> u64
        requires modest { AreModest settings.now }
        ensures small { result ≤ 10_000_000 }
        ensures weight { (m : ℕ) → result ≡ weight_of (with_settings settings.now) (sign_what self (meter_id m)) }
    {
        match self {
            Sign::Gasp => settings[Setting::Gasp as usize],
            Sign::PingDown => settings[Setting::PingDown as usize],
            Sign::PingUp => settings[Setting::PingUp as usize],
            Sign::Powerup => settings[Setting::Powerup as usize],
        }
    }
}

// What a signal weighs, if there is one.
fn weight_of_signal(settings: &[u64; 8], signal: Option<Signal>) -> u64
    requires modest { AreModest settings.now }
    ensures small { result ≤ 10_000_000 }
    ensures weight { (m : ℕ) → result ≡ weight_in (with_settings settings.now) (option_map (event_in m) signal) }
{
    match signal {
        None => 0,
        Some(signal) => signal.sign.weight(settings),
    }
}

// Whether the grace of a restoration isn't over.
fn is_quiet(now: Stamp, grace: u64, back: Option<Stamp>) -> bool
    requires { IfSome back (λ t. t.0 + grace < 2 ^ 64) }
    ensures { result ≡ is_quiet now.0 grace (option_map (λ t. t.0) back) }
{
    match back {
        None => false,
        Some(back) => now.0 < back.0 + grace,
    }
}

// The end of a hold that isn't over.
fn end_after(now: Stamp, end: u64) -> Option<Stamp>
    ensures { result ≡ option_map stamp_at (end_after now.0 end) }
{
    if now.0 < end { Some(Stamp(end)) } else { None }
}

// The earlier of two times, where there are any.
fn earliest(first: Option<Stamp>, second: Option<Stamp>) -> Option<Stamp>
    ensures { option_map (λ t. t.0) result ≡ earliest (option_map (λ t. t.0) first) (option_map (λ t. t.0) second) }
{
    match first {
        None => second,
        Some(first) => match second {
            None => Some(first),
            Some(second) => Some(Stamp(first.0.min(second.0))),
        },
    }
}

impl Slot {
    /// Nothing was reported.
    pub fn new() -> Slot
        ensures kept { (m : ℕ) → kept_in m result ≡ nothing_kept }
        ensures past { IsPast result }
    {
        Slot {
            signal: None,
            back: None,
            call: None,
            at: Stamp(0),
        }
    }

    /// After a call.
    pub fn called(self, now: Stamp) -> Slot
        requires past { IsPast self }
        ensures kept { (m : ℕ) → kept_in m result ≡ record {
          slots = slots_after m (record { time = now; what = what.Call (meter_id m) }) false (slots_in m self);
          at = now.0;
        } }
        ensures past { IsPast result }
    {
        Slot {
            call: Some(now),
            at: now,
            ..self
        }
    }

    /// After a signal.
    pub fn signalled(self, sign: Sign, now: Stamp) -> Slot
        requires range { now.0 ≤ last_second }
        ensures kept { (m : ℕ) → kept_in m result ≡ record {
          slots = slots_after m (record { time = now; what = sign_what sign (meter_id m) }) false (slots_in m self);
          at = now.0;
        } }
        ensures past { IsPast result }
    {
        let call = if sign.is_dark() { self.call } else { None };
        Slot {
            signal: Some(Signal { sign, time: now }),
            back: None,
            call,
            at: now,
        }
    }

    /// After a restoration that brings the meter back.
    pub fn restored(self, now: Stamp) -> Slot
        requires past { IsPast self }
        requires range { now.0 ≤ last_second }
        ensures kept { (m : ℕ) → kept_in m result ≡ record { slots = slots_restored now.0 (slots_in m self); at = now.0 } }
        ensures past { IsPast result }
    {
        Slot {
            back: Some(now),
            call: None,
            at: now,
            ..self
        }
    }

    /// After some time alone.
    pub fn lapsed(self, now: Stamp) -> Slot
        requires past { IsPast self }
        ensures kept { (m : ℕ) → kept_in m result ≡ record { slots = slots_in m self; at = now.0 } }
        ensures past { IsPast result }
    {
        Slot { at: now, ..self }
    }

    // The dark signal that counts.
    fn dark_signal(self, settings: &[u64; 8]) -> Option<Signal>
        requires past { IsPast self }
        requires modest { AreModest settings.now }
        ensures { (m : ℕ) → option_map (event_in m) result ≡ dark_signal_in (with_settings settings.now) m self.at.0 (slots_in m self) }
    {
        let quiet = is_quiet(self.at, settings[Setting::Grace as usize], self.back);
        self.signal.filter(|signal| signal.sign.is_dark() && !quiet)
    }

    // The live signal that counts.
    fn live_signal(self, settings: &[u64; 8]) -> Option<Signal>
        requires past { IsPast self }
        requires modest { AreModest settings.now }
        ensures { (m : ℕ) → option_map (event_in m) result ≡ live_signal_in (with_settings settings.now) m self.at.0 (slots_in m self) }
    {
        let signal = self.signal?;
        let end = signal.time.0 + settings[Setting::LiveHold as usize];
        if !signal.sign.is_dark() && self.at.0 < end {
            Some(signal)
        } else {
            None
        }
    }

    // What the call weighs that nothing answered, if there is one.
    fn call_weight(self, settings: &[u64; 8]) -> u64
        requires modest { AreModest settings.now }
        ensures small { result ≤ 10_000_000 }
        ensures weight { (m : ℕ) → result ≡ weight_in (with_settings settings.now) (slots_in m self).call }
    {
        match self.call {
            None => 0,
            Some(_) => settings[Setting::Call as usize],
        }
    }

    // What the reports weigh that the meter is dark.
    fn dark(self, settings: &[u64; 8]) -> u64
        requires past { IsPast self }
        requires modest { AreModest settings.now }
        ensures { (m : ℕ) → result ≡ dark_in (with_settings settings.now) m self.at.0 (slots_in m self) }
    {
        self.call_weight(settings) + weight_of_signal(settings, self.dark_signal(settings))
    }

    // What the report weighs that the meter is live.
    fn live(self, settings: &[u64; 8]) -> u64
        requires past { IsPast self }
        requires modest { AreModest settings.now }
        ensures { (m : ℕ) → result ≡ live_in (with_settings settings.now) m self.at.0 (slots_in m self) }
    {
        weight_of_signal(settings, self.live_signal(settings))
    }

    // The end of the grace, where it isn't over.
    fn grace_end(self, settings: &[u64; 8]) -> Option<Stamp>
        requires past { IsPast self }
        requires modest { AreModest settings.now }
        ensures { result ≡ option_map stamp_at (grace_after (with_settings settings.now) self.at.0 (seconds self.back)) }
    {
        match self.back {
            None => None,
            Some(back) => end_after(self.at, back.0 + settings[Setting::Grace as usize]),
        }
    }

    // When the weights change next by the passing of time alone.
    fn due(self, settings: &[u64; 8]) -> Option<Stamp>
        requires past { IsPast self }
        requires modest { AreModest settings.now }
        ensures { (m : ℕ) → result ≡ option_map stamp_at (due_in (with_settings settings.now) m self.at.0 (slots_in m self)) }
    {
        let signal = self.signal?;
        if signal.sign.is_dark() {
            self.grace_end(settings)
        } else {
            end_after(
                self.at,
                signal.time.0 + settings[Setting::LiveHold as usize],
            )
        }
    }

    /// What the reports weigh.
    pub fn pull(self, settings: &[u64; 8]) -> Pull
        requires past { IsPast self }
        requires modest { AreModest settings.now }
        ensures { (m : ℕ) → result ≡ pull_by (with_settings settings.now) m (kept_in m self) }
    {
        Pull {
            dark: self.dark(settings),
            live: self.live(settings),
            due: self.due(settings),
        }
    }

    /// The earliest time of a counted report that the meter is dark.
    pub fn since(self, settings: &[u64; 8]) -> Option<Stamp>
        requires past { IsPast self }
        requires modest { AreModest settings.now }
        ensures { (m : ℕ) → seconds result ≡ since_in (with_settings settings.now) m self.at.0 (slots_in m self) }
    {
        let signal = self.dark_signal(settings);
        earliest(self.call, signal.map(|signal| signal.time))
    }

    /// Whether a dark signal counts, and a restoration came after it.
    pub fn came_back(self, settings: &[u64; 8]) -> bool
        requires past { IsPast self }
        requires modest { AreModest settings.now }
        ensures { (m : ℕ) → result ≡ came_back_in (with_settings settings.now) m self.at.0 (slots_in m self) }
    {
        self.dark_signal(settings).is_some() && self.back.is_some()
    }
}
