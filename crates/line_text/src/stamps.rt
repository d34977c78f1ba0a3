//! Times as texts.
ghost use Rattle.std.specs.Prelude.{◌≡◌, ◌↔◌, ◌≤◌, ◌<◌, ◌+◌, ◌/◌, ◌%◌, ◌≤ℤ◌, [], ◌∷◌, length, true, pos, slice_index, Some, None, IfSome, IsSome, option_map, unsigned_abs, if◌then◌else◌};
ghost use Rattle.std.specs.List.{list_all, zip};
ghost use Rattle.jiff_core.specs.Date.{epoch_day};
ghost use Rattle.event_rules.specs.Stamps as spec;
ghost use Rattle.line_text.specs.Dates.{Exists};
ghost use Rattle.line_text.specs.StampText.{fits_mark, tens, ones, stamp_text};

use grid_model::Stamp;
use jiff::civil;
use jiff_core::civil::Date;

const STAMP_PATTERN: &[u8; 20] = b"0000-00-00T00:00:00Z";

// A digit where the mark is a 0, and the mark itself elsewhere.
fn is_fitting(mark: u8, byte: u8) -> bool
    ensures { result ≡ fits_mark mark byte }
{
    if mark == b'0' {
        byte.is_ascii_digit()
    } else {
        byte == mark
    }
}

fn all_fit(pattern: &[u8], text: &[u8]) -> bool
    ensures { result ≡ list_all (λ p. fits_mark p.0 p.1) (zip pattern.now text.now) }
{
    pattern
        .iter()
        .zip(text)
        .all(|(mark, byte)| is_fitting(*mark, *byte))
}

fn has_stamp_shape(text: &[u8]) -> bool
    ensures { result ≡ spec.has_stamp_shape text.now }
{
    text.len() == STAMP_PATTERN.len() && all_fit(STAMP_PATTERN, text)
}

// The number that two digits of a time's text write, the first of them at this place.
fn two_digits(text: &[u8], place: usize) -> u8
    requires shape { spec.has_stamp_shape text.now ≡ true }
    requires first { slice_index spec.stamp_pattern place ≡ 48 }
    requires second { slice_index spec.stamp_pattern (place + 1) ≡ 48 }
    ensures value { result ≡ spec.two_at text.now place }
    ensures bound { result ≤ 99 }
{
    (text[place] - b'0') * 10 + (text[place + 1] - b'0')
}

// Days since 1970-01-01, where the calendar has this day in a year from 1970 to 9999.
fn day_number(year: u16, month: u8, day: u8) -> Option<u32>
    requires year { year ≤ 9999 }
    requires month { month ≤ 99 }
    requires day { day ≤ 99 }
    ensures exists { IsSome result ↔ Exists year month day }
    ensures value { IfSome result (λ n. n ≡ spec.day_number year month day) }
{
    if year < 1970 {
        return None;
    }
    match civil::Date::new(year as i16, month as i8, day as i8) {
        Ok(date) => Some(date.to_plain().to_unix_epoch_day().unsigned_abs()),
        Err(_) => None,
    }
}

// Seconds since midnight, where a clock shows this time of day.
fn second_of_day(hour: u8, minute: u8, second: u8) -> Option<u32>
    ensures value { result ≡ (if spec.is_time hour minute second then Some (spec.second_of_day hour minute second) else None) }
    ensures bound { IfSome result (λ second. second < 86400) }
{
    if hour <= 23 && minute <= 59 && second <= 59 {
        Some(u32::from(hour) * 3600 + u32::from(minute) * 60 + u32::from(second))
    } else {
        None
    }
}

/// The second that a text names, which is `YYYY-MM-DDTHH:MM:SSZ` with fourteen digits, a year from
/// 1970 to 9999, a day that the calendar has and a time of day from `00:00:00` to `23:59:59`; none
/// for any other text.
pub fn read_stamp(text: &[u8]) -> Option<Stamp>
    ensures second { option_map (λ at. at.0) result ≡ spec.stamp_of text.now }
    ensures bound { IfSome result (λ at. at.0 ≤ 253402300799) }
{
    if !has_stamp_shape(text) {
        return None;
    }
    let year = u16::from(two_digits(text, 0)) * 100 + u16::from(two_digits(text, 2));
    let day = day_number(year, two_digits(text, 5), two_digits(text, 8))?;
    let second = second_of_day(
        two_digits(text, 11),
        two_digits(text, 14),
        two_digits(text, 17),
    )?;
    Some(Stamp(u64::from(day) * 86_400 + u64::from(second)))
}

// The date of a day, by its number of days since 1970-01-01.
fn date_of(day: u32) -> Date
    requires { day ≤ 2932896 }
    ensures number { epoch_day result ≡ pos day }
    ensures year { pos 1970 ≤ℤ result.year }
{
    Date::from_unix_epoch_day(i64::from(day)).unwrap()
}

// The digits of a number below 100.
fn digits_of(number: u8) -> [u8; 2]
    requires { number ≤ 99 }
    ensures { result ≡ tens number ∷ ones number ∷ [] }
{
    [b'0' + number / 10, b'0' + number % 10]
}

// The text of a date and of so many seconds since midnight.
fn text_of(date: Date, second: u32) -> [u8; 20]
    requires year { pos 1970 ≤ℤ date.year }
    requires second { second < 86400 }
    ensures { result ≡ stamp_text (unsigned_abs date.year / 100) (unsigned_abs date.year % 100) date.month date.day (second / 3600) (second % 3600 / 60) (second % 60) }
{
    let year = date.year.unsigned_abs();
    let [c1, c2] = digits_of((year / 100) as u8);
    let [y1, y2] = digits_of((year % 100) as u8);
    let [m1, m2] = digits_of(date.month);
    let [d1, d2] = digits_of(date.day);
    let [h1, h2] = digits_of((second / 3600) as u8);
    let [i1, i2] = digits_of((second % 3600 / 60) as u8);
    let [s1, s2] = digits_of((second % 60) as u8);
    [
        c1, c2, y1, y2, b'-', m1, m2, b'-', d1, d2, b'T', h1, h2, b':', i1, i2, b':', s1, s2, b'Z',
    ]
}

/// The text that [`read_stamp`] reads as this second, which lies before the year 10000.
pub fn put_stamp(at: Stamp) -> [u8; 20]
    requires { at.0 ≤ 253402300799 }
    ensures { spec.stamp_of result ≡ Some at.0 }
{
    text_of(date_of((at.0 / 86_400) as u32), (at.0 % 86_400) as u32)
}
