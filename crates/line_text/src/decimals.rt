//! Numbers in decimals.
ghost use Rattle.std.specs.Prelude.{◌≡◌, ◌++◌, ◌≤◌, ◌^◌, ◌<◌, true, MatchOption, IfSome, OnOk, decimal};
ghost use Rattle.std.specs.List.{list_all};
ghost use Rattle.event_rules.specs.Decimals.{is_digit, is_decimal, value_of, decimal_within};

use crate::cuts::begins_with_byte;
use std::alloc::AllocError;

fn all_digits(text: &[u8]) -> bool
    ensures { result ≡ list_all is_digit text.now }
{
    text.iter().all(|b| b.is_ascii_digit())
}

fn is_decimal_text(text: &[u8]) -> bool
    ensures { result ≡ is_decimal text.now }
{
    !text.is_empty() && all_digits(text) && (text.len() == 1 || !begins_with_byte(text, b'0'))
}

// The number that digits write, where it fits.
fn value_of_digits(digits: &[u8]) -> Option<u64>
    requires { list_all is_digit digits.now ≡ true }
    ensures { MatchOption result (2 ^ 64 ≤ value_of digits.now) (λ n. n ≡ value_of digits.now) }
{
    let mut value = 0u64;
    for digit in digits {
        value = value
            .checked_mul(10)?
            .checked_add(u64::from(*digit - b'0'))?;
    }
    Some(value)
}

/// The number that a text writes in its one spelling, ASCII digits without a needless leading zero,
/// where it is at most `most`; none for any other text.
pub fn read_decimal(text: &[u8], most: u64) -> Option<u64>
    ensures value { result ≡ decimal_within 0 most text.now }
    ensures bound { IfSome result (λ n. n ≤ most) }
{
    if !is_decimal_text(text) {
        return None;
    }
    let value = value_of_digits(text)?;
    (value <= most).then_some(value)
}

/// Appends a number as its decimal.
pub fn put_decimal(text: &mut Vec<u8>, number: u64) -> Result<(), AllocError>
    ensures { OnOk result (text.new.items ≡ text.old.items ++ decimal number) }
{
    if number >= 10 {
        put_decimal(text, number / 10)?;
    }
    text.push(b'0' + (number % 10) as u8)?;
    Ok(())
}

/// Appends a number of up to 128 bits as its decimal.
pub(crate) fn put_wide_decimal(text: &mut Vec<u8>, number: u128) -> Result<(), AllocError>
    ensures { OnOk result (text.new.items ≡ text.old.items ++ decimal number) }
{
    if number >= 10 {
        put_wide_decimal(text, number / 10)?;
    }
    text.push(b'0' + (number % 10) as u8)?;
    Ok(())
}
