//! Fractions in lowest terms.
ghost use Rattle.std.specs.Prelude.{◌≡◌, ◌<◌, IfOk};
ghost use Rattle.std.specs.Int.{IsGcd};
ghost use Rattle.event_rules.specs.Fractions.{FractionsAreLowest, four_digits, ratio_text};

use crate::decimals::put_wide_decimal;
use std::alloc::{AllocError, Global};
use std::marker::Model;

/// A fraction in lowest terms; 0 is 0/1. In contracts, its two parts.
#[derive(Clone, Copy, Debug, PartialEq, Eq)]
pub struct Fraction {
    top: u128,
    under: u128,
}

impl Model for Fraction {
    ghost use Rattle.event_rules.specs.Fractions.{Ratio};

    ghost Value = { Ratio };

    ghost use Rattle.line_text.specs.FractionInside.{ratio_in, IsFractionInside};

    ghost view = { ratio_in };

    ghost invariant = { IsFractionInside };

    ghost inverse = { λ r. record { top = r.top; under = r.under } };
}

impl Fraction {
    ghost use Rattle.std.specs.Prelude.{◌≡◌, ◌<◌, ◌≤◌, ◌^◌};
    ghost use Rattle.std.specs.Int.{IsGcd};
    ghost use Rattle.event_rules.specs.Fractions.{lowest};

    /// The quotient of two numbers in lowest terms.
    pub fn new(top: u128, under: u128) -> Fraction
        requires not_zero { 0 < under }
        requires range { under ≤ 10 ^ 30 }
        ensures { result ≡ lowest top under }
    {
        let divisor = common_divisor(top, under);
        Fraction {
            top: top / divisor,
            under: under / divisor,
        }
    }

    /// The number above the line. No number but 1 divides it and the one below.
    pub fn top(&self) -> u128
        ensures top { result ≡ self.now.top }
        ensures lowest { IsGcd self.now.top self.now.under 1 }
    {
        self.top
    }

    /// The number below the line, which is not 0. No number but 1 divides it and the one above.
    pub fn under(&self) -> u128
        ensures under { result ≡ self.now.under }
        ensures not_zero { 0 < self.now.under }
        ensures lowest { IsGcd self.now.top self.now.under 1 }
    {
        self.under
    }
}

// The greatest number that divides both, by Euclid's algorithm.
fn common_divisor(top: u128, under: u128) -> u128
    ensures { IsGcd top under result }
{
    let mut divisor = top;
    let mut rest = under;
    while rest != 0 {
        let next = divisor % rest;
        divisor = rest;
        rest = next;
    }
    divisor
}

// The last four digits of a number.
fn last_digits(number: u16) -> [u8; 4]
    ensures { result ≡ four_digits number }
{
    [
        b'0' + (number / 1000 % 10) as u8,
        b'0' + (number / 100 % 10) as u8,
        b'0' + (number / 10 % 10) as u8,
        b'0' + (number % 10) as u8,
    ]
}

/// The text of a fraction, `TOP/UNDER,WHOLE.DDDD`: its parts, and its value cut to four decimals. An
/// error says that memory ran out.
pub fn put_fraction(alloc: Global, fraction: Fraction) -> Result<Vec<u8>, AllocError>
    ensures { IfOk result (λ text. text.items ≡ ratio_text fraction) }
{
    let Fraction { top, under } = fraction;
    let decimals = (top % under * 10_000 / under) as u16;
    let mut text = Vec::new(alloc);
    put_wide_decimal(&mut text, top)?;
    text.push(b'/')?;
    put_wide_decimal(&mut text, under)?;
    text.push(b',')?;
    put_wide_decimal(&mut text, top / under)?;
    text.push(b'.')?;
    text.extend_from_slice(&last_digits(decimals))?;
    Ok(text)
}

/// What is called lowest is the same quotient, and no number but 1 divides both of its parts.
pub fn fractions_are_lowest()
    ensures { FractionsAreLowest }
{}
