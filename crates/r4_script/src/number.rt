//! Fields that are numbers.

ghost use Rattle.std.specs.Prelude.{◌≡◌, ℕ, ◌+◌, ◌≤◌, ◌<◌, length, IfOk, IfSome};
ghost use Rattle.r4_script.specs.Field.{Gives, digits_from, number_of, number_at, mode_at};

use crate::fault::{Stop, What};
use crate::field::{fault_at, field};

/// A field that is a number of 1 to 20 decimal digits, at most `most`, and where the next one begins.
#[tactic(auto, unfolding(crate::specs::Field::number_at))]
pub fn number(line: &[u8], place: usize, most: u64) -> Result<(u64, usize), Stop>
    requires { length line.now ≤ 16777216 }
    ensures read { Gives (λ n. n) result (number_at most line.now place) }
    ensures most { IfOk result (λ n. n.0 ≤ most) }
{
    let (digits, next) = field(line, place)?;
    match digits_value(digits, 10, 20, most) {
        Some(n) => Ok((n, next)),
        None => Err(fault_at(place, What::Number)),
    }
}

/// A field that is a number below 2^32.
pub fn short_number(line: &[u8], place: usize) -> Result<(u32, usize), Stop>
    requires { length line.now ≤ 16777216 }
    ensures { Gives (λ n. n) result (number_at 4294967295 line.now place) }
{
    let (n, next) = number(line, place, 4294967295)?;
    Ok((n as u32, next))
}

/// A field that is a mode, and where the next one begins.
#[tactic(auto, unfolding(crate::specs::Field::mode_at))]
pub fn mode(line: &[u8], place: usize) -> Result<(u16, usize), Stop>
    requires { length line.now ≤ 16777216 }
    ensures { Gives (λ n. n) result (mode_at line.now place) }
{
    let (digits, next) = field(line, place)?;
    match digits_value(digits, 8, 4, 4095) {
        Some(n) => Ok((n as u16, next)),
        None => Err(fault_at(place, What::Number)),
    }
}

// The number of 1 to `count` digits of a base, at most `most`.
#[tactic(auto, unfolding(crate::specs::Field::number_of))]
fn digits_value(digits: &[u8], base: u8, count: usize, most: u64) -> Option<u64>
    requires { (base ≤ 10) × (count ≤ 20) }
    ensures value { result ≡ number_of base count most digits.now }
    ensures most { IfSome result (λ n. n ≤ most) }
{
    if digits.is_empty() || digits.len() > count {
        return None;
    }
    let value = plain_value(digits, base)?;
    if value > u128::from(most) {
        return None;
    }
    Some(value as u64)
}

// The number that the digits of a base make.
fn plain_value(digits: &[u8], base: u8) -> Option<u128>
    requires { (base ≤ 10) × (length digits.now ≤ 20) }
    ensures { result ≡ digits_from base 0 digits.now }
{
    let mut value: u128 = 0;
    for digit in digits {
        if *digit < b'0' || *digit >= b'0' + base {
            return None;
        }
        value = value * u128::from(base) + u128::from(*digit - b'0');
    }
    Some(value)
}
