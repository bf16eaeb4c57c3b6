ghost use Rattle.std.specs.Prelude.{◌≡◌, ◌≤◌, ◌<◌, ◌^◌, ◌+◌, ◌-◌, ◌*◌, pos, neg_ℤ, ◌&&◌, nat_le, length, is_some, IfOk, IfSome, MatchOption};
ghost use Rattle.std.specs.Char.{is_ascii_digit};
ghost use Rattle.std.specs.Str.{chars};
ghost use Rattle.rx_value.specs.Functions.{joined_texts, are_digits, number_behind, signed_number, number_of_text};

use crate::limits::TEXT_LIMIT;
use crate::memory::Memory;
use crate::shown::show;
use crate::text::RxText;
use crate::value::Value;
use std::alloc::Global;

/// What is shown for all values, one text behind the other; None where it has more bytes than a text
/// may have.
pub fn joined_texts(alloc: Global, values: &[Value]) -> Result<Option<RxText>, Memory>
    ensures { IfOk result (λ text.
        MatchOption text (TEXT_LIMIT < length (joined_texts values.now))
        (λ t. (t ≡ joined_texts values.now) × (length t ≤ TEXT_LIMIT))) }
{
    let mut joined = RxText::new(alloc);
    for value in values {
        let shown = show(alloc, value)?;
        if shown.len() > TEXT_LIMIT - joined.len() {
            return Ok(None);
        }
        joined.push_str(shown.as_str())?;
    }
    Ok(Some(joined))
}

/// The number of characters.
pub fn character_count(text: &str) -> i64
    ensures { result ≡ pos (length (chars text.now)) }
{
    text.chars().count() as i64
}

/// The number that digits stand for behind those of `number`; None where the byte is no digit or the
/// number is above 2^63.
fn number_and_digit(number: u128, byte: u8) -> Option<u128>
    requires { number ≤ 2 ^ 63 }
    ensures some { is_some result ≡ (is_ascii_digit byte && nat_le (number * 10 + (byte - 48)) (2 ^ 63)) }
    ensures value { IfSome result (λ n. n ≡ number * 10 + (byte - 48)) }
{
    if !byte.is_ascii_digit() {
        return None;
    }
    let longer = number * 10 + u128::from(byte - b'0');
    if longer > 1 << 63 { None } else { Some(longer) }
}

/// The number that digits stand for; None where a byte is no digit, where there is none, and where
/// the number is above 2^63.
fn digits_number(bytes: &[u8]) -> Option<u128>
    ensures some { is_some result ≡ (are_digits bytes.now && nat_le (number_behind 0 bytes.now) (2 ^ 63)) }
    ensures value { IfSome result (λ n. n ≡ number_behind 0 bytes.now) }
{
    if bytes.is_empty() {
        return None;
    }
    let mut number = 0;
    for byte in bytes {
        let Some(longer) = number_and_digit(number, *byte) else {
            return None;
        };
        number = longer;
    }
    Some(number)
}

fn positive_number(bytes: &[u8]) -> Option<i64>
    ensures { result ≡ signed_number (λ n. pos n) bytes.now }
{
    let Some(number) = digits_number(bytes) else {
        return None;
    };
    i64::try_from(number as i128).ok()
}

fn negative_number(bytes: &[u8]) -> Option<i64>
    ensures { result ≡ signed_number (λ n. neg_ℤ (pos n)) bytes.now }
{
    let Some(number) = digits_number(bytes) else {
        return None;
    };
    i64::try_from(-(number as i128)).ok()
}

/// The number that an optional minus sign and one or more digits spell, where it fits 64 bits.
pub fn number_of_text(text: &str) -> Option<i64>
    ensures { result ≡ number_of_text text.now }
{
    match text.as_bytes() {
        [b'-', digits @ ..] => negative_number(digits),
        digits => positive_number(digits),
    }
}
