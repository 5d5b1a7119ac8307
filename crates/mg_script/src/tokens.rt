//! Numbers and tokens, read from a field.

ghost use Rattle.std.specs.Prelude.{◌≡◌, ◌+◌, ◌*◌, ◌^◌, ◌≤◌, ◌<◌, ◌∷◌, drop, length, Bool, true, IfOk, IfSome};
ghost use Rattle.std.specs.Option.{option_map, SomeIff};
ghost use Rattle.std.specs.Char.{is_ascii_digit};
ghost use Rattle.std.specs.List.{list_all};
ghost use Rattle.std.specs.Str.Parse.{digits_value};
ghost use Rattle.mg_script.specs.Tokens.{is_decimal, BeginsSpelling, bytes_of_token, bytes_spelled, escaped, hex_value, is_plain, number_of};

use std::alloc::{AllocError, Global};

/// Whether the text is decimal digits, with no leading zero but for `0` itself.
fn is_decimal_text(text: &[u8]) -> bool
    ensures { result ≡ is_decimal text.now }
{
    if text.is_empty() || (text.len() > 1 && text[0] == b'0') {
        return false;
    }
    are_digits(text)
}

fn are_digits(text: &[u8]) -> bool
    ensures { result ≡ list_all is_ascii_digit text.now }
{
    text.iter().all(|digit| digit.is_ascii_digit())
}

/// The value of decimal digits, or `None` where it is 2^64 or more.
fn decimal_value(digits: &[u8]) -> Option<u64>
    requires { list_all is_ascii_digit digits.now ≡ true }
    ensures { SomeIff result (digits_value 10 digits.now < 2 ^ 64) (digits_value 10 digits.now) }
{
    let mut value = 0u64;
    for digit in digits {
        value = value
            .checked_mul(10)?
            .checked_add(u64::from(*digit - b'0'))?;
    }
    Some(value)
}

/// The number whose decimal spelling the text is.
pub fn read_number(text: &[u8]) -> Option<u64>
    ensures { result ≡ number_of text.now }
{
    if is_decimal_text(text) {
        decimal_value(text)
    } else {
        None
    }
}

/// Whether the byte stands for itself in a token.
pub fn is_plain_byte(byte: u8) -> bool
    ensures { result ≡ is_plain byte }
{
    byte >= b'!' && byte <= b'~' && byte != b'%' && byte != b'[' && byte != b']'
}

/// What an upper-case hexadecimal digit stands for.
fn hex_digit_value(digit: u8) -> Option<u8>
    ensures value { result ≡ hex_value digit }
    ensures bound { IfSome result (λ value. value < 16) }
{
    match digit {
        b'0'..=b'9' => Some(digit - b'0'),
        b'A'..=b'F' => Some(digit - b'A' + 10),
        _ => None,
    }
}

/// The byte that two digits behind a `%` stand for. A byte that stands for itself has no such spelling.
fn escaped_byte(high: u8, low: u8) -> Option<u8>
    ensures { result ≡ escaped high low }
{
    let high = hex_digit_value(high)?;
    let low = hex_digit_value(low)?;
    let byte = 16 * high + low;
    if is_plain_byte(byte) {
        None
    } else {
        Some(byte)
    }
}

/// The first byte that a text spells, and how many bytes its spelling has.
fn first_spelled(text: &[u8]) -> Option<(u8, usize)>
    requires { 0 < length text.now }
    ensures { BeginsSpelling text.now result }
{
    if text.len() >= 3 && text[0] == b'%' {
        let byte = escaped_byte(text[1], text[2])?;
        return Some((byte, 3));
    }
    if is_plain_byte(text[0]) {
        Some((text[0], 1))
    } else {
        None
    }
}

/// The bytes that a text spells byte by byte, or `None` where it spells none.
fn read_spelled(alloc: Global, text: &[u8]) -> Result<Option<Vec<u8>>, AllocError>
    ensures { IfOk result (λ found. option_map (λ bytes. bytes.items) found ≡ bytes_spelled text.now) }
{
    let mut bytes = Vec::with_capacity(alloc, text.len())?;
    let mut rest = text;
    while !rest.is_empty() {
        let Some((byte, length)) = first_spelled(rest) else {
            return Ok(None);
        };
        bytes.push(byte)?;
        rest = &rest[length..];
    }
    Ok(Some(bytes))
}

/// The bytes whose token the text is.
#[tactic(auto, unfolding(crate::specs::Tokens::bytes_of_token))]
pub fn read_token(alloc: Global, text: &[u8]) -> Result<Option<Vec<u8>>, AllocError>
    ensures { IfOk result (λ found. option_map (λ bytes. bytes.items) found ≡ bytes_of_token text.now) }
{
    if text == b"%".as_slice() {
        return Ok(Some(Vec::new(alloc)));
    }
    if text.is_empty() {
        return Ok(None);
    }
    read_spelled(alloc, text)
}
