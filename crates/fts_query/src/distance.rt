ghost use Rattle.std.specs.Prelude.{◌≡◌, ◌+◌, ◌-◌, ◌*◌, ◌<◌, ◌≤◌, length, None, Some, IfNone};
ghost use Rattle.std.specs.Prelude.{IfSome};
ghost use Rattle.std.specs.List.{prefix_len};
ghost use Rattle.std.specs.Char.{is_ascii_digit};
ghost use Rattle.fts_meaning.specs.Distance.{decimal_value, blanks, distance_tail};

use fts_token::has_word_byte;

/// How many spaces and tabs stand at the front.
fn blank_count(bytes: &[u8]) -> usize
    ensures count { result ≡ blanks bytes.now }
    ensures within { result ≤ length bytes.now }
{
    bytes
        .iter()
        .take_while(|byte| **byte == b' ' || **byte == b'\t')
        .count()
}

/// How many digits stand at the front.
fn digit_count(bytes: &[u8]) -> usize
    ensures count { result ≡ prefix_len is_ascii_digit bytes.now }
    ensures within { result ≤ length bytes.now }
{
    bytes
        .iter()
        .take_while(|byte| byte.is_ascii_digit())
        .count()
}

/// The value of decimal digits, or nothing where it is above 65,535.
fn value_of(digits: &[u8]) -> Option<u16>
    ensures none { IfNone result (65535 < decimal_value digits.now) }
    ensures some { IfSome result (λ value. value ≡ decimal_value digits.now) }
{
    let mut value: u32 = 0;
    for digit in digits {
        value = grown(value, *digit);
    }
    u16::try_from(value).ok()
}

/// A value with a digit behind it; once it is above 65,535 it stays.
fn grown(value: u32, digit: u8) -> u32
    requires { value < 1000000 }
    ensures small { value ≤ 65535 → result ≡ value * 10 + (digit - 48) }
    ensures large { 65535 < value → result ≡ value }
{
    if value <= 65_535 {
        value * 10 + u32::from(digit.saturating_sub(b'0'))
    } else {
        value
    }
}

/// What makes a phrase a distance, where it stands behind the closing quote: how many bytes it has,
/// and its number.
pub(crate) fn distance_tail(behind: &[u8]) -> Option<(usize, u16)>
    ensures none { IfNone result (distance_tail behind.now ≡ None) }
    ensures some { IfSome result (λ tail. distance_tail behind.now
        ≡ Some (record { len = tail.0; number = tail.1 })) }
    ensures within { IfSome result (λ tail. tail.0 ≤ length behind.now) }
{
    let mark = blank_count(behind);
    if mark >= behind.len() {
        return None;
    }
    if behind[mark] != b'@' {
        return None;
    }
    let digits = &behind[mark + 1..];
    let count = digit_count(digits);
    let len = mark + 1 + count;
    if count == 0 {
        return None;
    }
    if has_word_byte(behind, len) {
        return None;
    }
    let number = value_of(&digits[..count])?;
    Some((len, number))
}
