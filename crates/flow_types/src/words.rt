//! Numbers and names as texts spell them.
ghost use Rattle.std.specs.Prelude.{◌≡◌, ◌<◌, ◌≤◌, ◌^◌, IfSome, None, Some, if◌then◌else◌, length};
ghost use Rattle.std.specs.List.{list_all};
ghost use Rattle.std.specs.Str.{all_ascii_digits};
ghost use Rattle.std.specs.Str.Parse.{digits_value};
ghost use Rattle.flow_types.specs.Limits.{most_digits};
ghost use Rattle.flow_types.specs.Words.{is_name, is_name_byte, number_of};

use crate::limits::{MOST_DIGITS, MOST_NAME_BYTES};

/// The number that 1 to 18 ASCII digits spell, leading zeros allowed; nothing for any other bytes.
pub fn parse_number(bytes: &[u8]) -> Option<u64>
    ensures { result ≡ number_of bytes.now }
{
    if bytes.is_empty() || bytes.len() > MOST_DIGITS {
        return None;
    }
    match spelled_number(bytes) {
        None => None,
        Some(number) => Some(number as u64),
    }
}

/// The number that at most 38 bytes spell, if all of them are ASCII digits; 0 for no bytes.
pub fn spelled_number(bytes: &[u8]) -> Option<u128>
    requires { length bytes.now ≤ 38 }
    ensures value { result ≡ (if all_ascii_digits bytes.now then Some (digits_value 10 bytes.now)
        else None) }
    ensures small { IfSome result (λ n. n < 10 ^ length bytes.now) }
{
    let mut value = 0u128;
    for byte in bytes {
        if !byte.is_ascii_digit() {
            return None;
        }
        value = 10 * value + u128::from(*byte - b'0');
    }
    Some(value)
}

/// Whether the bytes are 1 to 32 ASCII letters, digits, `-` and `_`.
pub fn is_name(bytes: &[u8]) -> bool
    ensures { result ≡ is_name bytes.now }
{
    !bytes.is_empty() && bytes.len() <= MOST_NAME_BYTES && are_name_bytes(bytes)
}

// Whether each byte may stand in a name.
fn are_name_bytes(bytes: &[u8]) -> bool
    ensures { result ≡ list_all is_name_byte bytes.now }
{
    bytes.iter().all(|byte| is_name_byte(*byte))
}

// Whether the byte may stand in a name.
fn is_name_byte(byte: u8) -> bool
    ensures { result ≡ is_name_byte byte }
{
    byte.is_ascii_alphanumeric() || byte == b'-' || byte == b'_'
}
