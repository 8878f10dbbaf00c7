//! Numbers as certificates spell them: in one form each.
ghost use Rattle.std.specs.Prelude.{◌≡◌, ◌<◌, ◌≤◌, ◌^◌, IfSome, None, Some, if◌then◌else◌, length, option_map, pos, unsigned_abs};
ghost use Rattle.certificate.specs.Numbers.{is_bare, natural_of, negative_of, whole_of};

use flow_types::spelled_number;

// As many digits as the largest number has that has a range.
const MOST_DIGITS: usize = 38;

/// The number that the bytes spell: 0, or at most 38 digits of which the first isn't 0.
pub fn natural_of(bytes: &[u8]) -> Option<u128>
    ensures value { result ≡ natural_of bytes.now }
    ensures small { IfSome result (λ n. n < 10 ^ 38) }
{
    if !is_bare(bytes) || bytes.len() > MOST_DIGITS {
        return None;
    }
    spelled_number(bytes)
}

/// The number that the bytes spell, with `-` in front of one below 0.
pub fn whole_of(bytes: &[u8]) -> Option<i128>
    ensures value { result ≡ whole_of bytes.now }
    ensures small { IfSome result (λ z. unsigned_abs z < 10 ^ 38) }
{
    let (first, rest) = bytes.split_first()?;
    if *first == b'-' {
        negative_of(natural_of(rest))
    } else {
        positive_of(natural_of(bytes))
    }
}

// Whether there is a byte, and no 0 in front of another.
fn is_bare(bytes: &[u8]) -> bool
    ensures { result ≡ is_bare bytes.now }
{
    match bytes.split_first() {
        None => false,
        Some((first, rest)) => rest.is_empty() || *first != b'0',
    }
}

// The negative of a number that isn't 0.
fn negative_of(number: Option<u128>) -> Option<i128>
    requires { IfSome number (λ n. n < 10 ^ 38) }
    ensures value { result ≡ negative_of number }
    ensures small { IfSome result (λ z. unsigned_abs z < 10 ^ 38) }
{
    match number {
        None | Some(0) => None,
        Some(n) => Some(-(n as i128)),
    }
}

// The number itself.
fn positive_of(number: Option<u128>) -> Option<i128>
    requires { IfSome number (λ n. n < 10 ^ 38) }
    ensures value { result ≡ option_map pos number }
    ensures small { IfSome result (λ z. unsigned_abs z < 10 ^ 38) }
{
    match number {
        None => None,
        Some(n) => Some(n as i128),
    }
}
