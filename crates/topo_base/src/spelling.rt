//! How numbers are spelled in tables and scripts.

ghost use Rattle.std.specs.Prelude.{◌≡◌, ◌+◌, ◌*◌, ◌≤◌, nat_lt, pos, option_and_then, option_map};
ghost use Rattle.topo_base.specs.declared.id.TheConstants.{LARGEST_ID};
ghost use Rattle.topo_base.specs.Spelling.{digits_behind, id_number, in_range, positive_number, signed_number};

use crate::id::{IdNumber, LARGEST_ID, SignedNumber};

/// What may stand before a last digit, but for the digits past that of `LARGEST_ID`.
const LARGEST_TENTH: IdNumber = LARGEST_ID / 10;

/// Whether one more digit takes a number past `LARGEST_ID`.
fn is_past(number: IdNumber, digit: IdNumber) -> bool
    requires { digit ≤ 9 }
    ensures { result ≡ nat_lt LARGEST_ID (10 * number + digit) }
{
    number >= LARGEST_TENTH && (number > LARGEST_TENTH || digit > LARGEST_ID % 10)
}

/// The number that digits spell, where it is no greater than `LARGEST_ID`.
fn digits(bytes: &[u8]) -> Option<IdNumber>
    ensures { result ≡ option_and_then (in_range 0) (digits_behind 0 bytes.now) }
{
    let mut number: IdNumber = 0;
    for b in bytes {
        if !b.is_ascii_digit() {
            return None;
        }
        let digit = IdNumber::from(*b - b'0');
        if is_past(number, digit) {
            return None;
        }
        number = 10 * number + digit;
    }
    Some(number)
}

/// The number that plain decimal digits spell, from 0 to `LARGEST_ID`: no sign, no leading zero.
/// `None` where the spelling or the range is wrong.
pub fn read_id(bytes: &[u8]) -> Option<IdNumber>
    ensures { result ≡ id_number bytes.now }
{
    match bytes {
        [] | [b'0', _, ..] => None,
        _ => digits(bytes),
    }
}

/// The number that plain decimal digits spell, from 1 to `LARGEST_ID`: no sign, no leading zero.
/// `None` where the spelling or the range is wrong.
pub fn read_positive(bytes: &[u8]) -> Option<IdNumber>
    ensures { result ≡ positive_number bytes.now }
{
    match read_id(bytes) {
        Some(0) => None,
        other => other,
    }
}

/// The same as the number of an edge that is walked forward.
fn read_forward(bytes: &[u8]) -> Option<SignedNumber>
    ensures { result ≡ option_map pos (positive_number bytes.now) }
{
    SignedNumber::try_from(read_positive(bytes)?).ok()
}

/// The number of a signed edge: an optional `-` and then a number as `read_positive` reads it.
/// `None` where the spelling or the range is wrong.
pub fn read_signed(bytes: &[u8]) -> Option<SignedNumber>
    ensures { result ≡ signed_number bytes.now }
{
    match bytes {
        [b'-', digits @ ..] => Some(-read_forward(digits)?),
        _ => read_forward(bytes),
    }
}
