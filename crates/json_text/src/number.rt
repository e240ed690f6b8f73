// Numbers, each part as long as it can be.
ghost use Rattle.std.specs.Prelude.{◌≤◌, length};
ghost use Rattle.json_text.specs.Scans.{SomeSaid, ExpSaid, TailSaid, MagnitudeSaid};

use crate::bytes::is_digit;
use crate::error::ScanError;
use crate::token::{digits, peek};

// One digit or more, from `first` on.
pub(crate) fn some(s: &[u8], first: usize) -> Result<usize, ScanError>
    requires { first ≤ length s.now }
    ensures { SomeSaid s.now first result }
{
    match peek(s, first) {
        Some(b) if is_digit(b) => Ok(digits(s, first + 1)),
        _ => Err(ScanError::Broke(first)),
    }
}

// The exponent of a number, if there is one.
pub(crate) fn exponent(s: &[u8], at: usize) -> Result<usize, ScanError>
    requires { at ≤ length s.now }
    ensures { ExpSaid s.now at result }
{
    match peek(s, at) {
        Some(b'e' | b'E') => match peek(s, at + 1) {
            Some(b'+' | b'-') => some(s, at + 2),
            _ => some(s, at + 1),
        },
        _ => Ok(at),
    }
}

// What follows the digits of a number: its fraction and its exponent, each if there is one.
pub(crate) fn tail(s: &[u8], at: usize) -> Result<usize, ScanError>
    requires { at ≤ length s.now }
    ensures { TailSaid s.now at result }
{
    match peek(s, at) {
        Some(b'.') => exponent(s, some(s, at + 1)?),
        _ => exponent(s, at),
    }
}

// A number, from past its sign.
pub(crate) fn magnitude(s: &[u8], at: usize) -> Result<usize, ScanError>
    requires { at ≤ length s.now }
    ensures { MagnitudeSaid s.now at result }
{
    match peek(s, at) {
        Some(b'0') => tail(s, at + 1),
        Some(b) if is_digit(b) => tail(s, digits(s, at + 1)),
        _ => Err(ScanError::Broke(at)),
    }
}
