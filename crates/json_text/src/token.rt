// What values are made of: bytes, white space, runs of digits and fixed words.
ghost use Rattle.std.specs.Prelude.{◌≤◌, length};
ghost use Rattle.json_text.specs.Results.{code};
ghost use Rattle.json_text.specs.Scans.{Peeks, WsTo, DigitsTo, LitSaid};

use crate::bytes::{is_digit, is_ws};
use crate::error::ScanError;

// Stays: each scanner takes `s` and `at` and asks that `at` is at most its length. A struct of both with that as its
// invariant is no plainer: scanners answer places, so it would be made anew at each step, by the same proof.
// The byte at `at`, or none at the end.
pub(crate) fn peek(s: &[u8], at: usize) -> Option<u8>
    requires { at ≤ length s.now }
    ensures { Peeks s.now at (code result) }
{
    s.get(at).copied()
}

// The first position from `at` on that holds no white space.
pub(crate) fn skip_ws(s: &[u8], at: usize) -> usize
    requires { at ≤ length s.now }
    ensures { WsTo s.now at result }
{
    for i in at..s.len() {
        if !is_ws(s[i]) {
            return i;
        }
    }
    s.len()
}

// The first position from `at` on that holds no digit.
// Stays: beside `skip_ws`, since one function over the test is longer than both: it states what a test of any kind tells.
pub(crate) fn digits(s: &[u8], at: usize) -> usize
    requires { at ≤ length s.now }
    ensures { DigitsTo s.now at result }
{
    for i in at..s.len() {
        if !is_digit(s[i]) {
            return i;
        }
    }
    s.len()
}

// The bytes of `word`.
pub(crate) fn literal(s: &[u8], at: usize, word: &[u8]) -> Result<usize, ScanError>
    requires { at ≤ length s.now }
    ensures { LitSaid s.now at word.now result }
{
    for (k, b) in word.iter().enumerate() {
        if peek(s, at + k) != Some(*b) {
            return Err(ScanError::Broke(at + k));
        }
    }
    Ok(at + word.len())
}
