// The scanners at any place of any bytes; a place past the end reads as the end.
ghost use Rattle.std.specs.Prelude.{◌≡◌, drop};
ghost use Rattle.json_text.specs.Scans.{Clamped};
ghost use Rattle.json_text.specs.Parse.{past_ws};
ghost use Rattle.json_text.specs.Answer.{place_of, literal_of, digits_of, name_of, value_of};

use crate::error::ScanError;
use crate::number::some;
use crate::string::name;
use crate::token::{literal, skip_ws};
use crate::value::value;

// `at`, or the end if `at` is past it.
pub(crate) fn clamp(s: &[u8], at: usize) -> usize
    ensures { Clamped s.now at result }
{
    if at < s.len() { at } else { s.len() }
}

// The first place from `at` on that holds no white space.
pub fn past_ws(s: &[u8], at: usize) -> usize
    ensures { result ≡ place_of s.now (past_ws (drop at s.now)) }
{
    skip_ws(s, clamp(s, at))
}

// The bytes of `word` at `at`.
pub fn literal_at(s: &[u8], at: usize, word: &[u8]) -> Result<usize, ScanError>
    ensures { result ≡ literal_of word.now s.now (drop at s.now) }
{
    literal(s, clamp(s, at), word)
}

// One digit or more at `at`.
pub fn digits_at(s: &[u8], at: usize) -> Result<usize, ScanError>
    ensures { result ≡ digits_of s.now (drop at s.now) }
{
    some(s, clamp(s, at))
}

// The name of a member at `at`, with its colon and the white space behind it.
pub fn name_at(s: &[u8], at: usize) -> Result<usize, ScanError>
    ensures { result ≡ name_of s.now (drop at s.now) }
{
    name(s, clamp(s, at))
}

// The value at `at`, where `levels` arrays and objects may stand in one another.
pub fn value_at(s: &[u8], at: usize, levels: usize) -> Result<usize, ScanError>
    ensures { result ≡ value_of levels s.now (drop at s.now) }
{
    value(s, clamp(s, at), levels)
}
