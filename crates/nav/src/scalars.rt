// Strings and integers at places.
ghost use Rattle.std.specs.Prelude.{◌≡◌, drop};
ghost use Rattle.json_text.specs.Parse.{tree_at};
ghost use Rattle.json_text.specs.Scans.{Tells};
ghost use Rattle.nav.specs.Words.{plains, Quoted, is_string_at, is_version_at};
ghost use Rattle.nav.specs.Integers.{spelled, integer_at};
ghost use Rattle.nav.specs.Steps.{next_of};

use crate::{Step, after_at, front};
use json_text::{digits_at, is_plain, literal_at, value_at};

// Whether `word` has no byte that a string spells with an escape.
pub(crate) fn is_word(word: &[u8]) -> bool
    ensures { result ≡ plains word.now }
{
    word.iter().all(|b| is_plain(usize::from(*b)))
}

// Whether a string at `at` starts the text there, and is the plain word `word`.
pub(crate) fn quotes(s: &[u8], at: usize, word: &[u8]) -> bool
    ensures { Tells (Quoted word.now (drop at s.now)) result }
{
    if front(s, at) != Some(b'"') {
        return false;
    }
    let Ok(p) = literal_at(s, at + 1, word) else {
        return false;
    };
    front(s, p) == Some(b'"') && is_word(word)
}

// Whether the value at `at` is the string `word`. A spelling with an escape never is.
#[tactic(auto, using(crate::proofs::Spellings::string_is))]
pub fn string_is(s: &[u8], at: usize, word: &[u8]) -> bool
    ensures { result ≡ is_string_at word.now (tree_at 32 (drop at s.now)) }
{
    quotes(s, at, word)
}

// Whether the value at `at` is a string of the form `2.` and one or more digits (rule 14).
pub fn is_version(s: &[u8], at: usize) -> bool
    ensures { result ≡ is_version_at (tree_at 32 (drop at s.now)) }
{
    let Ok(p) = literal_at(s, at, b"\"2.") else {
        return false;
    };
    match digits_at(s, p) {
        Ok(q) => front(s, q) == Some(b'"'),
        Err(_) => false,
    }
}

// The integer of document 01 that the bytes spell, if they do.
pub(crate) fn integer_from(bytes: &[u8]) -> Option<u32>
    ensures { result ≡ spelled bytes.now }
{
    let mut n: u32 = 0;
    for b in bytes {
        if !b.is_ascii_digit() {
            return None;
        }
        n = n.checked_mul(10)?.checked_add(u32::from(*b - b'0'))?;
    }
    Some(n)
}

// The integer of document 01 at `at`, if one stands there.
pub fn integer_at(s: &[u8], at: usize) -> Option<u32>
    ensures { result ≡ integer_at (tree_at 32 (drop at s.now)) }
{
    let past = value_at(s, at, 32).ok()?;
    integer_from(&s[at..past])
}

// The integer at `at`, if one stands there, and the step to the element of an array that follows: one scan for both.
pub fn integer_then(s: &[u8], at: usize) -> (Option<u32>, Step)
    ensures integer { result.0 ≡ integer_at (tree_at 32 (drop at s.now)) }
    ensures step { result.1 ≡ next_of 32 0x5d s.now (drop at s.now) }
{
    match value_at(s, at, 32) {
        Ok(past) => (integer_from(&s[at..past]), after_at(s, past, b']')),
        Err(_) => (None, Step::Bad),
    }
}
