// A JSON text read at places, with no tree: what stands there, and steps through an array.
// Every function takes any bytes and any place; a place past the end reads as the end.
// Stays: the text and a place go beside each other, as `s` and `at`, and are no struct. One text is read at many places,
// which tables and answers keep as bare numbers, so that the struct would be built anew at each call, and be no plainer.
#![tactic(auto)]

ghost use Rattle.std.specs.Prelude.{◌≡◌, ◌<◌, drop};
ghost use Rattle.json_text.specs.Answer.{first};
ghost use Rattle.nav.specs.Places.{start_of};
ghost use Rattle.nav.specs.Kinds.{kind_of};
ghost use Rattle.nav.specs.Results.{front_of};
ghost use Rattle.nav.specs.Steps.{open_of, next_of, after_of, OpenTo, NextTo, AfterTo};

use json_text::{past_ws, value_at};

pub mod members;
pub mod scalars;

// What a value is, by its first byte.
#[derive(Clone, Copy)]
pub enum Kind {
    Object,
    Array,
    Text,
    True,
    False,
    Null,
    Number,
    Other,
}

// Where a step through an array leads: to an element, past the closing bracket, or nowhere.
// Stays: three cases, which the definitions `open_of` and `next_of` answer with, and neither an Option nor a Result has.
#[derive(Clone, Copy, Debug, PartialEq, Eq)]
pub enum Step {
    More(usize),
    End(usize),
    Bad,
}

// The byte at `at`, if there is one.
pub(crate) fn front(s: &[u8], at: usize) -> Option<u8>
    ensures { result ≡ front_of (drop at s.now) }
{
    s.get(at).copied()
}

// The place of the text's value: the first place that holds no white space.
pub fn start(s: &[u8]) -> usize
    ensures { result ≡ start_of s.now }
{
    past_ws(s, 0)
}

// The kind of the value at `at`.
pub fn kind_at(s: &[u8], at: usize) -> Kind
    ensures { result ≡ kind_of (first (drop at s.now)) }
{
    match front(s, at) {
        Some(b'{') => Kind::Object,
        Some(b'[') => Kind::Array,
        Some(b'"') => Kind::Text,
        Some(b't') => Kind::True,
        Some(b'f') => Kind::False,
        Some(b'n') => Kind::Null,
        Some(b'-' | b'0'..=b'9') => Kind::Number,
        _ => Kind::Other,
    }
}

// The step behind the bracket at `at`, which `close` ends.
pub(crate) fn open_at(s: &[u8], at: usize, bracket: u8, close: u8) -> Step
    ensures { OpenTo s.now (drop at s.now) bracket close result }
{
    if front(s, at) != Some(bracket) {
        return Step::Bad;
    }
    let q = past_ws(s, at + 1);
    if front(s, q) == Some(close) {
        Step::End(q + 1)
    } else {
        Step::More(q)
    }
}

// The step from past a value that ends at `at`, between brackets that `close` ends.
pub(crate) fn after_at(s: &[u8], at: usize, close: u8) -> Step
    ensures { AfterTo s.now (drop at s.now) close result }
{
    let q = past_ws(s, at);
    match front(s, q) {
        Some(b) if b == close => Step::End(q + 1),
        Some(b',') => Step::More(past_ws(s, q + 1)),
        _ => Step::Bad,
    }
}

// The step past the value at `at`, of at most `levels` levels, between brackets that `close` ends.
pub(crate) fn next_at(s: &[u8], at: usize, levels: usize, close: u8) -> Step
    requires { 0x20 < close }
    ensures { NextTo s.now (drop at s.now) levels close result }
{
    match value_at(s, at, levels) {
        Ok(p) => after_at(s, p, close),
        Err(_) => Step::Bad,
    }
}

// The first element of the array at `at`.
#[tactic(auto, using(crate::proofs::Computed::open_answers))]
pub fn open(s: &[u8], at: usize) -> Step
    ensures { result ≡ open_of 0x5b 0x5d s.now (drop at s.now) }
{
    open_at(s, at, b'[', b']')
}

// The element of an array that follows the one at `at`.
#[tactic(auto, using(crate::proofs::Computed::next_answers))]
pub fn next(s: &[u8], at: usize) -> Step
    ensures { result ≡ next_of 32 0x5d s.now (drop at s.now) }
{
    next_at(s, at, 32, b']')
}

// The element of an array that follows the one which ends at `at`.
#[tactic(auto, using(crate::proofs::Computed::after_answers))]
pub fn next_past(s: &[u8], at: usize) -> Step
    ensures { result ≡ after_of 0x5d s.now (drop at s.now) }
{
    after_at(s, at, b']')
}
