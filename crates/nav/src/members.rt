// The members of an object: one after the other, and those of some names in one pass.
ghost use Rattle.std.specs.Prelude.{◌≡◌, drop, map};
ghost use Rattle.nav.specs.Words.{Quoted};
ghost use Rattle.nav.specs.Members.{gather_of};
ghost use Rattle.nav.specs.Gathers.{Kept, KeptAll};
ghost use Rattle.nav.specs.Results.{members_of};
ghost use Rattle.nav.specs.MemberSteps.{first_member_of, next_member_of, NamedTo};

use crate::scalars::quotes;
use crate::{Step, next_at, open_at};
use json_text::name_at;

// Where a step through an object leads: to a member's name and its value, past the closing brace, or nowhere.
// Stays: three cases, as in Step, which the definitions `first_member_of` and `next_member_of` answer with.
#[derive(Clone, Copy, Debug, PartialEq, Eq)]
pub enum Member {
    More(usize, usize),
    End(usize),
    Bad,
}

// The places of the values of N members that are asked for, and the place past their object.
#[derive(Clone, Copy)]
pub struct Members<const N: usize> {
    pub places: [Option<usize>; N],
    pub past: Option<usize>,
}

// The member that a step leads to.
pub(crate) fn member_at(s: &[u8], step: Step) -> Member
    ensures { NamedTo s.now step result }
{
    match step {
        Step::More(q) => match name_at(s, q) {
            Ok(v) => Member::More(q, v),
            Err(_) => Member::Bad,
        },
        Step::End(q) => Member::End(q),
        Step::Bad => Member::Bad,
    }
}

// The first member of the object at `at`.
#[tactic(auto, using(crate::proofs::Tours::first_is))]
pub fn first(s: &[u8], at: usize) -> Member
    ensures { result ≡ first_member_of s.now (drop at s.now) }
{
    member_at(s, open_at(s, at, b'{', b'}'))
}

// The member of an object that follows the one whose value is at `at`.
#[tactic(auto, using(crate::proofs::Tours::following_is))]
pub fn next(s: &[u8], at: usize) -> Member
    ensures { result ≡ next_member_of s.now (drop at s.now) }
{
    member_at(s, next_at(s, at, 31, b'}'))
}

// `old` if there is one, else `v` if the name at `at` is `word`.
pub(crate) fn keep(s: &[u8], at: usize, word: &[u8], old: Option<usize>, v: usize) -> Option<usize>
    ensures { Kept (Quoted word.now (drop at s.now)) v old result }
{
    match old {
        None if quotes(s, at, word) => Some(v),
        _ => old,
    }
}

// Keeps each of the places, or `v` where there is none and the name at `at` is its word.
// Stays: `places[i]` under `enumerate`, since of the elements that a loop over `places.iter_mut().zip(words)` writes
// the check knows nothing once it is over.
pub(crate) fn keep_all(s: &[u8], at: usize, v: usize, words: &[&[u8]], places: &mut [Option<usize>])
    ensures { KeptAll (drop at s.now) v (map (λ k. k.now) words.now) places.old places.new }
{
    for (i, word) in words.iter().enumerate() {
        if i < places.len() {
            places[i] = keep(s, at, word, places[i], v);
        }
    }
}

// Where the first member that is named by each of the first N words has its value, in the object at `at`.
// Where there are fewer words, the last places are none. The words are a slice, since an array of references whose
// length is a const parameter gets no proof yet.
pub fn gather<const N: usize>(s: &[u8], at: usize, words: &[&[u8]]) -> Members<N>
    ensures { result ≡ members_of N
        (gather_of s.now (drop at s.now) (map (λ k. k.now) words.now)) }
{
    let mut places = [None; N];
    let mut member = first(s, at);
    while let Member::More(n, v) = member {
        keep_all(s, n, v, words, &mut places);
        member = next(s, v);
    }
    let past = match member {
        Member::End(q) => Some(q),
        _ => None,
    };
    Members { places, past }
}
