// The JSON chunk as a whole: rules 9 to 13.
#![tactic(auto)]

ghost use Rattle.std.specs.Prelude.{◌≡◌};
ghost use Rattle.text.specs.Rules.{name_fault, grammar_fault, text_of};
ghost use Rattle.text.specs.Results.{outcome_of};

use json_text::{ScanError, TooDeep};
use names::Search;
use utf8::NotUtf8;

// The smallest of the rules 9 to 13 that a chunk breaks, and the place in the chunk where it is broken.
// 8: the chunk is longer than 65,536 bytes, and no other rule is looked at; the place is 0.
// Stays: the rule is its number in the rule table, which the definitions and theorems name and C gets as the verdict.
#[repr(C)]
#[derive(Clone, Copy, Debug, PartialEq, Eq)]
pub struct Fault {
    pub number: u32,
    pub place: usize,
}

impl From<NotUtf8> for Fault {
    ghost from_gives = { λ e fault. fault ≡ record { number = 9; place = e.place } };

    fn from(e: NotUtf8) -> Fault {
        Fault {
            number: 9,
            place: e.place,
        }
    }
}

// Rules 12 and 13 of a text.
#[tactic(auto, unfolding(crate::specs::Rules::name_fault))]
fn check_names(chunk: &[u8]) -> Result<(), Fault>
    ensures { result ≡ outcome_of (name_fault chunk.now) }
{
    if let Some(place) = names::first_escaped(chunk) {
        return Err(Fault { number: 12, place });
    }
    match names::first_repeat(chunk) {
        Search::Repeats(place, _) => Err(Fault { number: 13, place }),
        Search::Clear(_) | Search::Full => Ok(()),
    }
}

// Rules 10 and 11 of a chunk that the scan does not accept: the depth count decides between them.
#[tactic(auto, unfolding(crate::specs::Rules::grammar_fault))]
fn grammar_fault(chunk: &[u8], place: usize) -> Fault
    ensures { result ≡ grammar_fault chunk.now place }
{
    match json_text::depth(chunk) {
        Err(TooDeep { place: bracket }) => Fault {
            number: 10,
            place: bracket,
        },
        Ok(()) => Fault { number: 11, place },
    }
}

// Rules 9 to 13: the smallest that the chunk breaks. A text that the scan accepts passes rule 10, so the depth is counted only
// where it does not.
#[tactic(auto, using(crate::proofs::Steps::too_long, crate::proofs::Steps::not_utf8, crate::proofs::Steps::accepted, crate::proofs::Steps::broken, crate::proofs::Steps::deep))]
pub fn check(chunk: &[u8]) -> Result<(), Fault>
    ensures { result ≡ outcome_of (text_of chunk.now) }
{
    if 65536 < chunk.len() {
        return Err(Fault {
            number: 8,
            place: 0,
        });
    }
    utf8::check(chunk)?;
    match json_text::scan(chunk) {
        Ok(_) => check_names(chunk),
        Err(ScanError::Broke(place)) => Err(grammar_fault(chunk, place)),
        Err(ScanError::Deep(place)) => Err(grammar_fault(chunk, place)),
    }
}
