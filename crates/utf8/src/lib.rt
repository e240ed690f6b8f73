// Rule 9: whether bytes are UTF-8, by the table of RFC 3629.
#![tactic(auto)]

ghost use Rattle.std.specs.Prelude.{◌≡◌};
ghost use Rattle.utf8.specs.Utf8.{tail, starts2, starts3, starts4, utf8_of};
ghost use Rattle.utf8.specs.Results.{some_width};

// The bytes are not UTF-8: their longest start of whole characters has `place` bytes.
#[derive(Clone, Copy, Debug, PartialEq, Eq)]
pub struct NotUtf8 {
    pub place: usize,
}

// UTF8-tail.
#[tactic(auto, unfolding(crate::specs::Utf8::within))]
fn is_tail(b: u8) -> bool
    ensures { result ≡ tail b }
{
    matches!(b, 0x80..=0xbf)
}

// The first two bytes of a UTF8-2.
#[tactic(auto, unfolding(crate::specs::Utf8::within))]
fn starts_two(a: u8, b: u8) -> bool
    ensures { result ≡ starts2 a b }
{
    matches!((a, b), (0xc2..=0xdf, 0x80..=0xbf))
}

// Of a UTF8-3.
#[tactic(auto, unfolding(crate::specs::Utf8::within))]
fn starts_three(a: u8, b: u8) -> bool
    ensures { result ≡ starts3 a b }
{
    match a {
        0xe0 => matches!(b, 0xa0..=0xbf),
        0xe1..=0xec => matches!(b, 0x80..=0xbf),
        0xed => matches!(b, 0x80..=0x9f),
        0xee..=0xef => matches!(b, 0x80..=0xbf),
        _ => false,
    }
}

// Of a UTF8-4.
#[tactic(auto, unfolding(crate::specs::Utf8::within))]
fn starts_four(a: u8, b: u8) -> bool
    ensures { result ≡ starts4 a b }
{
    match a {
        0xf0 => matches!(b, 0x90..=0xbf),
        0xf1..=0xf3 => matches!(b, 0x80..=0xbf),
        0xf4 => matches!(b, 0x80..=0x8f),
        _ => false,
    }
}

// How many bytes the character has that `s` starts with.
fn width(s: &[u8]) -> Option<usize>
    ensures { result ≡ some_width s.now }
{
    let a = *s.get(0)?;
    if a <= 0x7f {
        return Some(1);
    }
    let b = *s.get(1)?;
    if starts_two(a, b) {
        return Some(2);
    }
    let c = *s.get(2)?;
    if starts_three(a, b) & is_tail(c) {
        return Some(3);
    }
    let d = *s.get(3)?;
    if starts_four(a, b) & is_tail(c) & is_tail(d) {
        return Some(4);
    }
    None
}

// Whether `s` is UTF-8.
#[tactic(auto, using(crate::proofs::Turns::plain_turn, crate::proofs::Turns::wide_turn, crate::proofs::Turns::some_more, crate::proofs::Turns::ends_here, crate::proofs::Turns::whole_here))]
pub fn check(s: &[u8]) -> Result<(), NotUtf8>
    ensures { result ≡ utf8_of s.now }
{
    let mut i = 0;
    // Stays: the step is the width of the character, so a `for` over places would be no plainer.
    while i < s.len() {
        if s[i] < 0x80 {
            i += 1;
        } else {
            i += width(&s[i..]).ok_or(NotUtf8 { place: i })?;
        }
    }
    Ok(())
}
