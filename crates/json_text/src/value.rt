// Values, and the text: value, rest and item call each other, and the levels left fall at each nesting.
ghost use Rattle.std.specs.Prelude.{◌≡◌, ◌≤◌, length};
ghost use Rattle.json_text.specs.Scans.{WsTo, AfterSaid, OpensAt, ScalarSaid, ValueSaid, OpenSaid, ItemSaid, TextSaid, opening, closing};

use crate::bytes::is_digit;
use crate::error::ScanError;
use crate::number::magnitude;
use crate::string::{chars, name};
use crate::token::{literal, peek, skip_ws};

// What brackets hold: values, or values with names.
#[derive(Clone, Copy)]
pub(crate) enum Kind {
    Array,
    Object,
}

impl Kind {
    // The bracket that ends it.
    pub(crate) fn close(self) -> u8
        ensures { result ≡ closing self }
    {
        match self {
            Kind::Array => b']',
            Kind::Object => b'}',
        }
    }
}

// What follows an item of an array or an object: the place of the next item, or the end.
#[derive(Clone, Copy)]
pub(crate) enum Next {
    More(usize),
    End(usize),
}

// What follows an item between brackets that `close` ends.
pub(crate) fn after(s: &[u8], at: usize, close: u8) -> Result<Next, ScanError>
    requires { at ≤ length s.now }
    ensures { AfterSaid s.now at close result }
{
    let past = skip_ws(s, at);
    match peek(s, past) {
        Some(b',') => Ok(Next::More(skip_ws(s, past + 1))),
        Some(b) if b == close => Ok(Next::End(past + 1)),
        _ => Err(ScanError::Broke(past)),
    }
}

// A value that is no array and no object.
pub(crate) fn scalar(s: &[u8], at: usize) -> Result<usize, ScanError>
    requires { at ≤ length s.now }
    ensures { ScalarSaid s.now at result }
{
    match peek(s, at) {
        Some(b'n') => literal(s, at + 1, b"ull"),
        Some(b'"') => chars(s, at + 1),
        Some(b't') => literal(s, at + 1, b"rue"),
        Some(b'f') => literal(s, at + 1, b"alse"),
        Some(b'-') => magnitude(s, at + 1),
        Some(b) if is_digit(b) => magnitude(s, at),
        _ => Err(ScanError::Broke(at)),
    }
}

// The array or the object that starts at `at`, if one does.
pub(crate) fn opened(s: &[u8], at: usize) -> Option<Kind>
    requires { at ≤ length s.now }
    ensures { OpensAt s.now at result }
{
    match peek(s, at) {
        Some(b'[') => Some(Kind::Array),
        Some(b'{') => Some(Kind::Object),
        _ => None,
    }
}

// A value, where `levels` arrays and objects may stand in one another.
#[cycle(item_rest_value)]
pub(crate) fn value(s: &[u8], at: usize, levels: usize) -> Result<usize, ScanError>
    requires { at ≤ length s.now }
    ensures { ValueSaid s.now at levels result }
{
    match opened(s, at) {
        Some(_) if levels == 0 => Err(ScanError::Deep(at)),
        Some(kind) => rest(s, at + 1, kind, levels - 1),
        None => scalar(s, at),
    }
}

// The rest of an array or an object, from past its opening bracket.
#[cycle(item_rest_value)]
pub(crate) fn rest(s: &[u8], at: usize, kind: Kind, levels: usize) -> Result<usize, ScanError>
    requires { at ≤ length s.now }
    ensures { OpenSaid (opening kind) s.now at levels result }
{
    let close = kind.close();
    let mut i = skip_ws(s, at);
    if peek(s, i) == Some(close) {
        return Ok(i + 1);
    }
    loop {
        let past = item(s, i, kind, levels)?;
        match after(s, past, close)? {
            Next::More(next) => i = next,
            Next::End(end) => return Ok(end),
        }
    }
}

// An item: a value, in an object behind a name and a colon.
#[cycle(item_rest_value)]
pub(crate) fn item(s: &[u8], at: usize, kind: Kind, levels: usize) -> Result<usize, ScanError>
    requires { at ≤ length s.now }
    ensures { ItemSaid kind s.now at levels result }
{
    match kind {
        Kind::Array => value(s, at, levels),
        Kind::Object => value(s, name(s, at)?, levels),
    }
}

// A whole text, whose value starts at `start`, behind white space.
pub(crate) fn text(s: &[u8], start: usize, levels: usize) -> Result<usize, ScanError>
    requires { WsTo s.now 0 start }
    ensures { TextSaid s.now levels result }
{
    let past = value(s, start, levels)?;
    let end = skip_ws(s, past);
    if end == s.len() {
        return Ok(end);
    }
    Err(ScanError::Broke(end))
}
