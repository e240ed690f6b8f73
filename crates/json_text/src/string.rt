// Strings, and the names of members.
ghost use Rattle.std.specs.Prelude.{◌+◌, ◌≤◌, false, ◌≡◌, length, drop};
ghost use Rattle.json_text.specs.Scans.{HexSaid, EscapeSaid, CharsSaid, NameSaid};
ghost use Rattle.json_text.specs.Strings.{to_close};

use crate::bytes::{is_hex, is_plain};
use crate::error::ScanError;
use crate::token::{peek, skip_ws};

// `count` hexadecimal digits.
pub(crate) fn hex(s: &[u8], at: usize, count: usize) -> Result<usize, ScanError>
    requires { at ≤ length s.now }
    ensures { HexSaid s.now at count result }
{
    for k in 0..count {
        match peek(s, at + k) {
            Some(b) if is_hex(b) => {}
            _ => return Err(ScanError::Broke(at + k)),
        }
    }
    Ok(at + count)
}

// What follows a backslash.
pub(crate) fn escape(s: &[u8], at: usize) -> Result<usize, ScanError>
    requires { at ≤ length s.now }
    ensures { EscapeSaid s.now at result }
{
    match peek(s, at) {
        Some(b'"' | b'\\' | b'/' | b'b' | b'f' | b'n' | b'r' | b't') => Ok(at + 1),
        Some(b'u') => hex(s, at + 1, 4),
        _ => Err(ScanError::Broke(at)),
    }
}

// The rest of a string, from past its opening quotation mark.
pub(crate) fn chars(s: &[u8], at: usize) -> Result<usize, ScanError>
    requires { at ≤ length s.now }
    ensures { CharsSaid s.now at result }
{
    // Stays: no `for` over the bytes, since an escape is skipped whole, as far as `escape` says.
    let mut i = at;
    loop {
        match peek(s, i) {
            Some(b'"') => return Ok(i + 1),
            Some(b'\\') => i = escape(s, i + 1)?,
            Some(b) if is_plain(usize::from(b)) => i += 1,
            _ => return Err(ScanError::Broke(i)),
        }
    }
}

// The name of a member, and the colon behind it.
pub(crate) fn name(s: &[u8], at: usize) -> Result<usize, ScanError>
    requires { at ≤ length s.now }
    ensures { NameSaid s.now at result }
{
    if peek(s, at) != Some(b'"') {
        return Err(ScanError::Broke(at));
    }
    let past = chars(s, at + 1)?;
    let colon = skip_ws(s, past);
    if peek(s, colon) != Some(b':') {
        return Err(ScanError::Broke(colon));
    }
    Ok(skip_ws(s, colon + 1))
}

// The place of the mark that closes the string whose characters start at `at`; the end where none does.
pub fn close(s: &[u8], at: usize) -> usize
    ensures { result ≡ at + to_close false (drop at s.now) }
{
    let mut hidden = false;
    for i in at..s.len() {
        if hidden {
            hidden = false;
        } else if s[i] == b'"' {
            return i;
        } else {
            hidden = s[i] == b'\\';
        }
    }
    at.max(s.len())
}
