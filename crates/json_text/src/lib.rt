// A JSON text, read from the left with the grammar of RFC 8259 (rule 11), and the depth count over its bytes (rule 10).
#![tactic(auto)]

ghost use Rattle.std.specs.Prelude.{◌≡◌};
ghost use Rattle.json_text.specs.Answer.{scan_of};
ghost use Rattle.json_text.specs.Depth.{depth_of};

mod bytes;
mod error;
mod number;
mod places;
mod string;
mod token;
mod value;

pub use bytes::is_plain;
pub use error::{ScanError, TooDeep};
pub use places::{digits_at, literal_at, name_at, past_ws, value_at};
pub use string::close;
use token::{peek, skip_ws};
use value::text;

// Document 01's limit on how deep arrays and objects stand in one another (rule 10).
const LEVELS: usize = 32;

// The mark that opens and closes a string.
const MARK: u8 = b'"';

// Rule 10: the depth count over the whole of `s`, a JSON text or not.
pub fn depth(s: &[u8]) -> Result<(), TooDeep>
    ensures { result ≡ depth_of 32 s.now }
{
    let mut d = 0;
    let mut i = 0;
    // Stays: no `for` over the bytes, since a string is skipped whole, as far as `close` says.
    while i < s.len() {
        let b = s[i];
        if b == MARK {
            i = close(s, i + 1);
        } else if (b == b'[') | (b == b'{') {
            if d == LEVELS {
                return Err(TooDeep { place: i });
            }
            d += 1;
        } else if (b == b']') | (b == b'}') {
            d = d.saturating_sub(1);
        }
        i += 1;
    }
    Ok(())
}

// Rule 11: whether `s` is a JSON text whose value is an object, or the place at which no such text goes on.
pub fn scan(s: &[u8]) -> Result<usize, ScanError>
    ensures { result ≡ scan_of 32 s.now }
{
    let start = skip_ws(s, 0);
    if peek(s, start) == Some(b'{') {
        return text(s, start, LEVELS);
    }
    Err(ScanError::Broke(start))
}
