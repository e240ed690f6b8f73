// Rules 12 and 13: the member names of a JSON text, each rule by a pass over its bytes.
#![tactic(auto)]

ghost use Rattle.std.specs.Prelude.{◌≡◌, false, ◌+◌, ◌≤◌, length, drop, take};
ghost use Rattle.names.specs.Strings.{slashed, same as same_bytes};
ghost use Rattle.names.specs.Names.{escaped_of, search_of, repeat_of};

// Of rule 13. Repeats(p, n): the opening mark of the first name that repeats an earlier one of its object is byte p.
// n is the number of pairs of names of one length that were compared. Full: too many bytes, or too many names at once.
// Stays: three cases, which the definitions `search_of` and `repeat_of` answer with, and neither an Option nor a Result has.
#[derive(Clone, Copy, Debug, PartialEq, Eq)]
pub enum Search {
    Clear(usize),
    Repeats(usize, usize),
    Full,
}

// Whether there is a backslash. It looks at every byte, so that the compiler can take many at once.
fn has_backslash(s: &[u8]) -> bool
    ensures { result ≡ slashed s.now }
{
    let mut seen = false;
    for &b in s {
        seen |= b == b'\\';
    }
    seen
}

// The names of a text that has a backslash somewhere.
fn first_with_backslash(s: &[u8]) -> Option<usize>
    ensures { result ≡ escaped_of s.now }
{
    let mut last = 0;
    let mut size = 0;
    let mut i = 0;
    // Stays: the step is the byte or the whole string that starts there, so a `for` over places would be no plainer.
    while i < s.len() {
        let b = s[i];
        let next = i + 1;
        if b == b'"' {
            let e = json_text::close(s, next);
            last = i;
            size = e - next;
            i = e + 1;
        } else if b == b':' {
            let from = last + 1;
            let to = from + size;
            if has_backslash(&s[from..to]) {
                return Some(last);
            }
            i = next;
        } else {
            i = next;
        }
    }
    None
}

// Rule 12: the place of the opening mark of the first member name, in the order of the text, that holds a backslash.
pub fn first_escaped(s: &[u8]) -> Option<usize>
    ensures { result ≡ escaped_of s.now }
{
    if has_backslash(s) {
        first_with_backslash(s)
    } else {
        None
    }
}

// Whether two names are the same: the n bytes from a and from b on.
fn same(s: &[u8], a: usize, b: usize, n: usize) -> bool
    requires { (a + n ≤ length s.now) × (b + n ≤ length s.now) }
    ensures { result ≡ same_bytes (take n (drop a s.now)) (take n (drop b s.now)) }
{
    s[a..a + n] == s[b..b + n]
}

// The search of rule 13. `starts` and `lengths` are a stack of names: those of the innermost open bracket are the entries
// base .. top, and the entry below base keeps the base of the next outer bracket.
// Stays: two arrays of u16. The entry of an open bracket is the outer base alone and has no length, so a struct of both would have a
// field that means nothing there, and an enum would take 6 bytes in place of 4, of which the stack holds 13,146 (fixed memory).
fn search_names(s: &[u8], starts: &mut [u16], lengths: &mut [u16]) -> Search
    requires { (length s.now ≤ 65536) × (length starts.old ≡ length lengths.old) }
    ensures { result ≡ search_of (length starts.old) s.now }
{
    let room = starts.len();
    let mut base = 0;
    let mut top = 0;
    let mut last = 0;
    let mut size = 0;
    let mut pairs = 0;
    let mut i = 0;
    // Stays: the step is the byte or the whole string that starts there, so a `for` over places would be no plainer.
    'text: while i < s.len() {
        let b = s[i];
        let next = i + 1;
        if b == b'"' {
            let e = json_text::close(s, next);
            last = i;
            size = e - next;
            i = e + 1;
        } else if b == b':' {
            let from = last + 1;
            for k in base..top {
                if lengths[k] as usize == size {
                    pairs += 1;
                    let start = starts[k] as usize + 1;
                    if same(s, from, start, size) {
                        break 'text;
                    }
                }
            }
            if top == room {
                return Search::Full;
            }
            starts[top] = last as u16;
            lengths[top] = size as u16;
            top += 1;
            i = next;
        } else if (b == b'[') | (b == b'{') {
            if top == room {
                return Search::Full;
            }
            starts[top] = base as u16;
            top += 1;
            base = top;
            i = next;
        } else if ((b == b']') | (b == b'}')) & (0 < base) {
            top = base - 1;
            base = starts[top] as usize;
            i = next;
        } else {
            i = next;
        }
    }
    if i < s.len() {
        Search::Repeats(last, pairs)
    } else {
        Search::Clear(pairs)
    }
}

// Rule 13: the first member name, in the order of the text, that repeats an earlier one of its object.
// The arrays have room for every text of 65,536 bytes and 32 levels.
pub fn first_repeat(s: &[u8]) -> Search
    ensures { result ≡ repeat_of s.now }
{
    if 65536 < s.len() {
        return Search::Full;
    }
    let mut starts = [0u16; 13146];
    let mut lengths = [0u16; 13146];
    search_names(s, &mut starts, &mut lengths)
}
