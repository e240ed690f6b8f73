// Questions about one byte.
ghost use Rattle.std.specs.Prelude.{◌≡◌};
ghost use Rattle.json_text.specs.Grammar.{IsWs, HexDigit, Digit};
ghost use Rattle.json_text.specs.Scans.{Tells};
ghost use Rattle.json_text.specs.Strings.{plain};

// White space.
pub(crate) fn is_ws(b: u8) -> bool
    ensures { Tells (IsWs b) result }
{
    (b == b' ') | (b == b'\t') | (b == b'\n') | (b == b'\r')
}

// A decimal digit.
pub(crate) fn is_digit(b: u8) -> bool
    ensures { Tells (Digit b) result }
{
    b.is_ascii_digit()
}

// A hexadecimal digit.
pub(crate) fn is_hex(b: u8) -> bool
    ensures { Tells (HexDigit b) result }
{
    b.is_ascii_hexdigit()
}

// A byte that stands for itself in a string.
// Stays: a `u8` would ask more of the callers of this public function than a number does.
pub fn is_plain(b: usize) -> bool
    ensures { result ≡ plain b }
{
    (0x20 <= b) & (b <= 0xff) & (b != 0x22) & (b != 0x5c)
}
