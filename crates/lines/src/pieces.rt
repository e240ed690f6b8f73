// The pieces of a line, put into a lent list at a place. Each answers the place behind what it put.
// Stays: no Display. `report` promises each byte wherever the list has room, and of `write!` to a list no clause says that
// it succeeds there.
ghost use Rattle.std.specs.Prelude.{◌+◌, ◌≤◌, ◌≡◌, length};
ghost use Rattle.lines.specs.Decimal.{decimal_of};
ghost use Rattle.lines.specs.Report.{field, Put};

// Stays: a list and a place are no struct. It would hold the lent list, and each clause would speak of both fields before
// and after.

// Puts a word.
pub(crate) fn put(out: &mut [u8], at: usize, word: &[u8]) -> usize
    requires { at + length word.now ≤ length out.old }
    ensures { Put out.old at word.now result out.new }
{
    let end = at + word.len();
    out[at..end].copy_from_slice(word);
    end
}

// How many digits a number has.
pub(crate) fn width(n: u32) -> usize
    ensures { (result ≡ length (decimal_of n)) × (result ≤ 10) }
{
    let tens = n.checked_ilog10().unwrap_or(0);
    1 + tens as usize
}

// Puts the digits of a number, from the last to the first.
pub(crate) fn put_decimal(out: &mut [u8], at: usize, n: u32) -> usize
    requires { at + length (decimal_of n) ≤ length out.old }
    ensures { Put out.old at (decimal_of n) result out.new }
{
    let end = at + width(n);
    let mut rest = n;
    for i in (at..end).rev() {
        out[i] = b'0' + (rest % 10) as u8;
        rest /= 10;
    }
    end
}

// Puts a word and the number behind it.
pub(crate) fn put_field(out: &mut [u8], at: usize, word: &[u8], n: u32) -> usize
    requires { at + length (field word.now n) ≤ length out.old }
    ensures { Put out.old at (field word.now n) result out.new }
{
    let a = put(out, at, word);
    put_decimal(out, a, n)
}
