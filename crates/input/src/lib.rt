// What the programs read with.
#![tactic(auto)]

ghost use Rattle.std.specs.Prelude.{◌<◌, ◌≤◌, ℕ, length, take, IfOk, OnErr};
ghost use Rattle.std.specs.Io.KnownBytes.{Consumes, IsAtEnd};

use std::io;
use std::io::Read;

// Reads until the buffer is full or the input ends, and says how many bytes came. They lie at the start of the buffer, also
// those that came before an error.
pub fn read_full<I: Read>(input: &mut I, buffer: &mut [u8]) -> io::Result<usize>
    ensures within { IfOk result (λ n. n ≤ length buffer.new) }
    ensures bytes { IfOk result (λ n. Consumes (I.remaining input.old) (I.remaining input.new) (take n buffer.new)) }
    ensures end { IfOk result (λ n. n < length buffer.new → IsAtEnd (I.remaining input.new)) }
    ensures err { OnErr result ((n : ℕ) × (n ≤ length buffer.new)
        × Consumes (I.remaining input.old) (I.remaining input.new) (take n buffer.new)) }
{
    // Stays: no index is counted, the loop goes by what came, and of `read_exact` and `read_to_end` no clause says what was
    // read before an error.
    let mut n = 0;
    while n < buffer.len() {
        let more = input.read(&mut buffer[n..])?;
        if more == 0 {
            return Ok(n);
        }
        n += more;
    }
    Ok(n)
}
