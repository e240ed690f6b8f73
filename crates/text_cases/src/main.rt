// Reads texts from standard input, one to a line, with ~hh for a byte by its two hexadecimal digits, and writes for each the
// smallest of the rules 9 to 13 that it breaks and the place.
#![tactic(auto)]

ghost use Rattle.std.specs.Prelude.{◌≤◌, ◌<◌, length};

use std::io;
use std::io::Write;
use text::Fault;

// The most bytes that are read.
const MOST: usize = 65536;

// The number of a lowercase hexadecimal digit, 0 for another byte.
fn digit(b: u8) -> u8
    ensures { result < 16 }
{
    match b {
        b'0'..=b'9' => b - b'0',
        b'a'..=b'f' => b - b'a' + 10,
        _ => 0,
    }
}

// The bytes that a line spells, into `text`; how many they are. What does not fit is left out.
fn spelled(line: &[u8], text: &mut [u8]) -> usize
    ensures { result ≤ length text.new }
{
    let mut bytes = line.iter().copied();
    for (n, place) in text.iter_mut().enumerate() {
        let Some(b) = bytes.next() else { return n };
        *place = if b == b'~' {
            let high = digit(bytes.next().unwrap_or(0));
            16 * high + digit(bytes.next().unwrap_or(0))
        } else {
            b
        };
    }
    text.len()
}

fn report(text: &[u8], out: &mut impl Write) -> io::Result<()> {
    let (number, place) = match text::check(text) {
        Ok(()) => (0, 0),
        Err(Fault { number, place }) => (number, place),
    };
    writeln!(out, "{number} {place}")
}

fn report_all(s: &[u8], out: &mut impl Write) -> io::Result<()> {
    let mut text = [0u8; 1024];
    for line in s.split_inclusive(|b| *b == b'\n') {
        let n = spelled(line.strip_suffix(b"\n").unwrap_or(line), &mut text);
        report(&text[..n], out)?;
    }
    Ok(())
}

fn main(rt: HostRuntime) -> io::Result<()> {
    let mut buffer = [0u8; MOST];
    let n = input::read_full(&mut rt.stdin(), &mut buffer)?;
    report_all(&buffer[..n], &mut rt.stdout())
}
