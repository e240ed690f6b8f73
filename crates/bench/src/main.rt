// The bench program: takes a file from standard input and writes its verdict, item and counts to standard output.
#![tactic(auto)]

ghost use Rattle.std.specs.Prelude.{◌≡◌, ◌++◌, ◌≤◌, ◌<◌, ℕ, length, take, drop, IfOk, OnOk, OnErr, IfSome};
ghost use Rattle.std.specs.Io.KnownBytes.{Appends, Consumes, IsAtEnd};
ghost use Rattle.lines.specs.Report.{longest};
ghost use Rattle.glb.specs.Results.{checked_of};
ghost use Rattle.lines.specs.Results.{report_on};
ghost use Rattle.bench.specs.Bench.{answer_of, lines_of, Within};

use glb::Fault;
use lines::Summary;
use std::io::{Read, Write};
use std::{fmt, io};
use tables::Tables;

// The most bytes that are checked.
const LIMIT: usize = 65536;

// Room for one byte more than are checked.
fn input_buffer() -> [u8; 65537]
    ensures { 65537 ≡ length result }
{
    [0; 65537]
}

// Reads until the input ends or the buffer is full, and says how many bytes came. They lie at the start of the buffer, also
// those that came before an error.
fn read_input<I: Read>(input: &mut I, buffer: &mut [u8]) -> io::Result<usize>
    ensures within { Within result buffer.new }
    ensures bytes { IfOk result (λ n. Consumes (I.remaining input.old) (I.remaining input.new) (take n buffer.new)) }
    ensures end { IfOk result (λ n. n < length buffer.new → IsAtEnd (I.remaining input.new)) }
    ensures err { OnErr result ((n : ℕ) × (n ≤ length buffer.new)
        × Consumes (I.remaining input.old) (I.remaining input.new) (take n buffer.new)) }
{
    input::read_full(input, buffer)
}

// What is reported of a checked file.
// Stays: no From, since neither type is of this crate.
fn summary(checked: Result<Tables, Fault>) -> Summary
    ensures { report_on result ≡ lines_of (checked_of checked) }
{
    match checked {
        Ok(t) => Summary {
            verdict: 0,
            item: 0,
            views: t.views,
            accessors: t.accessors,
            nodes: t.nodes,
            scenes: t.scenes,
        },
        Err(broken) => Summary {
            verdict: broken.rule,
            item: broken.item,
            ..Summary::default()
        },
    }
}

// What is written for an input, at the start of the list, and its length.
fn answer(input: &[u8], out: &mut [u8]) -> usize
    requires { longest ≤ length out.old }
    ensures { (result ≡ length (answer_of input.now))
        × (out.new ≡ answer_of input.now ++ drop (length (answer_of input.now)) out.old) }
{
    if LIMIT < input.len() {
        return lines::too_long(out).unwrap_or(0);
    }
    // There is room, as the clause says: neither is None.
    lines::report(summary(glb::check(input)), out).unwrap_or(0)
}

// Checks and answers the input that was read.
fn respond<O: Write>(input: &[u8], out: &mut O) -> io::Result<()>
    ensures { OnOk result (Appends (O.contents out.old) (O.contents out.new) (answer_of input.now)) }
{
    let mut line = [0u8; lines::LONGEST];
    let n = answer(input, &mut line);
    out.write_all(&line[..n])
}

// What did not come about.
#[derive(Clone, Copy, PartialEq, Eq, Debug)]
enum Failure {
    Read,
    Write,
}

impl fmt::Display for Failure {
    fn fmt<W: fmt::Write>(&self, f: &mut fmt::Formatter<W>) -> fmt::Result {
        match self {
            Failure::Read => f.write_str("bench: cannot read standard input"),
            Failure::Write => f.write_str("bench: cannot write standard output"),
        }
    }
}

// Reads a file and answers it.
fn run<I: Read, O: Write>(input: &mut I, out: &mut O, buffer: &mut [u8]) -> Result<(), Failure>
    requires { 65537 ≡ length buffer.old }
    ensures { OnOk result (IfSome (I.remaining input.old)
        (λ file. Appends (O.contents out.old) (O.contents out.new) (answer_of file))) }
{
    let n = read_input(input, buffer).map_err(|_| Failure::Read)?;
    respond(&buffer[..n], out).map_err(|_| Failure::Write)
}

fn main(rt: HostRuntime) {
    let mut buffer = input_buffer();
    if let Err(failure) = run(&mut rt.stdin(), &mut rt.stdout(), &mut buffer) {
        let _ = rt.eprintln(failure);
    }
}
