// What the bench program writes, as bytes in a lent list.
#![tactic(auto)]

ghost use Rattle.std.specs.Prelude.{◌+◌, ◌≤◌, ◌≡◌, length};
ghost use Rattle.lines.specs.Report.{verdict_line, counts_line, too_long, longest, written_in, Put};
ghost use Rattle.lines.specs.Results.{report_on, placed_in};

use crate::pieces::{put, put_field, width};

mod pieces;

// The length of the longest report.
pub const LONGEST: usize = 99;

// What is reported of a file: its verdict and item, and of an accepted one the counts.
// Stays: the verdict 0 for none beside the counts, since the definition `report_of` takes any six numbers.
#[derive(Clone, Copy, Debug, Default, PartialEq, Eq)]
pub struct Summary {
    pub verdict: u32,
    pub item: u32,
    pub views: u32,
    pub accessors: u32,
    pub nodes: u32,
    pub scenes: u32,
}

// `verdict 0 item 0`
fn put_verdict(out: &mut [u8], s: Summary) -> usize
    requires { length (verdict_line s.verdict s.item) ≤ length out.old }
    ensures { Put out.old 0 (verdict_line s.verdict s.item) result out.new }
{
    let a = put_field(out, 0, b"verdict ", s.verdict);
    let b = put_field(out, a, b" item ", s.item);
    put(out, b, b"\n")
}

// `views 0 accessors 0 nodes 0 scenes 0`
fn put_counts(out: &mut [u8], at: usize, s: Summary) -> usize
    requires { at + length (counts_line s.views s.accessors s.nodes s.scenes) ≤ length out.old }
    ensures { Put out.old at (counts_line s.views s.accessors s.nodes s.scenes) result out.new }
{
    let a = put_field(out, at, b"views ", s.views);
    let b = put_field(out, a, b" accessors ", s.accessors);
    let c = put_field(out, b, b" nodes ", s.nodes);
    let d = put_field(out, c, b" scenes ", s.scenes);
    put(out, d, b"\n")
}

// How long the report is.
fn report_length(s: Summary) -> usize
    ensures { (result ≡ length (report_on s)) × (result ≤ longest) }
{
    let first = 15 + width(s.verdict) + width(s.item);
    if s.verdict != 0 {
        return first;
    }
    first + 33 + width(s.views) + width(s.accessors) + width(s.nodes) + width(s.scenes)
}

// The report on a file, at the start of the list, and its length. Where the list is too short nothing is written and the
// answer is None; LONGEST bytes always suffice.
pub fn report(s: Summary, out: &mut [u8]) -> Option<usize>
    ensures { (result ≡ placed_in (report_on s) out.old)
        × (out.new ≡ written_in (report_on s) out.old)
        × (length (report_on s) ≤ longest) }
{
    if out.len() < report_length(s) {
        return None;
    }
    let end = put_verdict(out, s);
    if s.verdict == 0 {
        return Some(put_counts(out, end, s));
    }
    Some(end)
}

// `file too long for the bench` and a newline, in the same way.
pub fn too_long(out: &mut [u8]) -> Option<usize>
    ensures { (result ≡ placed_in too_long out.old) × (out.new ≡ written_in too_long out.old) }
{
    if out.len() < 28 {
        return None;
    }
    Some(put(out, 0, b"file too long for the bench\n"))
}
