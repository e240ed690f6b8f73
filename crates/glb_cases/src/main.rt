// Reads GLB files from standard input, each behind its length in 4 bytes, little-endian, and writes a line for each with
// twelve parts between bars: verdict and item; the five counts; six components (number, value); two views (number, start,
// length); two walks (number, count, nodes).
#![tactic(auto)]

use access::{Place, Reading};
use glb::Checked;
use scene::Walked;
use std::io;
use std::io::{Read, Write};
use tables::Tables;

// The most files that are read.
const FILES: u32 = 1000;

// The most bytes of a file.
const LONGEST: usize = 65536;

fn counts(t: Tables, out: &mut impl Write) -> io::Result<()> {
    let Tables {
        buffers,
        views,
        accessors,
        nodes,
        scenes,
        ..
    } = t;
    write!(out, " | {buffers} {views} {accessors} {nodes} {scenes}")
}

fn component(
    file: &[u8],
    t: Tables,
    accessor: u32,
    element: u32,
    place: u32,
    out: &mut impl Write,
) -> io::Result<()> {
    let reading = access::component(file, t, accessor, element, place);
    let Reading { number, value } = reading.into();
    write!(out, " | {number} {value}")
}

fn view(file: &[u8], t: Tables, view: u32, out: &mut impl Write) -> io::Result<()> {
    let (number, start, length) = match access::view_place(file, t, view) {
        Ok(Place { start, length }) => (0, start, length),
        Err(refusal) => (refusal.number(), 0, 0),
    };
    write!(out, " | {number} {start} {length}")
}

// The first so many entries of a list, or all of them.
fn entries(list: &[u16], count: usize, out: &mut impl Write) -> io::Result<()> {
    for entry in list.iter().take(count) {
        write!(out, " {entry}")?;
    }
    Ok(())
}

fn walk(t: Tables, scene: u32, list: &mut [u16], out: &mut impl Write) -> io::Result<()> {
    let Walked { number, count } = scene::walk(t, scene, list).into();
    write!(out, " | {number} {count}")?;
    entries(list, count, out)
}

fn report(file: &[u8], out: &mut impl Write) -> io::Result<()> {
    let Checked {
        verdict,
        item,
        tables: t,
    } = Checked::from(glb::check(file));
    write!(out, "{verdict} {item}")?;
    counts(t, out)?;
    component(file, t, 0, 0, 0, out)?;
    component(file, t, 0, 1, 0, out)?;
    component(file, t, 0, 2, 1, out)?;
    component(file, t, 1, 0, 0, out)?;
    component(file, t, 1, 3, 2, out)?;
    component(file, t, 0, 4294967295, 0, out)?;
    view(file, t, 0, out)?;
    view(file, t, 1, out)?;
    let mut long = [0u16; 16];
    walk(t, 0, &mut long, out)?;
    let mut short = [0u16; 2];
    walk(t, 1, &mut short, out)?;
    writeln!(out)
}

// The next file's length, where there is a file.
fn next_length(input: &mut impl Read) -> io::Result<Option<usize>> {
    let mut head = [0u8; 4];
    if input::read_full(input, &mut head)? < 4 {
        return Ok(None);
    }
    Ok(Some(u32::from_le_bytes(head) as usize))
}

// Reports the next file; whether there was one and it fitted the buffer.
fn report_next(input: &mut impl Read, out: &mut impl Write, buffer: &mut [u8]) -> io::Result<bool> {
    let Some(n) = next_length(input)? else {
        return Ok(false);
    };
    if buffer.len() < n {
        return Ok(false);
    }
    if input::read_full(input, &mut buffer[..n])? < n {
        return Ok(false);
    }
    report(&buffer[..n], out)?;
    Ok(true)
}

fn main(rt: HostRuntime) -> io::Result<()> {
    let mut buffer = [0u8; LONGEST];
    for _ in 0..FILES {
        if !report_next(&mut rt.stdin(), &mut rt.stdout(), &mut buffer)? {
            break;
        }
    }
    Ok(())
}
