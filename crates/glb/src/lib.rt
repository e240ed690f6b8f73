// `check`: the tables of any bytes, or the smallest of rules 1 to 47 that they break.
#![tactic(auto)]

ghost use Rattle.std.specs.Prelude.{◌≡◌, ◌<◌, Ok, OnErr};
ghost use Rattle.tables.specs.Records.{empty_tables};
ghost use Rattle.container.specs.Rules.{container_of};
ghost use Rattle.container.specs.Results.{record_of, outcome_of as container_outcome};
ghost use Rattle.glb.specs.Check.{placed_at, check_of};
ghost use Rattle.glb.specs.Results.{outcome_of, holding, checked_of};

use crate::late::late_rule;
use container::Container;
use tables::Tables;
use tables::finding::Finding;

mod late;

// The smallest rule that the file breaks, with the smallest item that breaks it, 0 where no item is named.
// Stays: the rule by its number, as in the layers; and the same two fields as container's Fault and tables' Finding, since each layer
// has an error of its own and none of these crates stands on another for it.
// Stays: rules are numbers, as in the rule table, in `check_of` and in the verdict that C gets.
#[derive(Clone, Copy, Debug, PartialEq, Eq)]
pub struct Fault {
    pub rule: u32,
    pub item: u32,
}

impl From<container::Fault> for Fault {
    ghost from_gives = { λ e fault. fault ≡ record { rule = e.rule; item = e.item } };

    fn from(e: container::Fault) -> Fault {
        Fault {
            rule: e.rule,
            item: e.item,
        }
    }
}

impl From<text::Fault> for Fault {
    ghost from_gives = { λ e fault. fault ≡ record { rule = e.number; item = 0 } };

    fn from(e: text::Fault) -> Fault {
        Fault {
            rule: e.number,
            item: 0,
        }
    }
}

impl From<Finding> for Fault {
    ghost from_gives = { λ e fault. fault ≡ record { rule = e.rule; item = e.item } };

    fn from(e: Finding) -> Fault {
        Fault {
            rule: e.rule,
            item: e.item,
        }
    }
}

// An answer of `check` as C has it: the verdict is 0 where no rule is fault. Refused, every count and entry in the tables is 0.
// Stays: the C interface and the definition `check_of` have a verdict and an item beside the tables.
#[repr(C)]
#[derive(Clone, Copy)]
pub struct Checked {
    pub verdict: u32,
    pub item: u32,
    pub tables: Tables,
}

impl From<Result<Tables, Fault>> for Checked {
    ghost from_gives = { λ r checked. checked ≡ checked_of r };

    #[tactic(auto, unfolding(crate::specs::Results::checked_of))]
    fn from(r: Result<Tables, Fault>) -> Checked {
        match r {
            Ok(tables) => Checked {
                verdict: 0,
                item: 0,
                tables,
            },
            Err(fault) => Checked {
                verdict: fault.rule,
                item: fault.item,
                tables: tables::empty(),
            },
        }
    }
}

// The tables with the buffer's first byte, 0 without a buffer.
#[tactic(auto, unfolding(crate::specs::Check::placed_at))]
fn place_buffer(tables: &mut Tables, start: usize)
    requires { start < 4294967296 }
    ensures { tables.new ≡ placed_at start tables.old }
{
    tables.buffer_start = if tables.buffers != 0 { start as u32 } else { 0 };
}

// Where the BIN chunk's data start, 0 without such a chunk.
#[tactic(auto, unfolding(container::specs::Results::record_of))]
fn bin_start(c: Container) -> usize
    ensures { result ≡ (record_of (Ok c)).bin_start }
{
    match c.bin {
        Some(bin) => bin.start,
        None => 0,
    }
}

// Rules 9 to 47 of a file whose chunks lie so, and its tables into a lent place.
// Stays: a match and no `?`, which would copy the document once more.
fn check_document(file: &[u8], c: Container, tables: &mut Tables) -> Result<(), Fault>
    requires { container_outcome (container_of file.now) ≡ Ok c }
    ensures { holding tables.new result ≡ outcome_of (check_of file.now) }
{
    let end = c.json.start + c.json.length;
    match document::read(&file[c.json.start..end]) {
        Ok(d) => {
            *tables = d.tables;
            place_buffer(tables, bin_start(c));
            late_rule(file, c, tables, &d.placed, d.graph)?;
            Ok(())
        }
        Err(fault) => Err(Fault::from(fault)),
    }
}

// Rules 1 to 47 in their order, and the tables into a lent place. What it holds where a rule is broken is left open.
fn fill(file: &[u8], tables: &mut Tables) -> Result<(), Fault>
    ensures { holding tables.new result ≡ outcome_of (check_of file.now) }
{
    let c = container::open(file)?;
    check_document(file, c, tables)
}

// Rules 1 to 47 in their order, and the tables into a lent place, whatever it held: empty tables where a rule is broken.
// Stays: beside `check`, for a caller that would only copy the tables on.
pub fn check_into(file: &[u8], tables: &mut Tables) -> Result<(), Fault>
    ensures answer { holding tables.new result ≡ outcome_of (check_of file.now) }
    ensures refused { OnErr result (tables.new ≡ empty_tables) }
{
    let answer = fill(file, tables);
    if answer.is_err() {
        *tables = tables::empty();
    }
    answer
}

// Rules 1 to 47 in their order.
pub fn check(file: &[u8]) -> Result<Tables, Fault>
    ensures { result ≡ outcome_of (check_of file.now) }
{
    let mut tables = tables::empty();
    fill(file, &mut tables)?;
    Ok(tables)
}
