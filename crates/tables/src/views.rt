// Rules 21 to 24, of one buffer view and of all.
ghost use Rattle.std.specs.Prelude.{◌≡◌};
ghost use Rattle.tables.specs.Views.{view_fault, views_finding};
ghost use Rattle.tables.specs.Results.{broken_below, outcome_of};

use crate::BufferView;
use crate::finding::{Finding, broken_if, first_of};

// The smallest of the rules 21 to 24 that the view breaks.
pub(crate) fn view_fault(buffers: u32, buffer_length: u32, v: BufferView) -> Result<(), u32>
    ensures { result ≡ broken_below 25 (view_fault buffers buffer_length v) }
{
    let end = u64::from(v.byte_offset) + u64::from(v.byte_length);
    let stride = v.byte_stride;
    let target = v.target;
    broken_if(buffers <= v.buffer, 21)?;
    broken_if((v.byte_length == 0) | (u64::from(buffer_length) < end), 22)?;
    broken_if(
        v.has_byte_stride & ((stride % 4 != 0) | (stride < 4) | (252 < stride)),
        23,
    )?;
    broken_if(v.has_target & (target != 34962) & (target != 34963), 24)
}

// Rules 21 to 24 over the first count records, of at most 64.
// Stays: an array of the tables' capacity with a count, as Tables has it for C; `views_finding` cuts a count above it.
// Stays: a loop like that of check_accessors, since one over a closure is no plainer: its contract must speak of all families of rules.
pub fn check_views(
    buffers: u32,
    buffer_length: u32,
    records: [BufferView; 64],
    count: u32,
) -> Result<(), Finding>
    ensures { result ≡ outcome_of (views_finding buffers buffer_length records count) }
{
    let mut found = Ok(());
    for i in 0..count.min(64) {
        if let Err(rule) = view_fault(buffers, buffer_length, records[i as usize]) {
            found = first_of(found, Finding { rule, item: i });
        }
    }
    found
}
