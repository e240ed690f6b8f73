// Rule 40: sparse indices are below count and increase.
ghost use Rattle.std.specs.Prelude.{◌≡◌, ◌+◌, ◌*◌, ◌≤◌, ◌<◌};
ghost use Rattle.laws.specs.Bytes.{little_at};
ghost use Rattle.laws.specs.Search.{any_below};
ghost use Rattle.tables.specs.Results.{outcome_of};
ghost use Rattle.data.specs.Sparse.{misordered, rule40, sparse_finding};

use crate::byte_at;
use tables::finding::Finding;
use tables::{Accessor, BufferView, layout};

// The number in the `size` bytes from `at` on; bytes past the end of the file are 0.
// Stays: no twin of access's little_at, which requires the bytes to be in the file and so tests none.
fn number_at(file: &[u8], at: usize, size: u32) -> u64
    requires { size ≤ 4 }
    ensures { (result ≡ little_at file.now at size) × (result < 4294967296) }
{
    let mut n: u64 = 0;
    for k in (0..size).rev() {
        n = n * 256 + u64::from(byte_at(file, at, k as usize));
    }
    n
}

// Whether one of `entries` indices, each of `size` bytes from `first` on, is not below count or does not exceed the
// one before it. `lowest` is the smallest number that the next index may be.
fn are_misordered(file: &[u8], first: usize, size: u32, entries: u32, count: u32) -> bool
    requires { (size ≤ 4) × (first ≤ 12884901885) }
    ensures { result ≡ any_below (misordered (λ k. little_at file.now (first + size * k) size) count) entries }
{
    let mut lowest: u64 = 0;
    for k in 0..entries {
        let index = number_at(file, first + (size as usize) * (k as usize), size);
        if (u64::from(count) <= index) | (index < lowest) {
            return true;
        }
        lowest = index + 1;
    }
    false
}

// Rule 40 of one accessor, with the view of its sparse indices, in a buffer that starts at byte `start`.
fn is_broken(file: &[u8], start: u32, a: Accessor, indices: BufferView) -> bool
    ensures { result ≡ rule40 file.now start a indices }
{
    if a.has_sparse {
        let sparse = a.sparse;
        let size = layout::component_size(sparse.indices_type);
        let view = start as usize + indices.byte_offset as usize;
        let first = view + sparse.indices_offset as usize;
        return are_misordered(file, first, size, sparse.count, a.count);
    }
    false
}

// Rule 40 over the first count records, of at most 128, in a buffer that starts at byte `start`.
// Stays: arrays of the tables' capacity with a count, as Tables has them for C; `sparse_finding` cuts a count above it.
pub fn sparse_rule(
    file: &[u8],
    start: u32,
    accessors: [Accessor; 128],
    views: [BufferView; 64],
    count: u32,
) -> Result<(), Finding>
    ensures { result ≡ outcome_of (sparse_finding file.now start accessors views count) }
{
    for i in 0..count.min(128) {
        let a = accessors[i as usize];
        let at = a.sparse.indices_view.min(63);
        if is_broken(file, start, a, views[at as usize]) {
            return Err(Finding { rule: 40, item: i });
        }
    }
    Ok(())
}
