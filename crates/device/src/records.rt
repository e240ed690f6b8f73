// The records concerned in a reading, from the words.
// Stays: no From, since neither the words nor the records are types of this crate.
ghost use Rattle.std.specs.Prelude.{◌≡◌, ◌+◌, ◌<◌, ◌≤◌, drop};
ghost use Rattle.tables.specs.Fitness.{extent_of, selection_of, view_selection_of};
ghost use Rattle.tables.specs.Records.{view_at};
ghost use Rattle.device.specs.Words.{view_from, sparse_from, accessor_from, tables_of};

use tables::selection::{Extent, Selection, ViewSelection};
use tables::{Accessor, BufferView, Sparse};

// The counts and the buffer's place.
fn extent(words: &[u32; 4000]) -> Extent
    ensures { result ≡ extent_of (tables_of words.now) }
{
    Extent {
        buffers: words[0],
        views: words[1],
        accessors: words[2],
        nodes: words[3],
        scenes: words[4],
        buffer_start: words[5],
        buffer_length: words[6],
    }
}

// The view's record in the 8 words from `at` on.
fn view_from(words: &[u32; 4000], at: usize) -> BufferView
    requires { at + 8 ≤ 4000 }
    ensures { result ≡ view_from (drop at words.now) }
{
    BufferView {
        buffer: words[at],
        byte_offset: words[at + 1],
        byte_length: words[at + 2],
        byte_stride: words[at + 4],
        has_byte_stride: words[at + 3] != 0,
        target: words[at + 6],
        has_target: words[at + 5] != 0,
    }
}

// View record i; the last for a larger number.
fn view_at(words: &[u32; 4000], i: u32) -> BufferView
    ensures { result ≡ view_at (tables_of words.now).view_records i }
{
    let last = i.min(63) as usize;
    view_from(words, 16 + 8 * last)
}

// The part on sparse of an accessor's record, in the 6 words from `at` on.
fn sparse_from(words: &[u32; 4000], at: usize) -> Sparse
    requires { at + 6 ≤ 4000 }
    ensures { result ≡ sparse_from (drop at words.now) }
{
    Sparse {
        count: words[at],
        indices_view: words[at + 1],
        indices_offset: words[at + 2],
        indices_type: words[at + 3],
        values_view: words[at + 4],
        values_offset: words[at + 5],
    }
}

// The accessor's record in the 16 words from `at` on.
fn accessor_from(words: &[u32; 4000], at: usize) -> Accessor
    requires { at + 16 ≤ 4000 }
    ensures { result ≡ accessor_from (drop at words.now) }
{
    let sparse = sparse_from(words, at + 8);
    Accessor {
        buffer_view: words[at + 1],
        has_buffer_view: words[at] != 0,
        byte_offset: words[at + 2],
        component_type: words[at + 3],
        count: words[at + 4],
        element_type: words[at + 5],
        normalized: words[at + 6] != 0,
        has_sparse: words[at + 7] != 0,
        sparse,
    }
}

// What a component reading looks at.
// Stays: tables' `select` fills the same record from Tables. One function over both takes a trait of three methods with two
// impls, and is longer than the two.
pub(crate) fn selection(words: &[u32; 4000], accessor: u32) -> Selection
    requires { accessor < 128 }
    ensures { result ≡ selection_of (tables_of words.now) accessor }
{
    let at = 528 + 16 * (accessor as usize);
    let a = accessor_from(words, at);
    let own = view_at(words, a.buffer_view);
    let indices = view_at(words, a.sparse.indices_view);
    let values = view_at(words, a.sparse.values_view);
    let extent = extent(words);
    Selection {
        extent,
        accessor: a,
        own,
        indices,
        values,
    }
}

// What a view lookup looks at.
pub(crate) fn view_selection(words: &[u32; 4000], view: u32) -> ViewSelection
    ensures { result ≡ view_selection_of (tables_of words.now) view }
{
    let v = view_at(words, view);
    let extent = extent(words);
    ViewSelection { extent, view: v }
}
