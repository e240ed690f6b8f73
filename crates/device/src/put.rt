// Tables into words.
ghost use Rattle.std.specs.Prelude.{◌≡◌, ℕ, ◌+◌, ◌*◌, ◌≤◌, [], ◌∷◌, length, ⊤};
ghost use mathlib.Core.List as L;
ghost use Rattle.std.specs.List.{All};
ghost use Rattle.tables.specs.Records.{empty_tables};
ghost use Rattle.scene.specs.Steps.{written};
ghost use Rattle.device.specs.Words.{view_words, accessor_words, list_words, head_words, rows, words_of, tables_of};
ghost use Rattle.device.specs.Meaning.{Stored};
ghost use Rattle.device.specs.Widths.{view_width, accessor_width, list_width, number_width};

use tables::{Accessor, BufferView, List, Tables};

// What stands in the tables as N words.
trait Record<const N: usize>: Copy {
    ghost words: { Self → L.List ℕ };

    // What the types of its fields say.
    ghost fits: { Self → Type 0 } = { λ _. ⊤ };

    fn words(self) -> [u32; N]
        ensures words { result ≡ words self }
        ensures fits { fits self };

    ghost width: { (r : Self) → length (words r) ≡ N };
}

impl Record<8> for BufferView {
    ghost words = { view_words };

    ghost width = { view_width };

    fn words(self) -> [u32; 8] {
        [
            self.buffer,
            self.byte_offset,
            self.byte_length,
            u32::from(self.has_byte_stride),
            self.byte_stride,
            u32::from(self.has_target),
            self.target,
            0,
        ]
    }
}

impl Record<16> for Accessor {
    ghost words = { accessor_words };

    ghost width = { accessor_width };

    fn words(self) -> [u32; 16] {
        [
            u32::from(self.has_buffer_view),
            self.buffer_view,
            self.byte_offset,
            self.component_type,
            self.count,
            self.element_type,
            u32::from(self.normalized),
            u32::from(self.has_sparse),
            self.sparse.count,
            self.sparse.indices_view,
            self.sparse.indices_offset,
            self.sparse.indices_type,
            self.sparse.values_view,
            self.sparse.values_offset,
            0,
            0,
        ]
    }
}

impl Record<2> for List {
    ghost words = { list_words };

    ghost fits = { λ l. (l.start ≤ 65535) × (l.length ≤ 65535) };

    ghost width = { list_width };

    fn words(self) -> [u32; 2] {
        [u32::from(self.start), u32::from(self.length)]
    }
}

// An entry of a packed list.
impl Record<1> for u16 {
    ghost words = { λ n. n ∷ [] };

    ghost fits = { λ n. n ≤ 65535 };

    ghost width = { number_width };

    fn words(self) -> [u32; 1] {
        [u32::from(self)]
    }
}

// The words of the records, one after the other, from `at` on.
fn put_records<const N: usize, R: Record<N>>(words: &mut [u32], at: usize, records: &[R])
    requires { at + N * length records.now ≤ length words.old }
    ensures words { words.new ≡ written words.old at (rows R.words records.now) }
    ensures fit { All R.fits records.now }
{
    for (i, record) in records.iter().enumerate() {
        let from = at + N * i;
        words[from..from + N].copy_from_slice(&record.words());
    }
}

fn head_words(t: &Tables) -> [u32; 16]
    ensures { result ≡ head_words t.now }
{
    [
        t.buffers,
        t.views,
        t.accessors,
        t.nodes,
        t.scenes,
        t.buffer_start,
        t.buffer_length,
        u32::from(t.has_scene),
        t.scene,
        0,
        0,
        0,
        0,
        0,
        0,
        0,
    ]
}

// All words, whatever they were.
fn put_all(words: &mut [u32], t: &Tables)
    requires { length words.old ≡ 4000 }
    ensures { (words.new ≡ words_of t.now) × Stored t.now }
{
    words[..16].copy_from_slice(&head_words(t));
    put_records(words, 16, &t.view_records);
    put_records(words, 528, &t.accessor_records);
    put_records(words, 2576, &t.node_lists);
    put_records(words, 2832, &t.children);
    put_records(words, 2960, &t.scene_lists);
    put_records(words, 2976, &t.roots);
}

// The tables into 4,000 words, whatever they were; read back, the words are the tables.
pub(crate) fn put(words: &mut [u32; 4000], t: &Tables)
    ensures { (words.new ≡ words_of t.now) × (tables_of words.new ≡ t.now) }
{
    put_all(words, t);
}

// The words of empty tables: zeros.
pub(crate) fn put_none(words: &mut [u32; 4000])
    ensures { (words.new ≡ words_of empty_tables) × (tables_of words.new ≡ empty_tables) }
{
    words.fill(0);
}

// The same of tables by value.
pub fn put_tables(words: &mut [u32; 4000], t: Tables)
    ensures { (words.new ≡ words_of t) × (tables_of words.new ≡ t) }
{
    put(words, &t);
}
