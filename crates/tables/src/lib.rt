// The tables of a GLB file: its buffer views, accessors, node and scene lists as records, and the rules on these.
#![tactic(auto)]

ghost use Rattle.std.specs.Prelude.{◌≡◌, get_or};
ghost use Rattle.tables.specs.Records.{no_accessor, empty_tables, view_at};

pub mod accessors;
pub mod finding;
pub mod layout;
pub mod selection;
pub mod views;

// A member of the JSON text that may be absent has a flag beside it; its number is then 0. An unused entry of the tables
// is the default, the record of zeros.
// Stays: flags beside numbers and no Option, since C gets the record by value (timing_c) and the rules' definitions read its fields.
#[repr(C)]
#[derive(Clone, Copy, Default)]
pub struct BufferView {
    pub buffer: u32,
    pub byte_offset: u32,
    pub byte_length: u32,
    pub byte_stride: u32,
    pub has_byte_stride: bool,
    pub target: u32,
    pub has_target: bool,
}

#[repr(C)]
#[derive(Clone, Copy, Default)]
pub struct Sparse {
    pub count: u32,
    pub indices_view: u32,
    pub indices_offset: u32,
    pub indices_type: u32,
    pub values_view: u32,
    pub values_offset: u32,
}

// element_type is 1 SCALAR, 2 VEC2, 3 VEC3, 4 VEC4, 5 MAT2, 6 MAT3, 7 MAT4, and 0 none of them.
// Stays: flags, and numbers for the kinds, as in BufferView: C's records may hold any number, which rules 26 and 27 then refuse.
#[repr(C)]
#[derive(Clone, Copy, Default)]
pub struct Accessor {
    pub buffer_view: u32,
    pub has_buffer_view: bool,
    pub byte_offset: u32,
    pub component_type: u32,
    pub count: u32,
    pub element_type: u32,
    pub normalized: bool,
    pub has_sparse: bool,
    pub sparse: Sparse,
}

// The place of a node's children or a scene's roots in the packed list. u16 as the packed numbers are.
#[repr(C)]
#[derive(Clone, Copy, Default)]
pub struct List {
    pub start: u16,
    pub length: u16,
}

// Stays: counts beside arrays of a fixed size, and a flag beside `scene`: no heap, and C gets the tables by value (timing_c).
#[repr(C)]
#[derive(Clone, Copy)]
pub struct Tables {
    pub buffers: u32,
    pub views: u32,
    pub accessors: u32,
    pub nodes: u32,
    pub scenes: u32,
    pub buffer_start: u32,
    pub buffer_length: u32,
    pub scene: u32,
    pub has_scene: bool,
    pub view_records: [BufferView; 64],
    pub accessor_records: [Accessor; 128],
    pub node_lists: [List; 128],
    pub children: [u16; 128],
    pub scene_lists: [List; 8],
    pub roots: [u16; 1024],
}

// View record i; the last for a larger number.
pub(crate) fn view_at(records: &[BufferView; 64], i: u32) -> BufferView
    ensures { result ≡ view_at records.now i }
{
    records[i.min(63) as usize]
}

// Accessor record i, zeros where there is none.
pub(crate) fn accessor_at(records: &[Accessor; 128], i: u32) -> Accessor
    ensures { result ≡ get_or records.now i no_accessor }
{
    records.get(i as usize).copied().unwrap_or_default()
}

// The tables of a refused file: every count and entry 0.
#[tactic(auto, unfolding(crate::specs::Records::empty_tables))]
pub fn empty() -> Tables
    ensures { result ≡ empty_tables }
{
    Tables {
        buffers: 0,
        views: 0,
        accessors: 0,
        nodes: 0,
        scenes: 0,
        buffer_start: 0,
        buffer_length: 0,
        scene: 0,
        has_scene: false,
        view_records: [BufferView::default(); 64],
        accessor_records: [Accessor::default(); 128],
        node_lists: [List::default(); 128],
        children: [0; 128],
        scene_lists: [List::default(); 8],
        roots: [0; 1024],
    }
}
