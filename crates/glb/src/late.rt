// Rules 19 to 47, on the tables and the file's data.
ghost use Rattle.std.specs.Prelude.{◌≡◌, ◌<◌, Ok};
ghost use Rattle.container.specs.Results.{record_of};
ghost use Rattle.graph.specs.Results.{fault_of, outcome_of as graph_outcome};
ghost use Rattle.tables.specs.Results.{outcome_of};
ghost use Rattle.glb.specs.Check.{buffer_finding, scene_finding, late_finding};

use container::Container;
use data::buffer::buffer_rule;
use data::sparse::sparse_rule;
use graph::verdict::Fault;
use tables::Tables;
use tables::accessors::check_accessors;
use tables::finding::Finding;
use tables::views::check_views;

// Rules 19 and 20, with a buffer alone.
fn check_buffer(file: &[u8], c: Container, buffers: u32, byte_length: u32) -> Result<(), Finding>
    ensures { result ≡ outcome_of (buffer_finding file.now (record_of (Ok c)) buffers byte_length) }
{
    if buffers == 0 {
        return Ok(());
    }
    match c.bin {
        Some(bin) => buffer_rule(file, byte_length, true, bin.start, bin.length),
        None => buffer_rule(file, byte_length, false, 0, 0),
    }
}

// Rule 47: `scene` is there and not below the number of scenes.
fn check_scene(has_scene: bool, scene: u32, scenes: u32) -> Result<(), Finding>
    ensures { result ≡ outcome_of (scene_finding has_scene scene scenes) }
{
    if has_scene & (scenes <= scene) {
        return Err(Finding { rule: 47, item: 0 });
    }
    Ok(())
}

// The first of rules 19 to 47 that is broken. `placed` says of each accessor whether byteOffset is there, `graph` has what
// the text's lists break of rules 41 to 46.
pub(crate) fn late_rule(
    file: &[u8],
    c: Container,
    t: &Tables,
    placed: &[bool; 128],
    graph: Result<(), Fault>,
) -> Result<(), Finding>
    requires graph_answer { graph ≡ graph_outcome (fault_of graph) }
    requires item_bound { (fault_of graph).item < 4294967296 }
    ensures { result ≡ outcome_of (late_finding file.now (record_of (Ok c)) t.now placed.now (fault_of graph)) }
{
    check_buffer(file, c, t.buffers, t.buffer_length)?;
    check_views(t.buffers, t.buffer_length, t.view_records, t.views)?;
    check_accessors(
        t.views,
        t.view_records,
        t.accessor_records,
        *placed,
        t.accessors,
    )?;
    sparse_rule(
        file,
        t.buffer_start,
        t.accessor_records,
        t.view_records,
        t.accessors,
    )?;
    if let Err(fault) = graph {
        return Err(Finding {
            rule: fault.number,
            item: fault.item as u32,
        });
    }
    check_scene(t.has_scene, t.scene, t.scenes)
}
