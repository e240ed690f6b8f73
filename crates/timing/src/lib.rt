// Functions that tools/timing calls from C, through `timing_c`, to time the library from outside.
// Stays: numbers for refusals, `Reading` and `Walked`, since `timing_c` hands these on to C, with these clauses.
#![tactic(auto)]

ghost use Rattle.std.specs.Prelude.{◌≡◌};
ghost use Rattle.text.specs.Rules.{text_of};
ghost use Rattle.container.specs.Rules.{container_of};
ghost use Rattle.document.specs.Said.{document_of};
ghost use Rattle.glb.specs.Check.{check_of};
ghost use Rattle.access.specs.Readings.{component_in, component_of};
ghost use Rattle.scene.specs.Walk.{walk_of};
ghost use Rattle.timing_loop.specs.Counts.{count_of};

use access::Reading;
use scene::Walked;
use tables::Tables;
use tables::selection::Selection;

// Rules 1 to 8: the number.
pub fn time_container(file: &[u8]) -> u32
    ensures { result ≡ (container_of file.now).number }
{
    match container::open(file) {
        Ok(_) => 0,
        Err(broken) => broken.rule,
    }
}

// Rules 9 to 13: the number.
pub fn time_text(chunk: &[u8]) -> u32
    ensures { result ≡ (text_of chunk.now).number }
{
    match text::check(chunk) {
        Ok(()) => 0,
        Err(fault) => fault.number,
    }
}

// Rules 9 to 18, with the tables: the number.
pub fn time_document(chunk: &[u8]) -> u32
    ensures { result ≡ (document_of chunk.now).number }
{
    match document::read(chunk) {
        Ok(_) => 0,
        Err(fault) => fault.number,
    }
}

// Rules 1 to 47, with the tables: the verdict.
pub fn time_check(file: &[u8]) -> u32
    ensures { result ≡ (check_of file.now).verdict }
{
    match glb::check(file) {
        Ok(_) => 0,
        Err(broken) => broken.rule,
    }
}

// One component of an accessor that was selected before.
pub fn time_component_in(file: &[u8], s: Selection, element: u32, component: u32) -> Reading
    ensures { result ≡ component_in file.now s element component }
{
    access::component_in(file, s, element, component).into()
}

// The loop of `timing_loop`, in a library with other uses of `component_in`.
pub fn time_elements_beside(file: &[u8], s: Selection, component: u32, n: u32) -> u32
    ensures { result ≡ count_of file.now s component n }
{
    timing_loop::time_elements(file, s, component, n)
}

// One component, from whole tables.
pub fn time_component(
    file: &[u8],
    t: Tables,
    accessor: u32,
    element: u32,
    component: u32,
) -> Reading
    ensures { result ≡ component_of file.now t accessor element component }
{
    access::component(file, t, accessor, element, component).into()
}

// The walk of a scene.
pub fn time_walk(t: Tables, scene: u32, list: &mut [u16]) -> Walked
    ensures { (result ≡ (walk_of t scene list.old).walked)
        × (list.new ≡ (walk_of t scene list.old).list) }
{
    scene::walk(t, scene, list).into()
}
