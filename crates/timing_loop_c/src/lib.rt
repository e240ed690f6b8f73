// The C interface of `timing_loop`, alone in its static library: tools/timing calls it from C.
#![tactic(auto)]

ghost use Rattle.std.specs.Prelude.{◌≡◌};
ghost use Rattle.timing_loop.specs.Counts.{count_of};

use tables::selection::Selection;

// How many of the first n elements have another value than 0 as this component.
#[unsafe(no_mangle)]
pub extern "C" fn time_elements(file: &[u8], s: Selection, component: u32, n: u32) -> u32
    ensures { result ≡ count_of file.now s component n }
{
    timing_loop::time_elements(file, s, component, n)
}
