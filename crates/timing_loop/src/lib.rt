// A loop over the elements of one accessor, as a program has it. tools/timing times it alone in the static library of
// `timing_loop_c`, and in that of `timing_c`, beside other uses of `component_in`.
#![tactic(auto)]

ghost use Rattle.std.specs.Prelude.{◌≡◌};
ghost use Rattle.timing_loop.specs.Counts.{count_of};

use tables::selection::Selection;

// How many of the first n elements have another value than 0 as this component.
pub fn time_elements(file: &[u8], s: Selection, component: u32, n: u32) -> u32
    ensures { result ≡ count_of file.now s component n }
{
    let mut count: u32 = 0;
    for i in 0..n {
        let value = access::component_in(file, s, i, component).unwrap_or(0);
        if value != 0 {
            count += 1;
        }
    }
    count
}
