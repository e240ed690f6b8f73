// Rules 41 to 46 on a graph. A graph is the nodes' children lists and the scenes' root lists. Its entries may come one at
// a time, from a text or from tables: `link` takes a child, `root` a root, and `verdict` gives the smallest rule broken.
#![tactic(auto)]

pub mod lists; // lists.rt: what children and roots share
pub mod links; // links.rt: children, rules 41 and 42
pub mod roots; // roots.rt: roots, rules 44 to 46
pub mod verdict; // verdict.rt: rule 43 and the verdict
pub mod packed; // packed.rt: the same on packed lists
