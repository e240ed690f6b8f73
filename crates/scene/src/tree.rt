// Lists of children from which a walk goes down, and a list of nodes at which it begins.
ghost use Rattle.scene.specs.Steps.{Linked, Rooted};

// The lists of children: each lies within `children`, and each child is a node.
// Stays: starts and lengths are two slices, since the definition `kids_in` and what `Linked` says have two lists.
#[derive(Clone, Copy)]
pub(crate) struct Tree<'a> {
    pub starts: &'a [u16],
    pub lengths: &'a [u16],
    pub children: &'a [u16],
    pub ghost linked: { Linked starts.now lengths.now children.now },
}

// A list of nodes of the tree: a scene's roots, or a node's children.
// Stays: the tree by reference. A walk has such a list on each level; with the tree in it a level took 128 bytes of stack, not 96.
#[derive(Clone, Copy)]
pub(crate) struct Nodes<'a> {
    pub tree: &'a Tree<'a>,
    pub list: &'a [u16],
    pub ghost rooted: { Rooted tree.now.starts.now list.now },
}
