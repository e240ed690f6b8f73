// The top: rules 14 to 18, and the tables.
ghost use Rattle.std.specs.Prelude.{◌≡◌, ◌≤◌, IsTrue, drop};
ghost use Rattle.json_text.specs.Tree.{Json};
ghost use Rattle.nav.specs.Places.{Stands};
ghost use Rattle.document.specs.Said.{document_in};
ghost use Rattle.document.specs.Tops.{Few, PlacesTo, ReadsTop, none_read, read_in, is_over, tables_read, document_answer};

use crate::asset::is_asset;
use crate::members::{Unfit, optional};
use crate::nodes::graph_fault;
use crate::nodes::lists::{ListsRead, read_lists, sound};
use crate::records::accessors::Accessors;
use crate::records::buffers::Buffers;
use crate::records::views::Views;
use crate::records::{Counted, Records};
use crate::{Document, records};
use nav::members::gather;
use tables::{List, Tables};
use text::Fault;

// What is read of the members of the top.
#[derive(Clone, Copy)]
pub(crate) struct TopRead {
    pub buffers: Counted<Buffers>,
    pub views: Counted<Views>,
    pub accessors: Counted<Accessors>,
    pub nodes: ListsRead<128, 128>,
    pub scenes: ListsRead<8, 1024>,
    pub scene: Option<u32>,
}

// A rule that is broken by the tree: it names no place.
// Stays: a rule is its number, as in the rule table and in text's Fault, of which the definition document_of speaks.
fn rule(number: u32) -> Fault
    ensures { result ≡ record { number = number; place = 0 } }
{
    Fault { number, place: 0 }
}

// Rule 16.
impl From<Unfit> for Fault {
    ghost from_gives = { λ _ e. e ≡ record { number = 16; place = 0 } };

    fn from(_: Unfit) -> Fault {
        rule(16)
    }
}

impl TopRead {
    // Nothing.
    fn none() -> TopRead
        ensures { result ≡ none_read }
    {
        TopRead {
            buffers: Counted {
                count: 0,
                kept: Buffers::none(),
            },
            views: Counted {
                count: 0,
                kept: Views::none(),
            },
            accessors: Counted {
                count: 0,
                kept: Accessors::none(),
            },
            nodes: ListsRead {
                count: 0,
                lists: [List::default(); 128],
                entries: [0; 128],
            },
            scenes: ListsRead {
                count: 0,
                lists: [List::default(); 8],
                entries: [0; 1024],
            },
            scene: None,
        }
    }

    // Reads the members at these places, but for the first two, `asset` and `extensionsRequired` (rule 16).
    fn read_members(&mut self, s: &[u8], places: [Option<usize>; 8]) -> Result<(), Unfit>
        requires { self.old ≡ none_read }
        ensures { (j : Json) → PlacesTo s.now j places → ReadsTop j (read_in self.new result) }
    {
        let [_, _, buffers, views, accessors, nodes, scenes, scene] = places;
        let buffers = records::read(s, buffers, &mut self.buffers.kept)?;
        let views = records::read(s, views, &mut self.views.kept)?;
        let accessors = records::read(s, accessors, &mut self.accessors.kept)?;
        let nodes = read_lists(
            s,
            nodes,
            b"children",
            &mut self.nodes.lists,
            &mut self.nodes.entries,
        )?;
        let scenes = read_lists(
            s,
            scenes,
            b"nodes",
            &mut self.scenes.lists,
            &mut self.scenes.entries,
        )?;
        let scene = optional(s, scene)?;
        self.buffers.count = buffers;
        self.views.count = views;
        self.accessors.count = accessors;
        self.nodes.count = nodes;
        self.scenes.count = scenes;
        self.scene = scene;
        Ok(())
    }

    // Whether a count passes its capacity (rule 17).
    fn is_over(&self) -> bool
        ensures { result ≡ is_over self.now }
    {
        (1 < self.buffers.count)
            | (64 < self.views.count)
            | (128 < self.accessors.count)
            | (128 < self.nodes.count)
            | (8 < self.scenes.count)
    }

    // The tables of what was read, where no count passes its capacity. The buffer's place in the file is not known here.
    fn tables(&self) -> Tables
        requires { Few self.now }
        ensures { result ≡ tables_read self.now }
    {
        Tables {
            buffers: self.buffers.count as u32,
            views: self.views.count as u32,
            accessors: self.accessors.count as u32,
            nodes: self.nodes.count as u32,
            scenes: self.scenes.count as u32,
            buffer_start: 0,
            buffer_length: self.buffers.kept.records[0].byte_length,
            scene: self.scene.unwrap_or(0),
            has_scene: self.scene.is_some(),
            view_records: self.views.kept.records,
            accessor_records: self.accessors.kept.records,
            node_lists: self.nodes.lists,
            children: self.nodes.entries,
            scene_lists: self.scenes.lists,
            roots: self.scenes.entries,
        }
    }
}

// The object at `at`.
pub(crate) fn top(s: &[u8], at: usize) -> Result<Document, Fault>
    ensures { (j : Json) → Stands (drop at s.now) j → result ≡ document_answer (document_in j) }
{
    // Stays: made first, since the compiler fills it with zeros at the entry anyway, and then only once.
    let mut read = TopRead::none();
    let found = gather::<8>(
        s,
        at,
        &[
            b"asset",
            b"extensionsRequired",
            b"buffers",
            b"bufferViews",
            b"accessors",
            b"nodes",
            b"scenes",
            b"scene",
        ],
    );
    let [asset, extensions, _, _, _, nodes, scenes, _] = found.places;
    if !is_asset(s, asset) {
        return Err(rule(14));
    }
    if extensions.is_some() {
        return Err(rule(15));
    }
    read.read_members(s, found.places)?;
    if read.is_over() {
        return Err(rule(17));
    }
    let buffer = read.buffers.kept.records[0];
    if buffer.has_uri {
        return Err(rule(18));
    }
    let graph = graph_fault(s, nodes, read.nodes.count, scenes, read.scenes.count);
    sound(graph, &mut read.nodes);
    sound(graph, &mut read.scenes);
    Ok(Document {
        tables: read.tables(),
        placed: read.accessors.kept.placed,
        graph,
    })
}
