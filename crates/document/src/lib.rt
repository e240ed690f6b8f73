// What the JSON text says: its read members as records, its nodes and scenes as lists (rules 9 to 18).
#![tactic(auto)]

ghost use Rattle.std.specs.Prelude.{◌≡◌};
ghost use Rattle.document.specs.Said.{document_of};
ghost use Rattle.document.specs.Tops.{document_answer};

use crate::top::top;
use graph::verdict;
use tables::Tables;
use text::Fault;

mod asset;
mod members;
mod nodes;
mod records;
mod top;

// What the text says, where it breaks none of rules 9 to 18: its tables, the buffer's place in the file left 0, of each
// accessor whether byteOffset is there (rule 25), and rules 41 to 46 of the text's lists.
#[derive(Clone, Copy)]
pub struct Document {
    pub tables: Tables,
    pub placed: [bool; 128],
    pub graph: Result<(), verdict::Fault>,
}

// Reads a JSON chunk. The fault is the smallest of rules 9 to 18 that the chunk breaks, with the place of rules 9 to 13.
#[tactic(auto, using(crate::proofs::Reading::read_refused))]
pub fn read(chunk: &[u8]) -> Result<Document, Fault>
    ensures { result ≡ document_answer (document_of chunk.now) }
{
    text::check(chunk)?;
    top(chunk, nav::start(chunk))
}
