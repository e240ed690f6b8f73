// The GLB container: rules 1 to 8, and where the JSON chunk and the BIN chunk lie.
#![tactic(auto)]

ghost use Rattle.std.specs.Prelude.{◌≡◌, ◌+◌, ◌≤◌, length, drop};
ghost use Rattle.laws.specs.Bytes.{little_at};
ghost use Rattle.container.specs.Chunks.{starts_whole, chunks_of, bytes_of};
ghost use Rattle.container.specs.Rules.{chunk_at, container_of};
ghost use Rattle.container.specs.Found.{found_in};
ghost use Rattle.container.specs.Results.{header_outcome, survey_of, data_at, bin_of, outcome_of};

const JSON: u32 = 0x4E4F534A;

const BIN: u32 = 0x004E4942;

// Where the data of a chunk lie in the file.
#[derive(Clone, Copy, Debug, PartialEq, Eq)]
pub struct Chunk {
    pub start: usize,
    pub length: usize,
}

// The chunks of a file that breaks none of the rules 1 to 8.
#[derive(Clone, Copy, Debug, PartialEq, Eq)]
pub struct Container {
    pub json: Chunk,
    pub bin: Option<Chunk>,
}

// The smallest rule that a file breaks, and its item.
// Stays: the rule is its number in the rule table, which the definitions and theorems name and C gets as the verdict.
#[derive(Clone, Copy, Debug, PartialEq, Eq)]
pub struct Fault {
    pub rule: u32,
    pub item: u32,
}

// One pass over the chunks: where they end, how many they are, and the first that breaks rule 6 and rule 7.
#[derive(Clone, Copy)]
struct Found {
    end: usize,
    count: u32,
    wrong_json: Option<u32>,
    wrong_bin: Option<u32>,
}

// The little-endian number at `at`.
fn word(file: &[u8], at: usize) -> u32
    requires { at + 4 ≤ length file.now }
    ensures { result ≡ little_at file.now at 4 }
{
    u32::from_le_bytes([file[at], file[at + 1], file[at + 2], file[at + 3]])
}

// Whether a whole chunk starts at `at`.
fn is_whole(file: &[u8], at: usize) -> bool
    requires { at ≤ length file.now }
    ensures { result ≡ starts_whole (drop at file.now) }
{
    let left = file.len() - at;
    if left < 8 {
        return false;
    }
    let data = word(file, at) as usize;
    (data % 4 == 0) & (data <= left - 8)
}

// The pass over the chunks, which rules 5 to 7 look at.
fn survey(file: &[u8]) -> Found
    requires { (12 ≤ length file.now) × (length file.now ≤ 16777216) }
    ensures { result ≡ survey_of (found_in file.now) }
{
    let mut at: usize = 12;
    let mut count: u32 = 0;
    let mut wrong_json = None;
    let mut wrong_bin = None;
    // Stays: the step is the chunk's length, so a `for` over places would be no plainer.
    while is_whole(file, at) {
        let kind = word(file, at + 4);
        let is_wrong_json = (count == 0) & (kind != JSON) | (0 < count) & (kind == JSON);
        let is_wrong_bin = (kind == BIN) & (count != 1);
        wrong_json = wrong_json.or(is_wrong_json.then_some(count));
        wrong_bin = wrong_bin.or(is_wrong_bin.then_some(count));
        at = at + 8 + word(file, at) as usize;
        count += 1;
    }
    Found {
        end: at,
        count,
        wrong_json,
        wrong_bin,
    }
}

// The data of the chunk whose header stands at `at`.
fn data_of(file: &[u8], at: usize) -> Chunk
    requires { at + 8 ≤ length file.now }
    ensures { result ≡ data_at file.now at }
{
    Chunk {
        start: at + 8,
        length: word(file, at) as usize,
    }
}

// The BIN chunk behind the JSON chunk of a file that breaks none of the rules 1 to 8.
fn bin_chunk(file: &[u8], json: Chunk) -> Option<Chunk>
    requires in_bounds { (20 ≤ length file.now) × (12 + bytes_of (chunks_of file.now) ≡ length file.now) }
    requires json_start { json.start ≡ 20 }
    requires json_length { json.length ≡ (chunk_at file.now 0).chunk_length }
    ensures { result ≡ bin_of file.now }
{
    let at = json.start + json.length;
    if at < file.len() {
        if word(file, at + 4) == BIN {
            return Some(data_of(file, at));
        }
    }
    None
}

// Rules 1 to 4.
fn check_header(file: &[u8]) -> Result<(), Fault>
    ensures { result ≡ header_outcome file.now }
{
    let size = file.len();
    if size < 20 {
        return Err(Fault { rule: 1, item: 0 });
    }
    if 16777216 < size {
        return Err(Fault { rule: 1, item: 0 });
    }
    if word(file, 0) != 0x46546C67 {
        return Err(Fault { rule: 2, item: 0 });
    }
    if word(file, 4) != 2 {
        return Err(Fault { rule: 3, item: 0 });
    }
    if word(file, 8) as usize != size {
        return Err(Fault { rule: 4, item: 0 });
    }
    Ok(())
}

// The container of any bytes: where the two chunks lie, or the smallest rule of 1 to 8 that the bytes break with its smallest item.
pub fn open(file: &[u8]) -> Result<Container, Fault>
    ensures { result ≡ outcome_of (container_of file.now) }
{
    check_header(file)?;
    let found = survey(file);
    if found.end != file.len() {
        return Err(Fault {
            rule: 5,
            item: found.count,
        });
    }
    if let Some(item) = found.wrong_json {
        return Err(Fault { rule: 6, item });
    }
    if let Some(item) = found.wrong_bin {
        return Err(Fault { rule: 7, item });
    }
    let json = data_of(file, 12);
    if 65536 < json.length {
        return Err(Fault { rule: 8, item: 0 });
    }
    Ok(Container {
        json,
        bin: bin_chunk(file, json),
    })
}
