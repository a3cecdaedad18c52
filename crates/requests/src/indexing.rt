// I lines, about the index of blocks: new <n>, set <slot> <use> <satp hex> <pc hex> <offset> <count> <length> <span>,
// insert <satp hex> <pc hex> <offset> <count> <length> <span>, find <satp hex> <pc hex>, drop <address hex> <n>, empty, show
ghost use Rattle.std.specs.Prelude.{◌≡◌, IfSome};
ghost use Rattle.requests.specs.Fields.{Passes};
ghost use Rattle.requests.specs.Indexing.{block_at, new_of, set_of, insert_of, find_of, drop_of, alone_of, indexing_of, Fits};

use crate::fields::Fields;

// A block, and the key under which an entry has it.
#[derive(Clone, Copy)]
pub struct KeyedBlock {
    pub satp: u64,
    pub pc: u64,
    pub offset: usize,
    pub count: u32,
    pub length: usize,
    pub span: u64,
}

#[derive(Clone, Copy)]
pub enum Indexing {
    New {
        n: usize,
    },
    Set {
        slot: usize,
        in_use: u32,
        block: KeyedBlock,
    },
    Insert {
        block: KeyedBlock,
    },
    // Two numbers, here and in `KeyedBlock`: crate entry's key would be a dependency for one pair.
    Find {
        satp: u64,
        pc: u64,
    },
    Drop {
        address: u64,
        n: u64,
    },
    Empty,
    Show,
}

// The most entries of an index.
const ENTRIES: u64 = 64;

impl<'a> Fields<'a> {
    #[tactic(auto, unfolding(crate::specs::Indexing::block_at))]
    fn block(&mut self) -> Option<KeyedBlock>
        ensures { Passes block_at self.old self.new result }
    {
        let satp = self.next_number(16)?;
        let pc = self.next_number(16)?;
        let offset = self.next_number(10)? as usize;
        let count = self.next_u32()?;
        let length = self.next_number(10)? as usize;
        let span = self.next_number(10)?;
        Some(KeyedBlock {
            satp,
            pc,
            offset,
            count,
            length,
            span,
        })
    }
}

// What the line asks for, where its word is this one and no field is missing. So for each word below.
#[tactic(auto, unfolding(crate::specs::Indexing::new_of))]
fn read_new(line: &[u8]) -> Option<Indexing>
    ensures asked { result ≡ new_of line.now }
    ensures fits { IfSome result Fits }
{
    let mut fields = Fields { line, at: 0 };
    fields.pass(b"I new")?;
    let n = fields.next_at_most(ENTRIES)? as usize;
    fields.end()?;
    Some(Indexing::New { n })
}

#[tactic(auto, unfolding(crate::specs::Indexing::set_of))]
fn read_set(line: &[u8]) -> Option<Indexing>
    ensures asked { result ≡ set_of line.now }
    ensures fits { IfSome result Fits }
{
    let mut fields = Fields { line, at: 0 };
    fields.pass(b"I set")?;
    let slot = fields.next_number(10)? as usize;
    let in_use = fields.next_u32()?;
    let block = fields.block()?;
    fields.end()?;
    Some(Indexing::Set {
        slot,
        in_use,
        block,
    })
}

#[tactic(auto, unfolding(crate::specs::Indexing::insert_of))]
fn read_insert(line: &[u8]) -> Option<Indexing>
    ensures asked { result ≡ insert_of line.now }
    ensures fits { IfSome result Fits }
{
    let mut fields = Fields { line, at: 0 };
    fields.pass(b"I insert")?;
    let block = fields.block()?;
    fields.end()?;
    Some(Indexing::Insert { block })
}

#[tactic(auto, unfolding(crate::specs::Indexing::find_of))]
fn read_find(line: &[u8]) -> Option<Indexing>
    ensures asked { result ≡ find_of line.now }
    ensures fits { IfSome result Fits }
{
    let mut fields = Fields { line, at: 0 };
    fields.pass(b"I find")?;
    let satp = fields.next_number(16)?;
    let pc = fields.next_number(16)?;
    fields.end()?;
    Some(Indexing::Find { satp, pc })
}

#[tactic(auto, unfolding(crate::specs::Indexing::drop_of))]
fn read_drop(line: &[u8]) -> Option<Indexing>
    ensures asked { result ≡ drop_of line.now }
    ensures fits { IfSome result Fits }
{
    let mut fields = Fields { line, at: 0 };
    fields.pass(b"I drop")?;
    let address = fields.next_number(16)?;
    let n = fields.next_number(10)?;
    fields.end()?;
    Some(Indexing::Drop { address, n })
}

// The same for a word with nothing behind it.
#[tactic(auto, unfolding(crate::specs::Indexing::alone_of))]
fn read_alone(line: &[u8], word: &[u8], request: Indexing) -> Option<Indexing>
    requires { Fits request }
    ensures asked { result ≡ alone_of word.now request line.now }
    ensures fits { IfSome result Fits }
{
    (line == word).then_some(request)
}

// The whole line, with its letter.
pub fn read_indexing(line: &[u8]) -> Option<Indexing>
    ensures asked { result ≡ indexing_of line.now }
    ensures fits { IfSome result Fits }
{
    read_new(line)
        .or_else(|| read_set(line))
        .or_else(|| read_insert(line))
        .or_else(|| read_find(line))
        .or_else(|| read_drop(line))
        .or_else(|| read_alone(line, b"I empty", Indexing::Empty))
        .or_else(|| read_alone(line, b"I show", Indexing::Show))
}
