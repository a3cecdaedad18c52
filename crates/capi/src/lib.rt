// The translator as functions for Rust and C: slices as pointer and length, replies as document 01's numbers.
#![tactic(auto)]

pub mod history;
pub mod keeping;
pub mod turns;

ghost use Rattle.std.specs.Prelude.{◌≡◌};
ghost use Rattle.agreement.specs.Riscv.Run.{in_line};
ghost use Rattle.agreement.specs.Translation.Kind.{kind, kind_number};
ghost use Rattle.agreement.specs.Translation.Replies.{rules};
ghost use Rattle.block.specs.Answers as Answers;
ghost use Rattle.store.specs.Places as Places;
ghost use Rattle.index.specs.Answers as Indexed;
ghost use Rattle.capi.specs.Replies.{or_0, padded, Replies, RepliesToPlacing};
ghost use Rattle.capi.specs.Indexes.{RepliesToFind, RepliesToInsert};

use block::{Block, Helpers};
use entry::{Entry, Key, NativeBlock};
use store::{NativeCodeCache, Placed};

// Document 01, "Replies": the number, 0 where there is none, and its values, 0 where there are fewer. Numbers, and below satp and pc by
// themselves, since C calls this.
#[repr(C)]
#[derive(Clone, Copy)]
pub struct Reply {
    pub number: u64,
    pub first: u64,
    pub second: u64,
    pub third: u64,
}

fn numbers(number: u64, first: u64, second: u64, third: u64) -> Reply
    ensures { result ≡ record { number = number; first = first; second = second; third = third } }
{
    Reply {
        number,
        first,
        second,
        third,
    }
}

impl From<Result<Block, block::Refusal>> for Reply {
    ghost from_gives = { λ a r. r ≡ padded (Answers.answered a) };

    fn from(answer: Result<Block, block::Refusal>) -> Reply {
        match answer {
            Ok(block) => numbers(0, block.length as u64, block.count as u64, block.span),
            Err(block::Refusal::LimitZero) => numbers(1, 0, 0, 0),
            Err(block::Refusal::OddStart(start)) => numbers(2, start, 0, 0),
            Err(block::Refusal::Missing(index)) => numbers(3, index as u64, 0, 0),
            Err(block::Refusal::NotTaken(word)) => numbers(4, word as u64, 0, 0),
            Err(block::Refusal::OutputShort) => numbers(5, 0, 0, 0),
        }
    }
}

// Which rules the blocks follow, a number that grows with every change to them (document 02, Q-6). A caller that has an index of blocks
// made under others, or does not know under which, empties it, once, before its next use: what it finds there may be another block than
// the one that its run is translated to now, as that of a run with a compressed instruction is.
#[unsafe(no_mangle)]
pub extern "C" fn emuko_rules() -> u32
    ensures { result ≡ rules }
{
    7
}

// block: length, count, span; 1; 2, start; 3, index; 4, word; 5
#[unsafe(no_mangle)]
pub extern "C" fn emuko_translate(
    start: u64,
    limit: u32,
    halfwords: &[u16],
    helper16: u64,
    helper_mem: u64,
    out: &mut [u8],
) -> Reply
    ensures { Replies start limit halfwords.now helper16 helper_mem
        out.old out.new result }
{
    let helpers = Helpers {
        helper16,
        helper_mem,
    };
    block::translate(start, limit, halfwords, helpers, out).into()
}

impl From<Result<Placed, store::Refusal>> for Reply {
    ghost from_gives = { λ a r. r ≡ padded (Places.answered a) };

    fn from(answer: Result<Placed, store::Refusal>) -> Reply {
        match answer {
            Ok(placed) => numbers(0, placed.offset as u64, placed.mark as u64, 0),
            Err(refusal) => numbers(refusal as u64, 0, 0, 0),
        }
    }
}

// placed: offset, new mark; 6; 7
#[unsafe(no_mangle)]
pub extern "C" fn emuko_place(code: &[u8], store: &mut [u8], used: usize) -> Reply
    ensures { RepliesToPlacing code.now used store.old store.new result }
{
    store::place(code, store, used).into()
}

// The word that a compressed halfword is translated as; 0, which is no word, where there is none and a helper executes the halfword.
#[unsafe(no_mangle)]
pub extern "C" fn emuko_expand(halfword: u16) -> u32
    ensures { result ≡ or_0 (in_line halfword) }
{
    decode::expand(halfword).unwrap_or(0)
}

// What becomes of a word: 0 it is not taken, 1 the block goes on behind it, 2 it ends the block, 3 the memory helper does. A caller
// that fetches a run halfword by halfword needs none behind a word that is not 1, nor behind a halfword whose word is not 1
// (`needs_no_more`, crate agreement).
#[unsafe(no_mangle)]
pub extern "C" fn emuko_word_kind(instr: u32) -> u32
    ensures { result ≡ kind_number (kind instr) }
{
    kind::word_kind(instr) as u32
}

// The entry in use that has the key; where there is none, an entry of zeros, which is not in use.
#[unsafe(no_mangle)]
pub extern "C" fn emuko_index_find(entries: &[Entry], satp: u64, pc: u64) -> Entry
    ensures { RepliesToFind entries.now satp pc result }
{
    index::find(entries, Key { satp, pc }).unwrap_or_default()
}

impl From<Result<usize, index::Refusal>> for Reply {
    ghost from_gives = { λ a r. r ≡ padded (Indexed.numbered a) };

    fn from(answer: Result<usize, index::Refusal>) -> Reply {
        match answer {
            Ok(index) => numbers(0, index as u64, 0, 0),
            Err(full) => numbers(full as u64, 0, 0, 0),
        }
    }
}

// inserted: index; 8
#[unsafe(no_mangle)]
pub extern "C" fn emuko_index_insert(
    entries: &mut [Entry],
    satp: u64,
    pc: u64,
    block: NativeBlock,
) -> Reply
    ensures { RepliesToInsert entries.old entries.new satp pc block result }
{
    index::insert(entries, Key { satp, pc }, block).into()
}

// Every mark is cleared, and the store's mark returns to 0.
#[unsafe(no_mangle)]
pub extern "C" fn emuko_index_empty(entries: &mut [Entry], cache: &mut NativeCodeCache)
    ensures { Indexed.Empties entries.old entries.new cache.new.used }
{
    index::empty(entries, cache);
}

// The guest has written n bytes from an address on: the marks of the entries that they touch are cleared. How many these were.
#[unsafe(no_mangle)]
pub extern "C" fn emuko_index_drop(entries: &mut [Entry], address: u64, n: u64) -> usize
    ensures { Indexed.Drops entries.old entries.new address n result }
{
    index::drop_touched(entries, address, n)
}
