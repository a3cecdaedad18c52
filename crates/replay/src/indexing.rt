// I lines: one index that is kept between lines.
ghost use Rattle.std.specs.Prelude.{◌≡◌};
ghost use Rattle.entry.specs.Index as Index;
ghost use Rattle.table.specs.Held.{entries_of};
ghost use Rattle.requests.specs.Indexing.{indexing_of, Fits};
ghost use Rattle.replay.specs.Kept.{block_of, Answers, Replies};

use crate::output::Output;
use entry::{Entry, Key, NativeBlock};
use requests::{Indexing, KeyedBlock};
use std::io::Write;
use store::NativeCodeCache;
use table::Table;

fn print_entry<W: Write>(e: Entry, to: &mut Output<W>) {
    let block = e.block;
    to.print(format_args!(
        "{},{:x},{:x},{},{},{},{}",
        e.in_use, e.satp, e.pc, block.offset, block.count, block.length, block.span
    ));
}

fn native_block(asked: KeyedBlock) -> NativeBlock
    ensures { result ≡ block_of asked }
{
    NativeBlock {
        offset: asked.offset,
        count: asked.count,
        length: asked.length,
        span: asked.span,
    }
}

fn insert<W: Write>(table: &mut Table, asked: KeyedBlock, to: &mut Output<W>)
    ensures { entries_of table.new
        ≡ Index.insert (entries_of table.old) (record { satp = asked.satp; pc = asked.pc }) (block_of asked) }
{
    let key = Key {
        satp: asked.satp,
        pc: asked.pc,
    };
    match table.insert(key, native_block(asked)) {
        Ok(index) => to.print(format_args!("at {index}")),
        Err(_) => to.write(b"8"),
    }
}

fn find<W: Write>(table: &Table, key: Key, to: &mut Output<W>) {
    match table.find(key) {
        Some(entry) => {
            to.write(b"found ");
            print_entry(entry, to);
        }
        None => to.write(b"none"),
    }
}

fn drop_touched<W: Write>(table: &mut Table, address: u64, n: u64, to: &mut Output<W>)
    ensures { entries_of table.new ≡ Index.drop_touched (entries_of table.old) address n }
{
    let dropped = table.drop_touched(address, n);
    to.print(format_args!("dropped {dropped}"));
}

// The store's mark is lent as a number that is not 0.
const MARK: usize = 4096;

fn empty<W: Write>(table: &mut Table, to: &mut Output<W>)
    ensures { entries_of table.new ≡ Index.empty (entries_of table.old) }
{
    let mut cache = NativeCodeCache { used: MARK };
    table.empty(&mut cache);
    to.print(format_args!("mark {}", cache.used));
}

fn show<W: Write>(table: &Table, to: &mut Output<W>) {
    for (i, e) in table.entries().iter().enumerate() {
        if i > 0 {
            to.write(b" ");
        }
        print_entry(*e, to);
    }
}

// Writes the reply to what is asked for; there is none where an entry is to be set that is not there.
fn answer<W: Write>(asked: Indexing, table: &mut Table, to: &mut Output<W>) -> Option<()>
    requires { Fits asked }
    ensures { Answers asked table.old table.new result }
{
    match asked {
        Indexing::New { n } => {
            *table = Table::new(n);
            to.write(b"ok");
        }
        Indexing::Set {
            slot,
            in_use,
            block: asked,
        } => {
            if slot >= table.n {
                return None;
            }
            // As a caller would write it.
            table.set(
                slot,
                Entry {
                    satp: asked.satp,
                    pc: asked.pc,
                    block: native_block(asked),
                    in_use,
                },
            );
            to.write(b"ok");
        }
        Indexing::Insert { block } => insert(table, block, to),
        Indexing::Find { satp, pc } => find(table, Key { satp, pc }, to),
        Indexing::Drop { address, n } => drop_touched(table, address, n, to),
        Indexing::Empty => empty(table, to),
        Indexing::Show => show(table, to),
    }
    Some(())
}

// Writes the reply to a request; there is none to a line that is no request.
pub fn reply<W: Write>(line: &[u8], table: &mut Table, to: &mut Output<W>) -> Option<()>
    ensures { Replies (indexing_of line.now) table.old table.new result }
{
    let asked = requests::read_indexing(line)?;
    answer(asked, table, to)
}
