// The index of blocks (document 02, Q-4 and Q-5): a caller lends a slice of entries.
#![tactic(auto)]

pub mod history;

ghost use Rattle.std.specs.Prelude.{◌≡◌};
ghost use Rattle.std.specs.List.{position};
ghost use Rattle.entry.specs.Index.{taken, renewed};
ghost use Rattle.entry.specs.Index as Index;
ghost use Rattle.index.specs.Answers.{Finds, Inserts, Empties, Drops};

use entry::{Entry, Key, NativeBlock};
use store::NativeCodeCache;

// Why a block is not inserted, by its number in docs/SCOPE.md, "Replies": the key is new and every entry is in use.
#[derive(Clone, Copy, PartialEq, Eq)]
pub enum Refusal {
    Full = 8,
}

// The first entry in use that has the key.
pub fn find(entries: &[Entry], key: Key) -> Option<Entry>
    ensures { Finds entries.now key result }
{
    entries.iter().copied().find(|e| e.holds(key))
}

// The index of the first entry in use that has the key.
fn held(entries: &[Entry], key: Key) -> Option<usize>
    ensures { result ≡ position (Index.holds key) entries.now }
{
    entries.iter().position(|e| e.holds(key))
}

// The index of the first entry that is not in use.
fn vacant(entries: &[Entry]) -> Option<usize>
    ensures { result ≡ position Index.free entries.now }
{
    entries.iter().position(|e| !e.is_in_use())
}

// The index of the entry that a block with this key goes to. A `match`: of what the closure that `or_else` takes returned the proof learns
// nothing.
fn slot_for(entries: &[Entry], key: Key) -> Option<usize>
    ensures { result ≡ position (taken entries.now key) entries.now }
{
    match held(entries, key) {
        Some(index) => Some(index),
        None => vacant(entries),
    }
}

// The entry with a block in the place of another: a mark that is not 0 stays, and 0 becomes 1.
fn renew(old: Entry, key: Key, block: NativeBlock) -> Entry
    ensures { result ≡ renewed key block old }
{
    Entry {
        satp: key.satp,
        pc: key.pc,
        block,
        in_use: old.in_use.max(1),
    }
}

// Over the entry in use that has the key, where there is one; a new key takes the first entry not in use.
pub fn insert(entries: &mut [Entry], key: Key, block: NativeBlock) -> Result<usize, Refusal>
    ensures { Inserts entries.old entries.new key block result }
{
    let index = slot_for(entries, key).ok_or(Refusal::Full)?;
    entries[index] = renew(entries[index], key, block);
    Ok(index)
}

// Every mark is cleared, and the code store's mark returns to 0. The store's bytes are not lent, and stay. A caller does this, once, to an
// index whose blocks were made by other rules than today's (`rules`, crate agreement; document 02, Q-6), before its next use.
pub fn empty(entries: &mut [Entry], cache: &mut NativeCodeCache)
    ensures { Empties entries.old entries.new cache.new.used }
{
    for e in entries.iter_mut() {
        e.in_use = 0;
    }
    cache.clear();
}

// The guest has written n bytes from an address on: the marks of the entries in use whose blocks span one of them are cleared, under
// every satp. How many they were.
pub fn drop_touched(entries: &mut [Entry], address: u64, n: u64) -> usize
    ensures { Drops entries.old entries.new address n result }
{
    let mut dropped = 0;
    for entry in entries.iter_mut() {
        if entry.is_dropped(address, n) {
            entry.in_use = 0;
            dropped += 1;
        }
    }
    dropped
}
