// An index of up to 64 entries for a program that keeps one between calls: the first n entries of the array are lent to the index's
// functions.
#![tactic(auto)]

ghost use Rattle.std.specs.Prelude.{◌≤◌};

use entry::{Entry, Key, NativeBlock};
use index::Refusal;
use store::NativeCodeCache;

// An array with its count, and no `Vec`: no program allocates.
#[derive(Clone, Copy)]
pub struct Table {
    pub entries: [Entry; 64],
    pub n: usize,
    ghost within: { n ≤ 64 },
}

impl Table {
    ghost use Rattle.std.specs.Prelude.{◌≡◌, replicate, set};
    ghost use Rattle.entry.specs.Index as Index;
    ghost use Rattle.index.specs.Answers.{Finds, Inserts, Empties, Drops};
    ghost use Rattle.table.specs.Held.{entries_of, AtFront};

    // n entries of zeros.
    pub fn new(n: usize) -> Table
        requires { n ≤ 64 }
        ensures { entries_of result ≡ replicate n Index.blank }
    {
        Table {
            entries: [Entry::default(); 64],
            n,
        }
    }

    // The first n entries.
    pub fn entries(&self) -> &[Entry]
        ensures { result.now ≡ entries_of self.now }
    {
        &self.entries[..self.n]
    }

    // The first entry in use of the first n that has the key.
    pub fn find(&self, key: Key) -> Option<Entry>
        ensures { Finds (entries_of self.now) key result }
    {
        index::find(self.entries(), key)
    }

    // The entry takes the place of that slot's, where the slot is one of the n.
    pub fn set(&mut self, slot: usize, entry: Entry)
        ensures { AtFront self.old self.new (λ es es'. es' ≡ set es slot entry) }
    {
        if slot < self.n {
            self.entries[slot] = entry;
        }
    }

    // The first n entries take the block, or are full; the others stay. Here, in `empty` and in `drop_touched` the array is copied and
    // stored back: where the struct has a ghost field, its array can't be lent from behind a `&mut`.
    pub fn insert(&mut self, key: Key, block: NativeBlock) -> Result<usize, Refusal>
        ensures { AtFront self.old self.new (λ es es'. Inserts es es' key block result) }
    {
        let mut entries = self.entries;
        let answer = index::insert(&mut entries[..self.n], key, block);
        self.entries = entries;
        answer
    }

    // The marks of the first n entries are cleared, and the store's mark returns to 0.
    pub fn empty(&mut self, cache: &mut NativeCodeCache)
        ensures { AtFront self.old self.new (λ es es'. Empties es es' cache.new.used) }
    {
        let mut entries = self.entries;
        index::empty(&mut entries[..self.n], cache);
        self.entries = entries;
    }

    // Those of the first n entries that a write touches are dropped. How many they were.
    pub fn drop_touched(&mut self, address: u64, n: u64) -> usize
        ensures { AtFront self.old self.new (λ es es'. Drops es es' address n result) }
    {
        let mut entries = self.entries;
        let answer = index::drop_touched(&mut entries[..self.n], address, n);
        self.entries = entries;
        answer
    }
}
