// An entry of the index of blocks. What an index does with entries stands in specs/, apart from the code; the modules promise what holds
// of it.
#![tactic(auto)]

pub mod history;
pub mod laws;

ghost use Rattle.std.specs.Prelude.{◌≡◌};
ghost use Rattle.entry.specs.Index as Index;

// What a block is found by: the page table in use and the address of its first instruction.
#[derive(Clone, Copy, PartialEq, Eq)]
pub struct Key {
    pub satp: u64,
    pub pc: u64,
}

// `NativeBlock` of src/hart.rs: where a block stands in the code store, and how many guest instructions it has; since Q-5 also how many
// bytes of code it has, and how many bytes of the guest's code it spans from its start. Nothing is range-checked.
#[repr(C)]
#[derive(Clone, Copy)]
pub struct NativeBlock {
    pub offset: usize,
    pub count: u32,
    pub length: usize,
    pub span: u64,
}

// A block under its key, whose parts C reads. The mark is a number, so that whatever a caller of another language puts there is one: 0 is
// not in use.
#[repr(C)]
#[derive(Clone, Copy)]
pub struct Entry {
    pub satp: u64,
    pub pc: u64,
    pub block: NativeBlock,
    pub in_use: u32,
}

// An entry of zeros, which is not in use. Not derived: a derived one has no clause that names the specification's entry.
impl Default for Entry {
    ghost is_default = { λ e. e ≡ Index.blank };

    fn default() -> Entry {
        let block = NativeBlock {
            offset: 0,
            count: 0,
            length: 0,
            span: 0,
        };
        Entry {
            satp: 0,
            pc: 0,
            block,
            in_use: 0,
        }
    }
}

impl Entry {
    pub fn key(&self) -> Key
        ensures { result ≡ Index.key_of self.now }
    {
        Key {
            satp: self.satp,
            pc: self.pc,
        }
    }

    pub fn is_in_use(&self) -> bool
        ensures { result ≡ Index.is_in_use self.now }
    {
        self.in_use != 0
    }

    // Whether it is in use and has the key.
    pub fn holds(&self, key: Key) -> bool
        ensures { result ≡ Index.holds key self.now }
    {
        self.is_in_use() && self.key() == key
    }

    // Whether one of the bytes that its block spans is one of n bytes from an address on. Two ranges of a circle, neither of them empty nor
    // all of it, have a common byte where one of them begins within the other.
    pub fn is_touched(&self, address: u64, n: u64) -> bool
        ensures { result ≡ Index.touches self.now.pc self.now.block.span address n }
    {
        let span = self.block.span;
        let up = address.wrapping_sub(self.pc);
        let down = self.pc.wrapping_sub(address);
        let begins_in_block = up < span && n != 0;
        let begins_in_write = down < n && span != 0;
        begins_in_block | begins_in_write
    }

    // Whether a write of n bytes from an address on frees it.
    pub fn is_dropped(&self, address: u64, n: u64) -> bool
        ensures { result ≡ Index.is_dropped address n self.now }
    {
        self.is_in_use() && self.is_touched(address, n)
    }
}
