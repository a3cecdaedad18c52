// `NativeCodeCache::alloc` and `clear` of src/hart.rs: where a block goes in the code store.
#![tactic(auto)]

ghost use Rattle.std.specs.Prelude.{◌≡◌};
ghost use Rattle.store.specs.Places.{Places, Allocates};

// Where code was placed in the store, and how much of the store is used then.
#[derive(Clone, Copy, PartialEq, Eq)]
pub struct Placed {
    pub offset: usize,
    pub mark: usize,
}

// Why code is not placed, by its numbers in docs/SCOPE.md, "Replies": the mark is beyond the store, or the code does not fit behind it.
#[derive(Clone, Copy, PartialEq, Eq)]
pub enum Refusal {
    Beyond = 6,
    Full = 7,
}

// The record of the store: how much of it is used. The store's bytes are lent beside it.
#[repr(C)]
#[derive(Clone, Copy)]
pub struct NativeCodeCache {
    pub used: usize,
}

// The code goes behind the mark, rounded up to a multiple of 4; all else in the store stays. What is free is compared with what is needed,
// so no sum can wrap.
pub fn place(code: &[u8], store: &mut [u8], used: usize) -> Result<Placed, Refusal>
    ensures { Places code.now used store.old store.new result }
{
    if store.len() < used {
        return Err(Refusal::Beyond);
    }
    let over = used % 4;
    let pad = (4 - over) % 4;
    let free = store.len() - used;
    if free < pad || free - pad < code.len() {
        return Err(Refusal::Full);
    }
    let offset = used + pad;
    let mark = offset + code.len();
    store[offset..mark].copy_from_slice(code);
    Ok(Placed { offset, mark })
}

impl NativeCodeCache {
    // The mark moves where the code was placed.
    pub fn alloc(&mut self, code: &[u8], store: &mut [u8]) -> Result<Placed, Refusal>
        ensures { Allocates code.now self.old.used self.new.used
            store.old store.new result }
    {
        let placed = place(code, store, self.used)?;
        self.used = placed.mark;
        Ok(placed)
    }

    // The mark returns to 0; the store's bytes stay as they are.
    pub fn clear(&mut self)
        ensures { self.new.used ≡ 0 }
    {
        self.used = 0;
    }
}
