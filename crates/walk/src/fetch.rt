// The two fetches of the Rust's loop, from the run of halfwords instead of a bus.
ghost use Rattle.std.specs.Prelude.{◌≡◌, ◌≤◌, ◌*◌, drop};
ghost use Rattle.walk.specs.Fetch.{fetched, to_translate};

// What stands at a place: a compressed halfword, or a word.
#[derive(Clone, Copy)]
pub enum Fetched {
    Half(u16),
    Word(u32),
}

// Nothing whole stands there: the halfword of that index is missing, counted from the place.
#[derive(Clone, Copy)]
pub struct Missing {
    pub index: u32,
}

pub fn fetch(halfwords: &[u16], k: usize) -> Result<Fetched, Missing>
    ensures { result ≡ fetched (drop k halfwords.now) }
{
    if k >= halfwords.len() {
        return Err(Missing { index: 0 });
    }
    let lower = halfwords[k];
    if lower % 4 != 3 {
        return Ok(Fetched::Half(lower));
    }
    if k + 1 >= halfwords.len() {
        return Err(Missing { index: 1 });
    }
    let upper = halfwords[k + 1];
    Ok(Fetched::Word(upper as u32 * 65536 + lower as u32))
}

// An instruction to translate: its word, and how many halfwords of the run it has.
#[derive(Clone, Copy)]
pub struct Instr {
    pub word: u32,
    pub halfwords: usize,
}

impl Instr {
    // How many bytes it has.
    pub fn size(self) -> u64
        requires { self.halfwords ≤ 2 }
        ensures { result ≡ 2 * self.halfwords }
    {
        2 * self.halfwords as u64
    }
}

impl Fetched {
    // A word is translated as it is, and a halfword as the word that it expands to; one that has none goes to the helper (document 02,
    // Q-7). The Rust sends every halfword there.
    #[inline(always)]
    pub fn to_translate(self) -> Result<Instr, u16>
        ensures { result ≡ to_translate self }
    {
        match self {
            Fetched::Word(word) => Ok(Instr { word, halfwords: 2 }),
            Fetched::Half(halfword) => match decode::expand(halfword) {
                Some(word) => Ok(Instr { word, halfwords: 1 }),
                None => Err(halfword),
            },
        }
    }
}
