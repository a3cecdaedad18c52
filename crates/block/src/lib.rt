// `compile_native_block` of src/hart/jit_amd64.rs: a run of halfwords becomes a block at the front of a lent output.
#![tactic(auto)]

mod first;
pub mod turns;

ghost use Rattle.std.specs.Prelude.{◌≤◌};
ghost use Rattle.agreement.specs.Common.{greatest, most_steps};
ghost use Rattle.agreement.specs.Translation.Walk.{walk};
ghost use Rattle.agreement.specs.Translation.Replies.{block_of};
ghost use Rattle.emitter.specs.Written.{Room};
ghost use Rattle.block.specs.Answers.{Translates, Fits, Compiles};

use emitter::X64Emitter;
pub use walk::close::Helpers;
use walk::fetch::Missing;

// A block at the front of the output: its length, its guest instructions, and how many bytes of the guest's code it spans from its start.
// `specs/Answers` gives each answer its number and values (document 01, "Replies").
#[derive(Clone, Copy)]
pub struct Block {
    pub length: usize,
    pub count: u32,
    pub span: u64,
}

#[derive(Clone, Copy)]
pub enum Refusal {
    LimitZero,
    OddStart(u64),
    Missing(u32),
    NotTaken(u32),
    OutputShort,
}

impl From<Missing> for Refusal {
    ghost use Rattle.std.specs.Prelude.{◌≡◌};
    ghost use Rattle.block.specs.declared.Refusal.TheVariants.{Missing as MissingHalfword};

    ghost from_gives = { λ m r. r ≡ MissingHalfword m.index };

    fn from(missing: Missing) -> Refusal {
        Refusal::Missing(missing.index)
    }
}

// `greatest` of the contracts: the least output that is accepted, and the greatest length of a block.
const GREATEST: usize = 4099;

// `most_steps` of the contracts: the words of a block, whatever the limit.
const MOST_STEPS: u32 = 64;

// The block at the front of the output.
fn compile_native_block(
    start: u64,
    steps: u32,
    halfwords: &[u16],
    helpers: Helpers,
    out: &mut [u8],
) -> Block
    requires { (steps ≤ most_steps) × Room out.old 0 greatest }
    ensures { Compiles (block_of helpers.helper16 helpers.helper_mem (walk steps start halfwords.now))
        out.old out.new result }
{
    let mut em = X64Emitter::new(out);
    words::x64_emit_prologue(&mut em);
    let walked = walk::emit_words(&mut em, halfwords, start, steps);
    let count = walk::close::close(&mut em, walked.end, walked.emitted, helpers);
    Block {
        length: em.at,
        count,
        span: walked.span,
    }
}

// A run of halfwords, fetched from `start` on, becomes a block at the front of `out`: of its first `limit` instructions, 64 at most, or
// of as many as there are up to the first that ends a block, is not taken or is not whole. The answer says how long the block is. Calls
// of the two helpers go to the addresses given, which may be any.
//
// There is none, tried in this order: where the limit is 0, `LimitZero`; where the start is odd, `OddStart`; where the first instruction
// is not whole, `Missing`, with the index of the first halfword that would have to be fetched; where it is a word that is not taken,
// `NotTaken`, with that word; where the output has fewer than 4,099 bytes, whatever the block would need, `OutputShort`.
//
// All bytes of the output behind the block are as before, and all of it is where there is none.
pub fn translate(
    start: u64,
    limit: u32,
    halfwords: &[u16],
    helpers: Helpers,
    out: &mut [u8],
) -> Result<Block, Refusal>
    ensures translates { Translates start limit halfwords.now helpers.helper16 helpers.helper_mem
        out.old out.new result }
    ensures fits { Fits result out.new }
{
    if limit == 0 {
        return Err(Refusal::LimitZero);
    }
    if start % 2 == 1 {
        return Err(Refusal::OddStart(start));
    }
    first::first_word(halfwords)?;
    if out.len() < GREATEST {
        return Err(Refusal::OutputShort);
    }
    let steps = limit.min(MOST_STEPS);
    Ok(compile_native_block(start, steps, halfwords, helpers, out))
}
