// The loop of the Rust's `compile_native_block`.
ghost use Rattle.std.specs.Prelude.{◌≡◌, ◌+◌, ◌*◌, ◌≤◌};
ghost use Rattle.agreement.specs.Common.{most_steps};
ghost use Rattle.agreement.specs.Translation.Walk.{walk};
ghost use Rattle.emitter.specs.Written.{HasRoom};
ghost use Rattle.kind.specs.Numbered.{number_of};
ghost use Rattle.words.specs.Word.{end_by};
ghost use Rattle.walk.specs.Walks.{Walks, end_as, walked_of};

use crate::close::{End, Helper};
use crate::fetch::fetch;
use emitter::X64Emitter;
use kind::WordKind;
use words::X64EmitFlow;

// How many instructions the block has before its end, how many bytes of the guest's code it spans with that of a helper, and how it ends.
#[derive(Clone, Copy)]
pub struct Walked {
    pub emitted: u32,
    pub span: u64,
    pub end: End,
}

impl Walked {
    // Behind `emitted` instructions, which have so many halfwords.
    #[inline(always)]
    fn new(emitted: u32, halfwords: usize, end: End) -> Walked
        requires { halfwords ≤ 2 * most_steps }
        ensures { result ≡ walked_of emitted halfwords end }
    {
        Walked {
            emitted,
            span: 2 * halfwords as u64 + end.size(),
            end,
        }
    }
}

// At a load or store the memory helper ends the block; at any other word that is not emitted, the block goes on.
fn end_by_kind(what: WordKind, instr: u32, pc: u64) -> End
    ensures { end_as result ≡ end_by (number_of what) pc instr }
{
    match what {
        WordKind::MemoryHelper => End::Calls {
            helper: Helper::Access,
            instr,
            pc,
        },
        WordKind::NotTaken | WordKind::Straight | WordKind::Ending => End::GoesOn(pc),
    }
}

// The instructions of the run, from its first one at `start` on, `steps` of them at most. A word that is not emitted leaves its bytes and
// counts nothing. FENCE.I is the block's last word and has not set RAX: it counts, and the block's end sets RAX to the word behind it.
#[inline(always)]
pub fn emit_words(
    em: &mut X64Emitter<&mut [u8]>,
    halfwords: &[u16],
    start: u64,
    steps: u32,
) -> Walked
    requires { (steps ≤ most_steps) × HasRoom em.old (63 * steps + 35) }
    ensures walks { Walks em.old 0 0 (walk steps start halfwords.now) em.new result }
    ensures emitted_le_most_steps { result.emitted ≤ most_steps }
{
    let mut pc = start;
    let mut k = 0;
    for emitted in 0..steps {
        let Ok(fetched) = fetch(halfwords, k) else {
            return Walked::new(emitted, k, End::GoesOn(pc));
        };
        let instr = match fetched.to_translate() {
            Ok(instr) => instr,
            Err(halfword) => {
                let end = End::Calls {
                    helper: Helper::Halfword,
                    instr: halfword as u32,
                    pc,
                };
                return Walked::new(emitted, k, end);
            }
        };
        let size = instr.size();
        let next_pc = pc.wrapping_add(size);
        let next_k = k + instr.halfwords;
        match words::emit_native_instr_x64(em, pc, size, instr.word) {
            Some(X64EmitFlow::Continue) => {
                pc = next_pc;
                k = next_k;
            }
            Some(X64EmitFlow::Terminate) => return Walked::new(emitted + 1, next_k, End::Jumped),
            Some(X64EmitFlow::StopBehind) => {
                return Walked::new(emitted + 1, next_k, End::GoesOn(next_pc));
            }
            None => {
                let end = end_by_kind(kind::word_kind(instr.word), instr.word, pc);
                return Walked::new(emitted, k, end);
            }
        }
    }
    Walked::new(steps, k, End::GoesOn(pc))
}
