// What becomes of a word: document 01, "Words taken". The Rust decides it in the matches of `emit_native_instr_x64` and
// `emit_native_term_mem_helper_x64`; a caller that fetches a run halfword by halfword asks for the answer alone. Unlike the Rust,
// FENCE.I ends the block (document 02, Q-1), the rest of M is taken (Q-2), and JALR with a reserved funct3 is not (Q-6).
#![tactic(auto)]

mod family;

ghost use Rattle.std.specs.Prelude.{◌≡◌};
ghost use Rattle.agreement.specs.Translation.Kind.{kind, kind_number};
ghost use Rattle.kind.specs.Numbered.{number_of};

use family::Family;

// The block goes on behind a straight word; an ending word ends it; at a load or store the memory helper does. Document 02 numbers them so
// at Q-9.
#[derive(Clone, Copy)]
pub enum WordKind {
    NotTaken = 0,
    Straight = 1,
    Ending = 2,
    MemoryHelper = 3,
}

// Words come in no order that a processor could learn, so no branch here depends on more than whether the word is taken, but for that of
// FENCE.I, which is rare.
pub fn word_kind(instr: u32) -> WordKind
    ensures { number_of result ≡ kind_number (kind instr) }
{
    let d = decode::decode32(instr);
    let family = Family::of(d.opcode);
    let place = 8 * family::class(d.funct7) + d.funct3;
    if (family.taken >> place) % 2 != 1 {
        return WordKind::NotTaken;
    }
    if (family.ending >> d.funct3) % 2 == 1 {
        return WordKind::Ending;
    }
    family.kind
}
