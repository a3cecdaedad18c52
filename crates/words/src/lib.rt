// `emit_native_instr_x64` of src/hart/jit_amd64.rs: a word of the run becomes host instructions in a lent output. Inlined as the emitter's
// functions are.
#![tactic(auto)]

mod frame;
mod helper;
mod jump;
mod op;
mod op_imm;
mod result;
mod slots;

ghost use Rattle.std.specs.Prelude.{◌≡◌, ◌%◌, ◌^◌};
ghost use Rattle.agreement.specs.Riscv.Immediates.{imm_i};
ghost use Rattle.agreement.specs.Translation.Kind.{kind, kind_fence};
ghost use Rattle.emitter.specs.Written.{HasRoom};
ghost use Rattle.words.specs.Word.{Emits, word_as, fence_word, word_by};

pub use crate::frame::{x64_emit_epilogue, x64_emit_prologue};
pub use crate::helper::emit_native_term_helper_x64;
use crate::slots::x64_emit_const;
use decode::{Decoded32, isa};
use emitter::X64Emitter;

// `Terminate`: the word is the block's last, and has set RAX. `StopBehind`, which the Rust does not have: the word is the block's last;
// the block goes on at the word behind, and its end sets RAX.
#[derive(Clone, Copy)]
pub enum X64EmitFlow {
    Continue,
    Terminate,
    StopBehind,
}

// OP-IMM's and JALR's immediate, for an instruction that sign-extends 32 bits.
fn imm32(instr: u32) -> u32
    ensures { result ≡ imm_i instr % 2 ^ 32 }
{
    (decode::imm_i(instr) % 0x1_0000_0000) as u32
}

// MISC-MEM: the fences have no code of their own. Behind FENCE.I the guest's code may be another than before it, so the block ends
// (document 02, Q-1); in the Rust it goes on.
#[inline(always)]
fn fence_word(em: &mut X64Emitter<&mut [u8]>, funct3: u8) -> Option<X64EmitFlow>
    ensures { Emits em.old (fence_word (kind_fence funct3)) em.new result }
{
    match funct3 {
        isa::F3_FENCE => Some(X64EmitFlow::Continue),
        isa::F3_FENCE_I => Some(X64EmitFlow::StopBehind),
        _ => None,
    }
}

// The match on the opcode. The immediates, the link and the target are worked out once, here.
#[inline(always)]
fn emit_by_opcode(
    em: &mut X64Emitter<&mut [u8]>,
    pc: u64,
    size: u64,
    instr: u32,
    d: Decoded32,
) -> Option<X64EmitFlow>
    requires { HasRoom em.old 63 }
    ensures { Emits em.old (word_by size pc instr d) em.new result }
{
    match d.opcode {
        isa::OPCODE_LUI => {
            x64_emit_const(em, d.rd, decode::imm_u(instr));
            Some(X64EmitFlow::Continue)
        }
        isa::OPCODE_AUIPC => {
            let value = pc.wrapping_add(decode::imm_u(instr));
            x64_emit_const(em, d.rd, value);
            Some(X64EmitFlow::Continue)
        }
        isa::OPCODE_JAL => {
            let link = pc.wrapping_add(size);
            let target = pc.wrapping_add(decode::imm_j(instr));
            jump::jal(em, d.rd, link, target);
            Some(X64EmitFlow::Terminate)
        }
        isa::OPCODE_JALR => {
            let link = pc.wrapping_add(size);
            jump::jalr_word(em, d, imm32(instr), link)
        }
        isa::OPCODE_BRANCH => {
            let next = pc.wrapping_add(size);
            let target = pc.wrapping_add(decode::imm_b(instr));
            jump::branch_word(em, d, next, target)
        }
        isa::OPCODE_OP_IMM => op_imm::op_imm_word::<true>(em, d, imm32(instr)),
        isa::OPCODE_OP_IMM_32 => op_imm::op_imm_word::<false>(em, d, imm32(instr)),
        isa::OPCODE_OP => op::op_word::<true>(em, d),
        isa::OPCODE_OP_32 => op::op_word::<false>(em, d),
        isa::OPCODE_MISC_MEM => fence_word(em, d.funct3),
        _ => None,
    }
}

// A word of the run at pc: its host instructions, and how the block goes on behind it. None, as in the Rust: the word is not taken, or a
// load or store; there is no code for it but the loads in front of its test, of which JALR has none.
#[inline(always)]
pub fn emit_native_instr_x64(
    em: &mut X64Emitter<&mut [u8]>,
    pc: u64,
    size: u64,
    instr: u32,
) -> Option<X64EmitFlow>
    requires { HasRoom em.old 63 }
    ensures { Emits em.old (word_as (kind instr) size pc instr) em.new result }
{
    let d = decode::decode32(instr);
    emit_by_opcode(em, pc, size, instr, d)
}
