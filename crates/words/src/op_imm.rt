// The arms OPCODE_OP_IMM and OPCODE_OP_IMM_32. A shift is taken by the bits above its amount. The two take different words, as in op.rt.
ghost use Rattle.std.specs.Prelude.{◌/◌};
ghost use Rattle.agreement.specs.Translation.Kind.{kind_op_imm, kind_op_imm32};
ghost use Rattle.emitter.specs.Written.{HasRoom};
ghost use Rattle.words.specs.Word.{Emits, kind_op_imm_of, op_imm_body, op_imm_word};

use crate::X64EmitFlow;
use crate::result::{set_flag, sign_extended};
use crate::slots::{x64_emit_load_reg, x64_emit_store_reg};
use decode::{Decoded32, isa};
use emitter::{Alu, Shift, Width, X64Cc, X64Emitter};

// OP-IMM on R10, the result in R10.
#[inline(always)]
fn op_imm_on_r10(em: &mut X64Emitter<&mut [u8]>, d: &Decoded32, imm: u32) -> Option<X64EmitFlow>
    requires { HasRoom em.old 14 }
    ensures { Emits em.old (op_imm_body (kind_op_imm d.now.funct3 (d.now.imm12 / 64)) d.now imm) em.new result }
{
    let imm_hi = d.imm12 / 64;
    let shamt = (d.imm12 % 64) as u8;
    match d.funct3 {
        isa::F3_ADD_SUB => em.alu_r64_imm32(Alu::Add, X64Emitter::R10, imm),
        isa::F3_SLT => {
            em.alu_r64_imm32(Alu::Cmp, X64Emitter::R10, imm);
            set_flag(em, X64Cc::L);
        }
        isa::F3_SLTU => {
            em.alu_r64_imm32(Alu::Cmp, X64Emitter::R10, imm);
            set_flag(em, X64Cc::B);
        }
        isa::F3_XOR => em.alu_r64_imm32(Alu::Xor, X64Emitter::R10, imm),
        isa::F3_OR => em.alu_r64_imm32(Alu::Or, X64Emitter::R10, imm),
        isa::F3_AND => em.alu_r64_imm32(Alu::And, X64Emitter::R10, imm),
        isa::F3_SLL => match imm_hi {
            0x00 => em.shift_imm8(Width::R64, Shift::Shl, X64Emitter::R10, shamt),
            _ => return None,
        },
        isa::F3_SRL_SRA => match imm_hi {
            0x00 => em.shift_imm8(Width::R64, Shift::Shr, X64Emitter::R10, shamt),
            0x10 => em.shift_imm8(Width::R64, Shift::Sar, X64Emitter::R10, shamt),
            _ => return None,
        },
        _ => return None,
    }
    Some(X64EmitFlow::Continue)
}

// OP-IMM-32 on R10, the result in R10.
#[inline(always)]
fn op_imm_32_on_r10(em: &mut X64Emitter<&mut [u8]>, d: &Decoded32, imm: u32) -> Option<X64EmitFlow>
    requires { HasRoom em.old 14 }
    ensures { Emits em.old (op_imm_body (kind_op_imm32 d.now.funct3 d.now.funct7) d.now imm) em.new result }
{
    let shamt = (d.imm12 % 32) as u8;
    match d.funct3 {
        isa::F3_ADD_SUB => {
            em.alu_r64_imm32(Alu::Add, X64Emitter::R10, imm);
            sign_extended(em)
        }
        isa::F3_SLL => match d.funct7 {
            isa::F7_BASE => {
                em.shift_imm8(Width::R32, Shift::Shl, X64Emitter::R10, shamt);
                sign_extended(em)
            }
            _ => None,
        },
        isa::F3_SRL_SRA => match d.funct7 {
            isa::F7_BASE => {
                em.shift_imm8(Width::R32, Shift::Shr, X64Emitter::R10, shamt);
                sign_extended(em)
            }
            isa::F7_SUB_SRA => {
                em.shift_imm8(Width::R32, Shift::Sar, X64Emitter::R10, shamt);
                sign_extended(em)
            }
            _ => None,
        },
        _ => None,
    }
}

// OP-IMM on R10, the result in R10; of 32 bits OP-IMM-32.
#[inline(always)]
fn on_r10<const W: bool>(
    em: &mut X64Emitter<&mut [u8]>,
    d: &Decoded32,
    imm: u32,
) -> Option<X64EmitFlow>
    requires { HasRoom em.old 14 }
    ensures { Emits em.old (op_imm_body (kind_op_imm_of W d.now) d.now imm) em.new result }
{
    if W {
        op_imm_on_r10(em, d, imm)
    } else {
        op_imm_32_on_r10(em, d, imm)
    }
}

// OP-IMM; of 32 bits OP-IMM-32. W says whether a word has 64 bits.
#[inline(always)]
pub fn op_imm_word<const W: bool>(
    em: &mut X64Emitter<&mut [u8]>,
    d: Decoded32,
    imm: u32,
) -> Option<X64EmitFlow>
    requires { HasRoom em.old 34 }
    ensures { Emits em.old (op_imm_word (kind_op_imm_of W d) d imm) em.new result }
{
    x64_emit_load_reg(em, X64Emitter::R10, d.rs1);
    let flow = on_r10::<W>(em, &d, imm)?;
    x64_emit_store_reg(em, d.rd, X64Emitter::R10);
    Some(flow)
}
