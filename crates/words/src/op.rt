// The arms OPCODE_OP and OPCODE_OP_32. The Rust matches on the pair of funct7 and funct3; here on funct7, then on funct3.
// The two opcodes take different words, and those of 32 bits end in a sign extension: one function for both would ask for the width in
// nearly every arm, so each has its own, as in the Rust.
ghost use Rattle.std.specs.Prelude.{[], ◌∷◌};
ghost use Rattle.agreement.specs.X86.Encode.{bytes};
ghost use Rattle.agreement.specs.X86.Form.{alu_imm8, and, RCX, R11, mov};
ghost use Rattle.agreement.specs.Translation.Kind.{kind_op, kind_op32};
ghost use Rattle.emitter.specs.Written.{Writes, HasRoom};
ghost use Rattle.words.specs.Word.{Emits, kind_op_of, op_body, op_word};

use crate::X64EmitFlow;
use crate::result::{set_flag, sign_extended};
use crate::slots::{x64_emit_load_pair, x64_emit_store_reg};
use decode::{Decoded32, isa};
use emitter::{Alu, MulDiv, Shift, Width, X64Cc, X64Emitter};

// OP with F7_BASE.
#[inline(always)]
fn op_base(em: &mut X64Emitter<&mut [u8]>, funct3: u8) -> Option<X64EmitFlow>
    requires { HasRoom em.old 13 }
    ensures { Emits em.old (op_body (kind_op funct3 0x00)) em.new result }
{
    match funct3 {
        isa::F3_ADD_SUB => em.alu_r_r(Width::R64, Alu::Add, X64Emitter::R10, X64Emitter::R11),
        isa::F3_SLL => {
            em.mov_r64_r64(X64Emitter::RCX, X64Emitter::R11);
            em.shift_cl(Width::R64, Shift::Shl, X64Emitter::R10);
        }
        isa::F3_SLT => {
            em.alu_r_r(Width::R64, Alu::Cmp, X64Emitter::R10, X64Emitter::R11);
            set_flag(em, X64Cc::L);
        }
        isa::F3_SLTU => {
            em.alu_r_r(Width::R64, Alu::Cmp, X64Emitter::R10, X64Emitter::R11);
            set_flag(em, X64Cc::B);
        }
        isa::F3_XOR => em.alu_r_r(Width::R64, Alu::Xor, X64Emitter::R10, X64Emitter::R11),
        isa::F3_SRL_SRA => {
            em.mov_r64_r64(X64Emitter::RCX, X64Emitter::R11);
            em.shift_cl(Width::R64, Shift::Shr, X64Emitter::R10);
        }
        isa::F3_OR => em.alu_r_r(Width::R64, Alu::Or, X64Emitter::R10, X64Emitter::R11),
        isa::F3_AND => em.alu_r_r(Width::R64, Alu::And, X64Emitter::R10, X64Emitter::R11),
        _ => return None,
    }
    Some(X64EmitFlow::Continue)
}

// OP with F7_SUB_SRA.
#[inline(always)]
fn op_sub_sra(em: &mut X64Emitter<&mut [u8]>, funct3: u8) -> Option<X64EmitFlow>
    requires { HasRoom em.old 13 }
    ensures { Emits em.old (op_body (kind_op funct3 0x20)) em.new result }
{
    match funct3 {
        isa::F3_ADD_SUB => em.alu_r_r(Width::R64, Alu::Sub, X64Emitter::R10, X64Emitter::R11),
        isa::F3_SRL_SRA => {
            em.mov_r64_r64(X64Emitter::RCX, X64Emitter::R11);
            em.shift_cl(Width::R64, Shift::Sar, X64Emitter::R10);
        }
        _ => return None,
    }
    Some(X64EmitFlow::Continue)
}

// OP with F7_MULDIV.
#[inline(always)]
fn op_muldiv(em: &mut X64Emitter<&mut [u8]>, funct3: u8) -> Option<X64EmitFlow>
    requires { HasRoom em.old 34 }
    ensures { Emits em.old (op_body (kind_op funct3 0x01)) em.new result }
{
    match funct3 {
        isa::F3_MUL => em.imul_r_r(Width::R64, X64Emitter::R10, X64Emitter::R11),
        isa::F3_MULH => muldiv::mul_upper(em, MulDiv::Imul),
        isa::F3_MULHSU => muldiv::mulhsu(em),
        isa::F3_MULHU => muldiv::mul_upper(em, MulDiv::Mul),
        isa::F3_DIV => muldiv::quotient_s(em, Width::R64),
        isa::F3_DIVU => muldiv::quotient_u(em, Width::R64),
        isa::F3_REM => muldiv::remainder_s(em, Width::R64),
        isa::F3_REMU => muldiv::remainder_u(em, Width::R64),
        _ => return None,
    }
    Some(X64EmitFlow::Continue)
}

// The low five bits of R11 in CL.
#[inline(always)]
fn count32(em: &mut X64Emitter<&mut [u8]>)
    requires { HasRoom em.old 7 }
    ensures { Writes em.old (bytes (mov RCX R11 ∷ alu_imm8 and RCX 0x1F ∷ [])) em.new }
{
    em.mov_r64_r64(X64Emitter::RCX, X64Emitter::R11);
    em.alu_r64_imm8(Alu::And, X64Emitter::RCX, 0x1F);
}

// OP-32 with F7_BASE.
#[inline(always)]
fn op_32_base(em: &mut X64Emitter<&mut [u8]>, funct3: u8) -> Option<X64EmitFlow>
    requires { HasRoom em.old 13 }
    ensures { Emits em.old (op_body (kind_op32 funct3 0x00)) em.new result }
{
    match funct3 {
        isa::F3_ADD_SUB => {
            em.alu_r_r(Width::R32, Alu::Add, X64Emitter::R10, X64Emitter::R11);
            sign_extended(em)
        }
        isa::F3_SLL => {
            count32(em);
            em.shift_cl(Width::R32, Shift::Shl, X64Emitter::R10);
            sign_extended(em)
        }
        isa::F3_SRL_SRA => {
            count32(em);
            em.shift_cl(Width::R32, Shift::Shr, X64Emitter::R10);
            sign_extended(em)
        }
        _ => None,
    }
}

// OP-32 with F7_SUB_SRA.
#[inline(always)]
fn op_32_sub_sra(em: &mut X64Emitter<&mut [u8]>, funct3: u8) -> Option<X64EmitFlow>
    requires { HasRoom em.old 13 }
    ensures { Emits em.old (op_body (kind_op32 funct3 0x20)) em.new result }
{
    match funct3 {
        isa::F3_ADD_SUB => {
            em.alu_r_r(Width::R32, Alu::Sub, X64Emitter::R10, X64Emitter::R11);
            sign_extended(em)
        }
        isa::F3_SRL_SRA => {
            count32(em);
            em.shift_cl(Width::R32, Shift::Sar, X64Emitter::R10);
            sign_extended(em)
        }
        _ => None,
    }
}

// OP-32 with F7_MULDIV.
#[inline(always)]
fn op_32_muldiv(em: &mut X64Emitter<&mut [u8]>, funct3: u8) -> Option<X64EmitFlow>
    requires { HasRoom em.old 42 }
    ensures { Emits em.old (op_body (kind_op32 funct3 0x01)) em.new result }
{
    match funct3 {
        isa::F3_MUL => {
            em.imul_r_r(Width::R32, X64Emitter::R10, X64Emitter::R11);
            sign_extended(em)
        }
        isa::F3_DIV => {
            muldiv::quotient_s(em, Width::R32);
            sign_extended(em)
        }
        isa::F3_DIVU => {
            muldiv::quotient_u(em, Width::R32);
            sign_extended(em)
        }
        isa::F3_REM => {
            muldiv::remainder_s(em, Width::R32);
            sign_extended(em)
        }
        isa::F3_REMU => {
            muldiv::remainder_u(em, Width::R32);
            sign_extended(em)
        }
        _ => None,
    }
}

// OP on R10 and R11, the result in R10; of 32 bits OP-32.
#[inline(always)]
fn op_on_r10<const W: bool>(
    em: &mut X64Emitter<&mut [u8]>,
    funct3: u8,
    funct7: u8,
) -> Option<X64EmitFlow>
    requires { HasRoom em.old 42 }
    ensures { Emits em.old (op_body (kind_op_of W funct3 funct7)) em.new result }
{
    match funct7 {
        isa::F7_BASE => {
            if W {
                op_base(em, funct3)
            } else {
                op_32_base(em, funct3)
            }
        }
        isa::F7_SUB_SRA => {
            if W {
                op_sub_sra(em, funct3)
            } else {
                op_32_sub_sra(em, funct3)
            }
        }
        isa::F7_MULDIV => {
            if W {
                op_muldiv(em, funct3)
            } else {
                op_32_muldiv(em, funct3)
            }
        }
        _ => None,
    }
}

// OP; of 32 bits OP-32. W says whether a word has 64 bits: a const parameter, so that each is compiled by itself. As an argument it kept
// the compiler from inlining, and took five times as long (docs/PERFORMANCE.md).
#[inline(always)]
pub fn op_word<const W: bool>(em: &mut X64Emitter<&mut [u8]>, d: Decoded32) -> Option<X64EmitFlow>
    requires { HasRoom em.old 63 }
    ensures { Emits em.old (op_word (kind_op_of W d.funct3 d.funct7) d) em.new result }
{
    x64_emit_load_pair(em, d.rs1, d.rs2);
    let flow = op_on_r10::<W>(em, d.funct3, d.funct7)?;
    x64_emit_store_reg(em, d.rd, X64Emitter::R10);
    Some(flow)
}
