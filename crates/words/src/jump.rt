// The arms OPCODE_JAL, OPCODE_JALR and OPCODE_BRANCH: words that end a block, with the next pc in RAX.
ghost use Rattle.std.specs.Prelude.{◌≡◌, ◌+◌, ◌≤◌, ℕ};
ghost use Rattle.agreement.specs.X86.Encode.{bytes};
ghost use Rattle.agreement.specs.Translation.Kind.{kind_branch};
ghost use Rattle.agreement.specs.Translation.Emit.{code_jal, code_jalr, compare};
ghost use Rattle.emitter.specs.Args.{cc_of};
ghost use Rattle.emitter.specs.Written.{Writes, HasRoom};
ghost use Rattle.words.specs.Word.{Emits, select, select_if, branch_body, branch_word, jalr_target, jalr_link, jalr_word};

use crate::X64EmitFlow;
use crate::slots::{x64_emit_const, x64_emit_load_pair, x64_emit_load_reg};
use decode::{Decoded32, XReg, isa};
use emitter::{Alu, Width, X64Cc, X64Emitter};

// JAL: the link to rd, the target in RAX.
#[inline(always)]
pub fn jal(em: &mut X64Emitter<&mut [u8]>, rd: XReg, link: u64, target: u64)
    requires { HasRoom em.old 27 }
    ensures { Writes em.old (bytes (code_jal rd link target)) em.new }
{
    x64_emit_const(em, rd, link);
    em.mov_r64_imm64(X64Emitter::RAX, target);
}

// rs1 and the immediate, without bit 0, in R10.
#[inline(always)]
fn jalr_target(em: &mut X64Emitter<&mut [u8]>, rs1: XReg, imm: u32)
    requires { HasRoom em.old 21 }
    ensures { Writes em.old (bytes (jalr_target rs1 imm)) em.new }
{
    x64_emit_load_reg(em, X64Emitter::R10, rs1);
    em.alu_r64_imm32(Alu::Add, X64Emitter::R10, imm);
    em.alu_r64_imm32(Alu::And, X64Emitter::R10, 0xFFFF_FFFE);
}

// The link to rd through R11, since R10 holds the target; nothing for x0.
#[inline(always)]
fn jalr_link(em: &mut X64Emitter<&mut [u8]>, rd: XReg, link: u64)
    requires { HasRoom em.old 17 }
    ensures written { Writes em.old (bytes (jalr_link rd link)) em.new }
    ensures short { em.new.at ≤ em.old.at + 17 }
{
    if !rd.is_x0() {
        em.mov_r64_imm64(X64Emitter::R11, link);
        em.mov_m64_disp32_r64(X64Emitter::RBX, 8 * rd.number() as u32, X64Emitter::R11);
    }
}

// JALR: the target is computed before the link is stored, since rd may be rs1.
#[inline(always)]
fn jalr(em: &mut X64Emitter<&mut [u8]>, rd: XReg, rs1: XReg, imm: u32, link: u64)
    requires { HasRoom em.old 41 }
    ensures { Writes em.old (bytes (code_jalr rd rs1 imm link)) em.new }
{
    jalr_target(em, rs1, imm);
    jalr_link(em, rd, link);
    em.mov_r64_r64(X64Emitter::RAX, X64Emitter::R10);
}

// The words of JALR's opcode: a reserved funct3 is not taken, and nothing is written for it (document 02, Q-6). The Rust takes it as JALR.
#[inline(always)]
pub fn jalr_word(
    em: &mut X64Emitter<&mut [u8]>,
    d: Decoded32,
    imm: u32,
    link: u64,
) -> Option<X64EmitFlow>
    requires { HasRoom em.old 41 }
    ensures { Emits em.old (jalr_word d imm link) em.new result }
{
    if d.funct3 != isa::F3_JALR {
        return None;
    }
    jalr(em, d.rd, d.rs1, imm, link);
    Some(X64EmitFlow::Terminate)
}

// The condition of a branch; none for a reserved funct3.
fn branch_condition(funct3: u8) -> Option<X64Cc>
    ensures { (next target : ℕ) → select_if result next target ≡ branch_body (kind_branch funct3) next target }
{
    match funct3 {
        isa::F3_BEQ => Some(X64Cc::E),
        isa::F3_BNE => Some(X64Cc::NE),
        isa::F3_BLT => Some(X64Cc::L),
        isa::F3_BGE => Some(X64Cc::GE),
        isa::F3_BLTU => Some(X64Cc::B),
        isa::F3_BGEU => Some(X64Cc::AE),
        _ => None,
    }
}

// Both source registers, and their comparison.
#[inline(always)]
fn branch_compare(em: &mut X64Emitter<&mut [u8]>, rs1: XReg, rs2: XReg)
    requires { HasRoom em.old 17 }
    ensures { Writes em.old (bytes (compare rs1 rs2)) em.new }
{
    x64_emit_load_pair(em, rs1, rs2);
    em.alu_r_r(Width::R64, Alu::Cmp, X64Emitter::R10, X64Emitter::R11);
}

// The target in RAX where the condition holds, else the next pc.
#[inline(always)]
fn branch_select(em: &mut X64Emitter<&mut [u8]>, next: u64, target: u64, cc: X64Cc)
    requires { HasRoom em.old 27 }
    ensures { Writes em.old (bytes (select (cc_of cc) next target)) em.new }
{
    em.mov_r64_imm64(X64Emitter::R11, next);
    em.mov_r64_imm64(X64Emitter::RAX, target);
    em.cmovcc_r64_r64(X64Emitter::R11, X64Emitter::RAX, cc);
    em.mov_r64_r64(X64Emitter::RAX, X64Emitter::R11);
}

// BRANCH: a reserved funct3 is not taken, behind the comparison.
#[inline(always)]
pub fn branch_word(
    em: &mut X64Emitter<&mut [u8]>,
    d: Decoded32,
    next: u64,
    target: u64,
) -> Option<X64EmitFlow>
    requires { HasRoom em.old 44 }
    ensures { Emits em.old (branch_word (kind_branch d.funct3) d next target) em.new result }
{
    branch_compare(em, d.rs1, d.rs2);
    let cc = branch_condition(d.funct3)?;
    branch_select(em, next, target, cc);
    Some(X64EmitFlow::Terminate)
}
