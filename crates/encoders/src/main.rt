// Writes one instruction of each host form, so that a disassembler can be held against the emitter: its compiled code runs here.
#![tactic(auto)]

ghost use Rattle.std.specs.Prelude.{◌≡◌, ◌≤◌, length, take};
ghost use Rattle.emitter.specs.Written.{HasRoom};
ghost use Rattle.encoders.specs.Advances.{Advances};

use emitter::{Alu, MulDiv, Shift, Width, X64Cc, X64Emitter};
use std::io;
use std::io::Write;

// PUSH, POP.
fn pushes_and_pops(em: &mut X64Emitter<&mut [u8]>)
    requires { HasRoom em.old 32 }
    ensures { Advances em.old 32 em.new }
{
    em.push_r64(X64Emitter::R12);
    em.push_r64(X64Emitter::RBX);
    em.pop_r64(X64Emitter::RBP);
    em.pop_r64(X64Emitter::R15);
}

// MOV between registers, from an immediate, from and to memory.
fn moves(em: &mut X64Emitter<&mut [u8]>)
    requires { HasRoom em.old 32 }
    ensures { Advances em.old 32 em.new }
{
    em.mov_r64_r64(X64Emitter::R13, X64Emitter::RDX);
    em.mov_r64_imm64(X64Emitter::R8, 0x1122_3344_5566_7788);
    em.mov_r64_m64_disp32(X64Emitter::R10, X64Emitter::RBX, 0x78);
    em.mov_m64_disp32_r64(X64Emitter::R12, 0xF8, X64Emitter::RAX);
}

// ADD of 64 and 32 bits, and of an immediate.
fn additions(em: &mut X64Emitter<&mut [u8]>)
    requires { HasRoom em.old 32 }
    ensures { Advances em.old 32 em.new }
{
    em.alu_r_r(Width::R64, Alu::Add, X64Emitter::R10, X64Emitter::R11);
    em.alu_r_r(Width::R32, Alu::Add, X64Emitter::R10, X64Emitter::RCX);
    em.alu_r64_imm32(Alu::Add, X64Emitter::R10, 0xFFFF_F800);
}

// SUB of 64 and 32 bits.
fn subtractions(em: &mut X64Emitter<&mut [u8]>)
    requires { HasRoom em.old 32 }
    ensures { Advances em.old 32 em.new }
{
    em.alu_r_r(Width::R64, Alu::Sub, X64Emitter::RCX, X64Emitter::R10);
    em.alu_r_r(Width::R32, Alu::Sub, X64Emitter::RAX, X64Emitter::RDX);
}

// AND, AND with an immediate, OR.
fn ands_and_or(em: &mut X64Emitter<&mut [u8]>)
    requires { HasRoom em.old 32 }
    ensures { Advances em.old 32 em.new }
{
    em.alu_r_r(Width::R64, Alu::And, X64Emitter::R10, X64Emitter::R11);
    em.alu_r64_imm32(Alu::And, X64Emitter::R10, 0x7FF);
    em.alu_r_r(Width::R64, Alu::Or, X64Emitter::R10, X64Emitter::R11);
}

// XOR, XOR with an immediate.
fn xors(em: &mut X64Emitter<&mut [u8]>)
    requires { HasRoom em.old 32 }
    ensures { Advances em.old 32 em.new }
{
    em.alu_r_r(Width::R64, Alu::Xor, X64Emitter::R10, X64Emitter::R11);
    em.alu_r64_imm32(Alu::Xor, X64Emitter::R10, 0xFFFF_FFFF);
}

// OR with an immediate of four bytes, AND with one of one byte.
fn or_and_with_immediates(em: &mut X64Emitter<&mut [u8]>)
    requires { HasRoom em.old 32 }
    ensures { Advances em.old 32 em.new }
{
    em.alu_r64_imm32(Alu::Or, X64Emitter::R10, 1);
    em.alu_r64_imm8(Alu::And, X64Emitter::RCX, 0x1F);
}

// CMP, CMP with an immediate.
fn comparisons(em: &mut X64Emitter<&mut [u8]>)
    requires { HasRoom em.old 32 }
    ensures { Advances em.old 32 em.new }
{
    em.alu_r_r(Width::R64, Alu::Cmp, X64Emitter::R10, X64Emitter::R11);
    em.alu_r64_imm32(Alu::Cmp, X64Emitter::R10, 0x80);
}

// SHL, SHR, SAR of 64 bits by CL.
fn shifts_64_by_cl(em: &mut X64Emitter<&mut [u8]>)
    requires { HasRoom em.old 32 }
    ensures { Advances em.old 32 em.new }
{
    em.shift_cl(Width::R64, Shift::Shl, X64Emitter::R10);
    em.shift_cl(Width::R64, Shift::Shr, X64Emitter::R10);
    em.shift_cl(Width::R64, Shift::Sar, X64Emitter::R10);
}

// SHL, SHR, SAR of 64 bits by a byte.
fn shifts_64_by_imm8(em: &mut X64Emitter<&mut [u8]>)
    requires { HasRoom em.old 32 }
    ensures { Advances em.old 32 em.new }
{
    em.shift_imm8(Width::R64, Shift::Shl, X64Emitter::R10, 63);
    em.shift_imm8(Width::R64, Shift::Shr, X64Emitter::R10, 1);
    em.shift_imm8(Width::R64, Shift::Sar, X64Emitter::R10, 32);
}

// SHL, SHR, SAR of 32 bits by CL.
fn shifts_32_by_cl(em: &mut X64Emitter<&mut [u8]>)
    requires { HasRoom em.old 32 }
    ensures { Advances em.old 32 em.new }
{
    em.shift_cl(Width::R32, Shift::Shl, X64Emitter::R10);
    em.shift_cl(Width::R32, Shift::Shr, X64Emitter::R10);
    em.shift_cl(Width::R32, Shift::Sar, X64Emitter::RAX);
}

// SHL, SHR, SAR of 32 bits by a byte.
fn shifts_32_by_imm8(em: &mut X64Emitter<&mut [u8]>)
    requires { HasRoom em.old 32 }
    ensures { Advances em.old 32 em.new }
{
    em.shift_imm8(Width::R32, Shift::Shl, X64Emitter::R10, 31);
    em.shift_imm8(Width::R32, Shift::Shr, X64Emitter::RDI, 1);
    em.shift_imm8(Width::R32, Shift::Sar, X64Emitter::R10, 5);
}

// IMUL of 64 and 32 bits.
fn products(em: &mut X64Emitter<&mut [u8]>)
    requires { HasRoom em.old 32 }
    ensures { Advances em.old 32 em.new }
{
    em.imul_r_r(Width::R64, X64Emitter::R10, X64Emitter::R11);
    em.imul_r_r(Width::R32, X64Emitter::RAX, X64Emitter::RDX);
}

// MOVSXD.
fn sign_extension(em: &mut X64Emitter<&mut [u8]>)
    requires { HasRoom em.old 32 }
    ensures { Advances em.old 32 em.new }
{
    em.movsxd_r64_r32(X64Emitter::R10, X64Emitter::RAX);
}

// SETcc, MOVZX of its byte, CMOVcc.
fn conditions(em: &mut X64Emitter<&mut [u8]>)
    requires { HasRoom em.old 32 }
    ensures { Advances em.old 32 em.new }
{
    em.setcc_al(X64Cc::L);
    em.movzx_r64_r8(X64Emitter::R10, X64Emitter::RAX);
    em.cmovcc_r64_r64(X64Emitter::RAX, X64Emitter::R11, X64Cc::AE);
}

// SUB RSP, ADD RSP, CALL RAX, RET.
fn stack_call_and_return(em: &mut X64Emitter<&mut [u8]>)
    requires { HasRoom em.old 32 }
    ensures { Advances em.old 32 em.new }
{
    em.alu_r64_imm8(Alu::Sub, X64Emitter::RSP, 8);
    em.alu_r64_imm8(Alu::Add, X64Emitter::RSP, 8);
    em.call_rax();
    em.ret();
}

// MUL and IMUL of one operand.
fn wide_products(em: &mut X64Emitter<&mut [u8]>)
    requires { HasRoom em.old 32 }
    ensures { Advances em.old 32 em.new }
{
    em.mul_div(Width::R64, MulDiv::Mul, X64Emitter::R11);
    em.mul_div(Width::R64, MulDiv::Imul, X64Emitter::RCX);
}

// DIV and IDIV of 64 and 32 bits.
fn quotients(em: &mut X64Emitter<&mut [u8]>)
    requires { HasRoom em.old 32 }
    ensures { Advances em.old 32 em.new }
{
    em.mul_div(Width::R64, MulDiv::Div, X64Emitter::R11);
    em.mul_div(Width::R32, MulDiv::Div, X64Emitter::RSI);
    em.mul_div(Width::R64, MulDiv::Idiv, X64Emitter::R9);
    em.mul_div(Width::R32, MulDiv::Idiv, X64Emitter::R11);
}

// CQO, CDQ, AND and XOR of 32 bits.
fn dividends(em: &mut X64Emitter<&mut [u8]>)
    requires { HasRoom em.old 32 }
    ensures { Advances em.old 32 em.new }
{
    em.cqo(Width::R64);
    em.cqo(Width::R32);
    em.alu_r_r(Width::R32, Alu::And, X64Emitter::R11, X64Emitter::R11);
    em.alu_r_r(Width::R32, Alu::Xor, X64Emitter::RDX, X64Emitter::RDX);
}

// ADD, OR and CMP with an immediate of one byte.
fn small_immediates(em: &mut X64Emitter<&mut [u8]>)
    requires { HasRoom em.old 32 }
    ensures { Advances em.old 32 em.new }
{
    em.alu_r64_imm8(Alu::Add, X64Emitter::RCX, 1);
    em.alu_r64_imm8(Alu::Or, X64Emitter::RAX, 0xFF);
    em.alu_r64_imm8(Alu::Cmp, X64Emitter::RCX, 2);
}

// Jumps by CF and by ZF, over no byte and over as many as there can be among them.
fn jumps_by_cf_and_zf(em: &mut X64Emitter<&mut [u8]>)
    requires { HasRoom em.old 32 }
    ensures { Advances em.old 32 em.new }
{
    em.jcc_rel8(X64Cc::B, 7);
    em.jcc_rel8(X64Cc::AE, 0);
    em.jcc_rel8(X64Cc::E, 8);
    em.jcc_rel8(X64Cc::NE, 127);
}

// Jumps by SF and OF.
fn jumps_by_sign(em: &mut X64Emitter<&mut [u8]>)
    requires { HasRoom em.old 32 }
    ensures { Advances em.old 32 em.new }
{
    em.jcc_rel8(X64Cc::L, 1);
    em.jcc_rel8(X64Cc::GE, 2);
}

// The forms in the order of the table: PUSH, POP, MOV, ADD, SUB.
fn moves_and_sums(em: &mut X64Emitter<&mut [u8]>)
    requires { HasRoom em.old 128 }
    ensures { Advances em.old 128 em.new }
{
    pushes_and_pops(em);
    moves(em);
    additions(em);
    subtractions(em);
}

// AND, OR, XOR, CMP.
fn logic_and_comparisons(em: &mut X64Emitter<&mut [u8]>)
    requires { HasRoom em.old 128 }
    ensures { Advances em.old 128 em.new }
{
    ands_and_or(em);
    xors(em);
    or_and_with_immediates(em);
    comparisons(em);
}

// SHL, SHR, SAR.
fn shifts(em: &mut X64Emitter<&mut [u8]>)
    requires { HasRoom em.old 128 }
    ensures { Advances em.old 128 em.new }
{
    shifts_64_by_cl(em);
    shifts_64_by_imm8(em);
    shifts_32_by_cl(em);
    shifts_32_by_imm8(em);
}

// IMUL, MOVSXD, SETcc, MOVZX, CMOVcc, then the forms of a block's frame and end.
fn others(em: &mut X64Emitter<&mut [u8]>)
    requires { HasRoom em.old 128 }
    ensures { Advances em.old 128 em.new }
{
    products(em);
    sign_extension(em);
    conditions(em);
    stack_call_and_return(em);
}

// The forms of document 02, Q-2: products and quotients of one operand, and what stands before a division.
fn products_and_quotients(em: &mut X64Emitter<&mut [u8]>)
    requires { HasRoom em.old 128 }
    ensures { Advances em.old 128 em.new }
{
    wide_products(em);
    quotients(em);
    dividends(em);
    small_immediates(em);
}

// Jumps.
fn jumps(em: &mut X64Emitter<&mut [u8]>)
    requires { HasRoom em.old 128 }
    ensures { Advances em.old 128 em.new }
{
    jumps_by_cf_and_zf(em);
    jumps_by_sign(em);
}

// How many bytes were written.
fn all(out: &mut [u8]) -> usize
    ensures { (result ≤ length out.new) × (result ≡ length (take result out.new)) }
{
    if out.len() < 768 {
        return 0;
    }
    let mut em = X64Emitter::new(out);
    moves_and_sums(&mut em);
    logic_and_comparisons(&mut em);
    shifts(&mut em);
    others(&mut em);
    products_and_quotients(&mut em);
    jumps(&mut em);
    em.at
}

// A write that fails ends the program with its error.
fn main(rt: HostRuntime) -> io::Result<()> {
    let mut out = [0u8; 768];
    let n = all(&mut out);
    io::writer(&rt).write_all(&out[..n])
}
