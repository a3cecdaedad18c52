// Upper halves of products, quotients and remainders of R10 and R11, into R10 (document 02, Q-2): what the words of F7_MULDIV need that
// the Rust does not take. Where the host's division would fault the manual has a value: it is put into the result's register first,
// and one test of the divisor jumps over the division or does not. Inlined as the emitter's functions are.
#![tactic(auto)]

ghost use Rattle.std.specs.Prelude.{◌++◌, length};
ghost use Rattle.agreement.specs.Riscv.Instruction.Op.{MULHSU};
ghost use Rattle.agreement.specs.X86.Encode.{bytes};
ghost use Rattle.agreement.specs.Translation.Emit.{body_op, division_u, division_s, divide_u, divide_s, divisor_plus1, first_quotient};
ghost use Rattle.agreement.specs.Translation.Emit.{first_remainder, quotient_u, remainder_u, quotient_s, remainder_s};
ghost use Rattle.emitter.specs.Args.{width_of, mul_div_of};
ghost use Rattle.emitter.specs.Written.{Writes, HasRoom};
ghost use Rattle.muldiv.specs.Parts.{upper_half, extended};

use emitter::{Alu, Gpr, MulDiv, Shift, Width, X64Cc, X64Emitter};

// MULH by IMUL, both signed; MULHU by MUL, both unsigned.
#[inline(always)]
pub fn mul_upper(em: &mut X64Emitter<&mut [u8]>, op: MulDiv)
    requires { HasRoom em.old 9 }
    ensures { Writes em.old (bytes (upper_half (mul_div_of op))) em.new }
{
    em.mov_r64_r64(X64Emitter::RAX, X64Emitter::R10);
    em.mul_div(Width::R64, op, X64Emitter::R11);
    em.mov_r64_r64(X64Emitter::R10, X64Emitter::RDX);
}

// MULHSU: R10 signed, R11 unsigned. The unsigned product's upper half, less R11 where R10 is negative.
#[inline(always)]
pub fn mulhsu(em: &mut X64Emitter<&mut [u8]>)
    requires { HasRoom em.old 17 }
    ensures { Writes em.old (bytes (body_op MULHSU)) em.new }
{
    em.mov_r64_r64(X64Emitter::RAX, X64Emitter::R10);
    em.mul_div(Width::R64, MulDiv::Mul, X64Emitter::R11);
    em.shift_imm8(Width::R64, Shift::Sar, X64Emitter::R10, 63);
    em.imul_r_r(Width::R64, X64Emitter::R10, X64Emitter::R11);
    em.alu_r_r(Width::R64, Alu::Add, X64Emitter::R10, X64Emitter::RDX);
}

// The division itself, eight bytes: quotient in RAX, remainder in RDX.
#[inline(always)]
fn div(em: &mut X64Emitter<&mut [u8]>, w: Width)
    requires { HasRoom em.old 8 }
    ensures { Writes em.old (bytes (division_u (width_of w))) em.new }
{
    em.mov_r64_r64(X64Emitter::RAX, X64Emitter::R10);
    em.alu_r_r(Width::R32, Alu::Xor, X64Emitter::RDX, X64Emitter::RDX);
    em.mul_div(w, MulDiv::Div, X64Emitter::R11);
}

// The same of signed numbers, eight bytes; of 32 bits seven.
#[inline(always)]
fn idiv(em: &mut X64Emitter<&mut [u8]>, w: Width)
    requires { HasRoom em.old (length (bytes (division_s (width_of w)))) }
    ensures { Writes em.old (bytes (division_s (width_of w))) em.new }
{
    em.mov_r64_r64(X64Emitter::RAX, X64Emitter::R10);
    em.cqo(w);
    em.mul_div(w, MulDiv::Idiv, X64Emitter::R11);
}

// Unsigned: jumps over the division where R11 is 0. `res` is RAX or RDX.
#[inline(always)]
fn divide_u(em: &mut X64Emitter<&mut [u8]>, w: Width, res: Gpr)
    requires { HasRoom em.old 16 }
    ensures { Writes em.old (bytes (divide_u (width_of w) res)) em.new }
{
    em.alu_r_r(w, Alu::And, X64Emitter::R11, X64Emitter::R11);
    em.jcc_rel8(X64Cc::E, 8);
    div(em, w);
    em.mov_r64_r64(X64Emitter::R10, res);
}

// Signed: jumps over the division where RCX, which is R11 plus 1, is 0 or 1.
#[inline(always)]
fn divide_s(em: &mut X64Emitter<&mut [u8]>, w: Width, res: Gpr)
    requires { HasRoom em.old (length (bytes (divide_s (width_of w) res))) }
    ensures { Writes em.old (bytes (divide_s (width_of w) res)) em.new }
{
    em.alu_r64_imm8(Alu::Cmp, X64Emitter::RCX, 2);
    let skipped = match w {
        Width::R32 => 7,
        Width::R64 => 8,
    };
    em.jcc_rel8(X64Cc::B, skipped);
    idiv(em, w);
    em.mov_r64_r64(X64Emitter::R10, res);
}

// R11 plus 1 in RCX.
#[inline(always)]
fn divisor_plus_1(em: &mut X64Emitter<&mut [u8]>)
    requires { HasRoom em.old 7 }
    ensures { Writes em.old (bytes divisor_plus1) em.new }
{
    em.mov_r64_r64(X64Emitter::RCX, X64Emitter::R11);
    em.alu_r64_imm8(Alu::Add, X64Emitter::RCX, 1);
}

// The quotient where R11 is 0 or -1, in RAX: R10 * R11 - (R11 + 1).
#[inline(always)]
fn first_quotient(em: &mut X64Emitter<&mut [u8]>)
    requires { HasRoom em.old 17 }
    ensures { Writes em.old (bytes first_quotient) em.new }
{
    divisor_plus_1(em);
    em.mov_r64_r64(X64Emitter::RAX, X64Emitter::R10);
    em.imul_r_r(Width::R64, X64Emitter::RAX, X64Emitter::R11);
    em.alu_r_r(Width::R64, Alu::Sub, X64Emitter::RAX, X64Emitter::RCX);
}

// The remainder where R11 is 0 or -1, in RDX: R10 * (R11 + 1).
#[inline(always)]
fn first_remainder(em: &mut X64Emitter<&mut [u8]>)
    requires { HasRoom em.old 14 }
    ensures { Writes em.old (bytes first_remainder) em.new }
{
    divisor_plus_1(em);
    em.mov_r64_r64(X64Emitter::RDX, X64Emitter::R10);
    em.imul_r_r(Width::R64, X64Emitter::RDX, X64Emitter::RCX);
}

// Before a signed division of 32 bits the operands' low 32 bits, sign-extended.
#[inline(always)]
fn sign_extend_pair(em: &mut X64Emitter<&mut [u8]>, w: Width)
    requires { HasRoom em.old (length (bytes (extended (width_of w)))) }
    ensures { Writes em.old (bytes (extended (width_of w))) em.new }
{
    match w {
        Width::R32 => {
            em.movsxd_r64_r32(X64Emitter::R10, X64Emitter::R10);
            em.movsxd_r64_r32(X64Emitter::R11, X64Emitter::R11);
        }
        Width::R64 => {}
    }
}

// DIV, and DIVW, whose result is still to be sign-extended; so are the other three of 32 bits.
#[inline(always)]
pub fn quotient_s(em: &mut X64Emitter<&mut [u8]>, w: Width)
    requires { HasRoom em.old (length (bytes (extended (width_of w) ++ quotient_s (width_of w)))) }
    ensures { Writes em.old (bytes (extended (width_of w) ++ quotient_s (width_of w))) em.new }
{
    sign_extend_pair(em, w);
    first_quotient(em);
    divide_s(em, w, X64Emitter::RAX);
}

// REM and REMW.
#[inline(always)]
pub fn remainder_s(em: &mut X64Emitter<&mut [u8]>, w: Width)
    requires { HasRoom em.old (length (bytes (extended (width_of w) ++ remainder_s (width_of w)))) }
    ensures { Writes em.old (bytes (extended (width_of w) ++ remainder_s (width_of w))) em.new }
{
    sign_extend_pair(em, w);
    first_remainder(em);
    divide_s(em, w, X64Emitter::RDX);
}

// DIVU and DIVUW: all ones where R11 is 0.
#[inline(always)]
pub fn quotient_u(em: &mut X64Emitter<&mut [u8]>, w: Width)
    requires { HasRoom em.old 20 }
    ensures { Writes em.old (bytes (quotient_u (width_of w))) em.new }
{
    em.alu_r64_imm8(Alu::Or, X64Emitter::RAX, 0xFF);
    divide_u(em, w, X64Emitter::RAX);
}

// REMU and REMUW: R10 where R11 is 0.
#[inline(always)]
pub fn remainder_u(em: &mut X64Emitter<&mut [u8]>, w: Width)
    requires { HasRoom em.old 19 }
    ensures { Writes em.old (bytes (remainder_u (width_of w))) em.new }
{
    em.mov_r64_r64(X64Emitter::RDX, X64Emitter::R10);
    divide_u(em, w, X64Emitter::RDX);
}
