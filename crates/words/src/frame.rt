// `x64_emit_prologue` and `x64_emit_epilogue`: what a block opens and closes with.
ghost use Rattle.std.specs.Prelude.{[], ◌∷◌, ◌++◌};
ghost use Rattle.agreement.specs.X86.Form.{ret};
ghost use Rattle.agreement.specs.X86.Encode.{bytes};
ghost use Rattle.agreement.specs.Translation.Emit.{opening, closing};
ghost use Rattle.emitter.specs.Written.{Writes, HasRoom};
ghost use Rattle.words.specs.Word.{pushes, keeps, pops};

use emitter::{Alu, X64Emitter};

// The callee-saved registers.
#[inline(always)]
fn x64_emit_pushes(em: &mut X64Emitter<&mut [u8]>)
    requires { HasRoom em.old 10 }
    ensures { Writes em.old (bytes pushes) em.new }
{
    em.push_r64(X64Emitter::RBX);
    em.push_r64(X64Emitter::RBP);
    em.push_r64(X64Emitter::R12);
    em.push_r64(X64Emitter::R13);
    em.push_r64(X64Emitter::R14);
    em.push_r64(X64Emitter::R15);
}

// The block's arguments in callee-saved registers.
#[inline(always)]
fn x64_emit_keeps(em: &mut X64Emitter<&mut [u8]>)
    requires { HasRoom em.old 18 }
    ensures { Writes em.old (bytes keeps) em.new }
{
    em.mov_r64_r64(X64Emitter::RBX, X64Emitter::RDI);
    em.mov_r64_r64(X64Emitter::R12, X64Emitter::RSI);
    em.mov_r64_r64(X64Emitter::R13, X64Emitter::RDX);
    em.mov_r64_r64(X64Emitter::R14, X64Emitter::RCX);
    em.mov_r64_r64(X64Emitter::R15, X64Emitter::R8);
    em.mov_r64_r64(X64Emitter::RBP, X64Emitter::R9);
}

// What a block opens with.
#[inline(always)]
pub fn x64_emit_prologue(em: &mut X64Emitter<&mut [u8]>)
    requires { HasRoom em.old 32 }
    ensures { Writes em.old (bytes opening) em.new }
{
    x64_emit_pushes(em);
    em.alu_r64_imm8(Alu::Sub, X64Emitter::RSP, 8);
    x64_emit_keeps(em);
}

// The callee-saved registers back.
#[inline(always)]
fn x64_emit_pops(em: &mut X64Emitter<&mut [u8]>)
    requires { HasRoom em.old 10 }
    ensures { Writes em.old (bytes pops) em.new }
{
    em.pop_r64(X64Emitter::R15);
    em.pop_r64(X64Emitter::R14);
    em.pop_r64(X64Emitter::R13);
    em.pop_r64(X64Emitter::R12);
    em.pop_r64(X64Emitter::RBP);
    em.pop_r64(X64Emitter::RBX);
}

// What a block closes with.
#[inline(always)]
pub fn x64_emit_epilogue(em: &mut X64Emitter<&mut [u8]>)
    requires { HasRoom em.old 15 }
    ensures { Writes em.old (bytes (closing ++ «ret» ∷ [])) em.new }
{
    em.alu_r64_imm8(Alu::Add, X64Emitter::RSP, 8);
    x64_emit_pops(em);
    em.ret();
}
