// A helper end: `emit_native_term_helper16_x64`, and `emit_native_term_mem_helper_x64` behind its test.
ghost use Rattle.std.specs.Prelude.{◌+◌, ◌≤◌, [], ◌∷◌, ◌++◌};
ghost use Rattle.agreement.specs.X86.Form.{call_rax};
ghost use Rattle.agreement.specs.X86.Encode.{bytes};
ghost use Rattle.agreement.specs.Translation.Emit.{passes, add_count};
ghost use Rattle.emitter.specs.Written.{Writes, HasRoom};
ghost use Rattle.words.specs.Word.{host_arguments, helper_end};

use crate::frame::x64_emit_epilogue;
use emitter::{Alu, X64Emitter};

// What the block was entered with in RSI, RDX and RCX.
#[inline(always)]
fn helper_arguments(em: &mut X64Emitter<&mut [u8]>)
    requires { HasRoom em.old 9 }
    ensures { Writes em.old (bytes host_arguments) em.new }
{
    em.mov_r64_r64(X64Emitter::RDI, X64Emitter::R12);
    em.mov_r64_r64(X64Emitter::RSI, X64Emitter::R13);
    em.mov_r64_r64(X64Emitter::RDX, X64Emitter::R14);
}

// The arguments, of which the last two are the instruction and its pc, and the call. These two stay two, here and in the walk: each is
// used by itself, as in the Rust.
#[inline(always)]
fn helper_call(em: &mut X64Emitter<&mut [u8]>, instr: u64, pc: u64, helper: u64)
    requires { HasRoom em.old 41 }
    ensures { Writes em.old (bytes (passes instr pc helper ++ call_rax ∷ [])) em.new }
{
    helper_arguments(em);
    em.mov_r64_imm64(X64Emitter::RCX, instr);
    em.mov_r64_imm64(X64Emitter::R8, pc);
    em.mov_r64_imm64(X64Emitter::RAX, helper);
    em.call_rax();
}

// The earlier count, where there is one.
#[inline(always)]
fn add_count(em: &mut X64Emitter<&mut [u8]>, count: u32)
    requires { HasRoom em.old 7 }
    ensures written { Writes em.old (bytes (add_count count)) em.new }
    ensures short { em.new.at ≤ em.old.at + 7 }
{
    if count != 0 {
        em.alu_r64_imm32(Alu::Add, X64Emitter::RDX, count);
    }
}

// A helper end: arguments, call, count, closing. Both of the Rust's helper ends are this, with their helper's address.
#[inline(always)]
pub fn emit_native_term_helper_x64(
    em: &mut X64Emitter<&mut [u8]>,
    instr: u64,
    pc: u64,
    helper: u64,
    prefix_count: u32,
)
    requires { HasRoom em.old 63 }
    ensures { Writes em.old (bytes (helper_end instr pc helper prefix_count)) em.new }
{
    helper_call(em, instr, pc, helper);
    add_count(em, prefix_count);
    x64_emit_epilogue(em);
}
