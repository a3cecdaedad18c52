// The registers' slots behind RBX: `x64_emit_load_reg`, `x64_emit_store_reg`, and what the words make of the two.
ghost use Rattle.agreement.specs.X86.Encode.{encode, bytes};
ghost use Rattle.agreement.specs.Translation.Emit.{load_reg, store_reg, code_const};
ghost use Rattle.emitter.specs.Written.{Writes, HasRoom};
ghost use Rattle.words.specs.Word.{load_pair};

use decode::XReg;
use emitter::{Gpr, X64Emitter};

// Guest register reg into a host register.
#[inline(always)]
pub fn x64_emit_load_reg(em: &mut X64Emitter<&mut [u8]>, host: Gpr, reg: XReg)
    requires { HasRoom em.old 7 }
    ensures { Writes em.old (encode (load_reg host reg)) em.new }
{
    em.mov_r64_m64_disp32(host, X64Emitter::RBX, 8 * reg.number() as u32);
}

// A host register into guest register reg, nothing for x0.
#[inline(always)]
pub fn x64_emit_store_reg(em: &mut X64Emitter<&mut [u8]>, reg: XReg, host: Gpr)
    requires { HasRoom em.old 7 }
    ensures { Writes em.old (bytes (store_reg reg host)) em.new }
{
    if !reg.is_x0() {
        em.mov_m64_disp32_r64(X64Emitter::RBX, 8 * reg.number() as u32, host);
    }
}

// A constant through R10 to rd, nothing for x0.
#[inline(always)]
pub fn x64_emit_const(em: &mut X64Emitter<&mut [u8]>, rd: XReg, value: u64)
    requires { HasRoom em.old 17 }
    ensures { Writes em.old (bytes (code_const rd value)) em.new }
{
    if !rd.is_x0() {
        em.mov_r64_imm64(X64Emitter::R10, value);
        em.mov_m64_disp32_r64(X64Emitter::RBX, 8 * rd.number() as u32, X64Emitter::R10);
    }
}

// Both source registers, rs1 in R10 and rs2 in R11.
#[inline(always)]
pub fn x64_emit_load_pair(em: &mut X64Emitter<&mut [u8]>, rs1: XReg, rs2: XReg)
    requires { HasRoom em.old 14 }
    ensures { Writes em.old (bytes (load_pair rs1 rs2)) em.new }
{
    x64_emit_load_reg(em, X64Emitter::R10, rs1);
    x64_emit_load_reg(em, X64Emitter::R11, rs2);
}
