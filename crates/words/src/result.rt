// What a word's body ends with: its result in R10.
ghost use Rattle.std.specs.Prelude.{[], ◌∷◌};
ghost use Rattle.agreement.specs.X86.Encode.{bytes};
ghost use Rattle.agreement.specs.X86.Form.{R10, RAX, setcc_al, movzx, movsxd};
ghost use Rattle.emitter.specs.Args.{cc_of};
ghost use Rattle.emitter.specs.Written.{Writes, HasRoom};
ghost use Rattle.words.specs.Word.{Emits, goes_on};

use crate::X64EmitFlow;
use emitter::{X64Cc, X64Emitter};

// The condition after a comparison, as 0 or 1.
#[inline(always)]
pub fn set_flag(em: &mut X64Emitter<&mut [u8]>, cc: X64Cc)
    requires { HasRoom em.old 7 }
    ensures { Writes em.old (bytes (setcc_al (cc_of cc) ∷ movzx R10 RAX ∷ [])) em.new }
{
    em.setcc_al(cc);
    em.movzx_r64_r8(X64Emitter::R10, X64Emitter::RAX);
}

// The low 32 bits, sign-extended: the 32-bit words.
#[inline(always)]
pub fn sign_extended(em: &mut X64Emitter<&mut [u8]>) -> Option<X64EmitFlow>
    requires { HasRoom em.old 3 }
    ensures { Emits em.old (goes_on (movsxd R10 R10 ∷ [])) em.new result }
{
    em.movsxd_r64_r32(X64Emitter::R10, X64Emitter::R10);
    Some(X64EmitFlow::Continue)
}
