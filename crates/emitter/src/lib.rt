// `X64Emitter` of src/hart/jit_amd64.rs: host instructions, written into a lent output from a place on.
// There is one encoder for each family of crate agreement's X86/Form, in the Rust's order; where the Rust has one for each operand size and
// operation, as `add_r64_r64` and `sub_r32_r32`, these are arguments. What document 02, Q-2, adds stands behind. The contract of each: the
// output at exit is the output at entry with exactly the bytes of the instruction (crate agreement, X86/Encode) at the emitter's place,
// which moves behind them.
// Immediates and displacements are unsigned in two's complement.
// What writes is inlined, here and in the crates above, up to the function that translates: where the emitter stands in memory, a byte
// that is written may be its place for all the compiler knows, and translating took five times as long (docs/PERFORMANCE.md).
#![tactic(auto)]

mod args;
mod forms;
mod gpr;

ghost use Rattle.std.specs.Prelude.{◌≡◌, [], ◌∷◌, ◌+◌, ◌<◌, length};
ghost use Rattle.agreement.specs.X86.Memory.{bytes_of};
ghost use Rattle.agreement.specs.X86.Form.{push, pop, mov, mov_imm64, load, store, alu, alu_imm32, alu_imm8, shift_cl, shift_imm8, imul, movsxd};
ghost use Rattle.agreement.specs.X86.Form.{setcc_al, movzx, cmov, call_rax, ret, mul_div, cqo, jcc};
ghost use Rattle.agreement.specs.X86.Encode.{encode, mod_reg, mod_mem};
ghost use Rattle.emitter.specs.Args.{width_of, alu_of, shift_of, mul_div_of, cc_of};
ghost use Rattle.emitter.specs.Forms.{opcode_of, digit_of};
ghost use Rattle.emitter.specs.Shapes.{modrm, rex_bytes, mem_sib, mem_plain, opcode_reg, reg_rm, reg_rm_0f, al_0f, reg_mem, digit_rm};
ghost use Rattle.emitter.specs.Shapes.{digit_rm_imm8, digit_rm_imm32, bare, jump};
ghost use Rattle.emitter.specs.Written.{Writes, HasRoom};

pub use args::{Alu, MulDiv, Shift, Width, X64Cc};
use forms::Form;
pub use gpr::Gpr;

// The output, and the place in it at which the next byte goes. An emitter is copied where its output can be, as a place alone is
// (`X64Emitter<()>`); one that writes holds a `&mut`, which can't.
#[derive(Clone, Copy)]
pub struct X64Emitter<O> {
    pub out: O,
    pub at: usize,
}

impl<'a> X64Emitter<&'a mut [u8]> {
    // The registers' names, as document 01 has them: constants of this type.
    pub const RAX: Gpr = Gpr::RAX;

    pub const RCX: Gpr = Gpr::RCX;

    pub const RDX: Gpr = Gpr::RDX;

    pub const RBX: Gpr = Gpr::RBX;

    pub const RSP: Gpr = Gpr::RSP;

    pub const RBP: Gpr = Gpr::RBP;

    pub const RSI: Gpr = Gpr::RSI;

    pub const RDI: Gpr = Gpr::RDI;

    pub const R8: Gpr = Gpr::R8;

    pub const R9: Gpr = Gpr::R9;

    pub const R10: Gpr = Gpr::R10;

    pub const R11: Gpr = Gpr::R11;

    pub const R12: Gpr = Gpr::R12;

    pub const R13: Gpr = Gpr::R13;

    pub const R14: Gpr = Gpr::R14;

    pub const R15: Gpr = Gpr::R15;

    pub fn new(out: &'a mut [u8]) -> X64Emitter<&'a mut [u8]>
        ensures same_output { result.out.ghost_name ≡ out.entry.ghost_name }
        ensures output { result.out.now ≡ out.old }
        ensures place { result.at ≡ 0 }
    {
        X64Emitter { out, at: 0 }
    }

    #[inline(always)]
    fn emit_u8(&mut self, b: u8)
        requires { HasRoom self.old (length (b ∷ [])) }
        ensures { Writes self.old (b ∷ []) self.new }
    {
        self.out[self.at] = b;
        self.at += 1;
    }

    #[inline(always)]
    fn emit_u32(&mut self, v: u32)
        requires { HasRoom self.old (length (bytes_of 4 v)) }
        ensures { Writes self.old (bytes_of 4 v) self.new }
    {
        let [a, b, c, d] = v.to_le_bytes();
        self.emit_u8(a);
        self.emit_u8(b);
        self.emit_u8(c);
        self.emit_u8(d);
    }

    // Least significant byte first (Intel SDM volume 1, "Bit and Byte Order"), one division a byte: after k bytes the quotient is
    // v / 256 ^ k. This is proved, as the loop's invariant: `RunningQuotient` in specs/Quotient. Document 02, Q-3, wants it so, and not
    // `to_le_bytes`.
    #[inline(always)]
    fn emit_u64(&mut self, v: u64)
        requires { HasRoom self.old (length (bytes_of 8 v)) }
        ensures { Writes self.old (bytes_of 8 v) self.new }
    {
        let mut quotient = v;
        for _k in 0..8u32 {
            self.emit_u8((quotient % 256) as u8);
            quotient /= 256;
        }
    }

    // A bare 0x40 is left out.
    #[inline(always)]
    fn emit_rex(&mut self, w: Width, r: u8, x: u8, b: u8)
        requires { (r < 16) × (x < 16) × (b < 16) × HasRoom self.old (length (rex_bytes w r x b)) }
        ensures { Writes self.old (rex_bytes w r x b) self.new }
    {
        let rex = 0x40 + w.rex_w() + 4 * (r / 8) + 2 * (x / 8) + b / 8;
        if rex != 0x40 {
            self.emit_u8(rex);
        }
    }

    #[inline(always)]
    fn emit_modrm(&mut self, mode: u8, reg: u8, rm: u8)
        requires { (mode < 4) × HasRoom self.old (length (modrm mode reg rm ∷ [])) }
        ensures { Writes self.old (modrm mode reg rm ∷ []) self.new }
    {
        self.emit_u8(64 * mode + 8 * (reg % 8) + rm % 8);
    }

    #[inline(always)]
    fn emit_sib(&mut self, scale: u8, index: u8, base: u8)
        requires { (scale < 4) × HasRoom self.old (length (modrm scale index base ∷ [])) }
        ensures { Writes self.old (modrm scale index base ∷ []) self.new }
    {
        self.emit_u8(64 * scale + 8 * (index % 8) + base % 8);
    }

    // ModRM, SIB without an index, displacement.
    #[inline(always)]
    fn emit_mem_sib(&mut self, reg_field: u8, base: u8, disp: u32)
        requires { HasRoom self.old (length (mem_sib reg_field base disp)) }
        ensures { Writes self.old (mem_sib reg_field base disp) self.new }
    {
        self.emit_modrm(2, reg_field, 4);
        self.emit_sib(0, 4, base);
        self.emit_u32(disp);
    }

    // ModRM, displacement.
    #[inline(always)]
    fn emit_mem_plain(&mut self, reg_field: u8, base: u8, disp: u32)
        requires { HasRoom self.old (length (mem_plain reg_field base disp)) }
        ensures { Writes self.old (mem_plain reg_field base disp) self.new }
    {
        self.emit_modrm(2, reg_field, base);
        self.emit_u32(disp);
    }

    // [base + disp]: a base with low bits 4 takes a SIB byte.
    #[inline(always)]
    fn emit_mem_disp32(&mut self, reg_field: u8, base: u8, disp: u32)
        requires { HasRoom self.old (length (mod_mem reg_field base disp)) }
        ensures { Writes self.old (mod_mem reg_field base disp) self.new }
    {
        if base % 8 == 4 {
            self.emit_mem_sib(reg_field, base, disp);
        } else {
            self.emit_mem_plain(reg_field, base, disp);
        }
    }

    // The form's opcode.
    #[inline(always)]
    fn emit_opcode(&mut self, form: Form)
        requires { HasRoom self.old (length (opcode_of form ∷ [])) }
        ensures { Writes self.old (opcode_of form ∷ []) self.new }
    {
        self.emit_u8(form.0);
    }

    // The form's opcode with a register or a condition added to it.
    #[inline(always)]
    fn emit_opcode_plus(&mut self, form: Form, plus: u8)
        requires { (opcode_of form + plus < 256) × HasRoom self.old (length ((opcode_of form + plus) ∷ [])) }
        ensures { Writes self.old ((opcode_of form + plus) ∷ []) self.new }
    {
        self.emit_u8(form.0 + plus);
    }

    // ModRM with the form's digit.
    #[inline(always)]
    fn emit_digit(&mut self, form: Form, rm: u8)
        requires { HasRoom self.old (length (mod_reg (digit_of form) rm ∷ [])) }
        ensures { Writes self.old (mod_reg (digit_of form) rm ∷ []) self.new }
    {
        self.emit_modrm(3, form.1, rm);
    }

    // The shapes of a form, one function each; one without a digit takes no row of the table that has one.
    // A register in the opcode.
    #[inline(always)]
    fn form_reg(&mut self, form: Form, w: Width, reg: Gpr)
        requires { (digit_of form ≡ 0) × (opcode_of form < 249) × HasRoom self.old (length (opcode_reg form w reg)) }
        ensures { Writes self.old (opcode_reg form w reg) self.new }
    {
        let r = reg.number();
        self.emit_rex(w, 0, 0, r);
        self.emit_opcode_plus(form, r % 8);
    }

    // Two registers.
    #[inline(always)]
    fn form_reg_rm(&mut self, form: Form, w: Width, reg: Gpr, rm: Gpr)
        requires { (digit_of form ≡ 0) × HasRoom self.old (length (reg_rm form w reg rm)) }
        ensures { Writes self.old (reg_rm form w reg rm) self.new }
    {
        let r = reg.number();
        let b = rm.number();
        self.emit_rex(w, r, 0, b);
        self.emit_opcode(form);
        self.emit_modrm(3, r, b);
    }

    // Two registers behind 0F.
    #[inline(always)]
    fn form_0f_reg_rm(&mut self, form: Form, plus: u8, w: Width, reg: Gpr, rm: Gpr)
        requires { (digit_of form ≡ 0) × (opcode_of form + plus < 256) × HasRoom self.old (length (reg_rm_0f form plus w reg rm)) }
        ensures { Writes self.old (reg_rm_0f form plus w reg rm) self.new }
    {
        let r = reg.number();
        let b = rm.number();
        self.emit_rex(w, r, 0, b);
        self.emit_u8(0x0F);
        self.emit_opcode_plus(form, plus);
        self.emit_modrm(3, r, b);
    }

    // AL behind 0F.
    #[inline(always)]
    fn form_0f_al(&mut self, form: Form, plus: u8)
        requires { (digit_of form ≡ 0) × (opcode_of form + plus < 256) × HasRoom self.old (length (al_0f form plus)) }
        ensures { Writes self.old (al_0f form plus) self.new }
    {
        self.emit_u8(0x0F);
        self.emit_opcode_plus(form, plus);
        self.emit_modrm(3, 0, X64Emitter::RAX.number());
    }

    // A register and memory.
    #[inline(always)]
    fn form_reg_mem(&mut self, form: Form, reg: Gpr, base: Gpr, disp: u32)
        requires { (digit_of form ≡ 0) × HasRoom self.old (length (reg_mem form reg base disp)) }
        ensures { Writes self.old (reg_mem form reg base disp) self.new }
    {
        let r = reg.number();
        let b = base.number();
        self.emit_rex(Width::R64, r, 0, b);
        self.emit_opcode(form);
        self.emit_mem_disp32(r, b, disp);
    }

    // No operand.
    #[inline(always)]
    fn form_bare(&mut self, form: Form, w: Width)
        requires { (digit_of form ≡ 0) × HasRoom self.old (length (bare form w)) }
        ensures { Writes self.old (bare form w) self.new }
    {
        self.emit_rex(w, 0, 0, 0);
        self.emit_opcode(form);
    }

    // A condition in the opcode, and how many bytes behind the jump are skipped: a displacement that is not negative.
    #[inline(always)]
    fn form_jump(&mut self, form: Form, plus: u8, rel: u8)
        requires { (digit_of form ≡ 0) × (opcode_of form + plus < 256) × (rel < 128) × HasRoom self.old (length (jump form plus rel)) }
        ensures { Writes self.old (jump form plus rel) self.new }
    {
        self.emit_opcode_plus(form, plus);
        self.emit_u8(rel);
    }

    // A register with a digit.
    #[inline(always)]
    fn form_digit_rm(&mut self, form: Form, w: Width, rm: Gpr)
        requires { HasRoom self.old (length (digit_rm form w rm)) }
        ensures { Writes self.old (digit_rm form w rm) self.new }
    {
        let b = rm.number();
        self.emit_rex(w, 0, 0, b);
        self.emit_opcode(form);
        self.emit_digit(form, b);
    }

    // A register with a digit, and a byte.
    #[inline(always)]
    fn form_digit_rm_imm8(&mut self, form: Form, w: Width, rm: Gpr, imm: u8)
        requires { HasRoom self.old (length (digit_rm_imm8 form w rm imm)) }
        ensures { Writes self.old (digit_rm_imm8 form w rm imm) self.new }
    {
        self.form_digit_rm(form, w, rm);
        self.emit_u8(imm);
    }

    // A register with a digit, and four bytes.
    #[inline(always)]
    fn form_digit_rm_imm32(&mut self, form: Form, rm: Gpr, imm: u32)
        requires { HasRoom self.old (length (digit_rm_imm32 form rm imm)) }
        ensures { Writes self.old (digit_rm_imm32 form rm imm) self.new }
    {
        self.form_digit_rm(form, Width::R64, rm);
        self.emit_u32(imm);
    }

    // PUSH and POP: two functions, since they are two instructions of X86/Form and one would need a choice made for it.
    #[inline(always)]
    pub fn push_r64(&mut self, reg: Gpr)
        requires { HasRoom self.old (length (encode (push reg))) }
        ensures { Writes self.old (encode (push reg)) self.new }
    {
        self.form_reg(forms::PUSH_R64, Width::R32, reg);
    }

    #[inline(always)]
    pub fn pop_r64(&mut self, reg: Gpr)
        requires { HasRoom self.old (length (encode (pop reg))) }
        ensures { Writes self.old (encode (pop reg)) self.new }
    {
        self.form_reg(forms::POP_R64, Width::R32, reg);
    }

    #[inline(always)]
    pub fn mov_r64_r64(&mut self, dst: Gpr, src: Gpr)
        requires { HasRoom self.old (length (encode (mov dst src))) }
        ensures { Writes self.old (encode (mov dst src)) self.new }
    {
        self.form_reg_rm(forms::MOV_R64_R64, Width::R64, src, dst);
    }

    #[inline(always)]
    pub fn mov_r64_imm64(&mut self, dst: Gpr, imm: u64)
        requires { HasRoom self.old (length (encode (mov_imm64 dst imm))) }
        ensures { Writes self.old (encode (mov_imm64 dst imm)) self.new }
    {
        self.form_reg(forms::MOV_R64_IMM64, Width::R64, dst);
        self.emit_u64(imm);
    }

    #[inline(always)]
    pub fn mov_r64_m64_disp32(&mut self, dst: Gpr, base: Gpr, disp: u32)
        requires { HasRoom self.old (length (encode (load dst base disp))) }
        ensures { Writes self.old (encode (load dst base disp)) self.new }
    {
        self.form_reg_mem(forms::MOV_R64_M64, dst, base, disp);
    }

    #[inline(always)]
    pub fn mov_m64_disp32_r64(&mut self, base: Gpr, disp: u32, src: Gpr)
        requires { HasRoom self.old (length (encode (store base disp src))) }
        ensures { Writes self.old (encode (store base disp src)) self.new }
    {
        self.form_reg_mem(forms::MOV_M64_R64, src, base, disp);
    }

    // `add_r64_r64`, `add_r32_r32`, and so for SUB; of 64 bits AND, OR, XOR and CMP.
    #[inline(always)]
    pub fn alu_r_r(&mut self, w: Width, op: Alu, dst: Gpr, src: Gpr)
        requires { HasRoom self.old (length (encode (alu (width_of w) (alu_of op) dst src))) }
        ensures { Writes self.old (encode (alu (width_of w) (alu_of op) dst src)) self.new }
    {
        self.form_reg_rm(op.with_register(), w, src, dst);
    }

    // `add_r64_imm32`, and so for AND, OR, XOR and CMP.
    #[inline(always)]
    pub fn alu_r64_imm32(&mut self, op: Alu, dst: Gpr, imm: u32)
        requires { HasRoom self.old (length (encode (alu_imm32 (alu_of op) dst imm))) }
        ensures { Writes self.old (encode (alu_imm32 (alu_of op) dst imm)) self.new }
    {
        self.form_digit_rm_imm32(op.with_imm32(), dst, imm);
    }

    // `and_r64_imm8`, `sub_rsp_imm8` and `add_rsp_imm8`.
    #[inline(always)]
    pub fn alu_r64_imm8(&mut self, op: Alu, dst: Gpr, imm: u8)
        requires { HasRoom self.old (length (encode (alu_imm8 (alu_of op) dst imm))) }
        ensures { Writes self.old (encode (alu_imm8 (alu_of op) dst imm)) self.new }
    {
        self.form_digit_rm_imm8(op.with_imm8(), Width::R64, dst, imm);
    }

    // `shl_r64_cl`, `shl_r32_cl`, and so for SHR and SAR; below, by a byte.
    #[inline(always)]
    pub fn shift_cl(&mut self, w: Width, op: Shift, reg: Gpr)
        requires { HasRoom self.old (length (encode (shift_cl (width_of w) (shift_of op) reg))) }
        ensures { Writes self.old (encode (shift_cl (width_of w) (shift_of op) reg)) self.new }
    {
        self.form_digit_rm(op.by_cl(), w, reg);
    }

    #[inline(always)]
    pub fn shift_imm8(&mut self, w: Width, op: Shift, reg: Gpr, imm: u8)
        requires { HasRoom self.old (length (encode (shift_imm8 (width_of w) (shift_of op) reg imm))) }
        ensures { Writes self.old (encode (shift_imm8 (width_of w) (shift_of op) reg imm)) self.new }
    {
        self.form_digit_rm_imm8(op.by_imm8(), w, reg, imm);
    }

    // `imul_r64_r64` and `imul_r32_r32`.
    #[inline(always)]
    pub fn imul_r_r(&mut self, w: Width, dst: Gpr, src: Gpr)
        requires { HasRoom self.old (length (encode (imul (width_of w) dst src))) }
        ensures { Writes self.old (encode (imul (width_of w) dst src)) self.new }
    {
        self.form_0f_reg_rm(forms::IMUL_R_RM, 0, w, dst, src);
    }

    #[inline(always)]
    pub fn movsxd_r64_r32(&mut self, dst: Gpr, src: Gpr)
        requires { HasRoom self.old (length (encode (movsxd dst src))) }
        ensures { Writes self.old (encode (movsxd dst src)) self.new }
    {
        self.form_reg_rm(forms::MOVSXD_R64_R32, Width::R64, dst, src);
    }

    #[inline(always)]
    pub fn setcc_al(&mut self, cc: X64Cc)
        requires { HasRoom self.old (length (encode (setcc_al (cc_of cc)))) }
        ensures { Writes self.old (encode (setcc_al (cc_of cc))) self.new }
    {
        self.form_0f_al(forms::SETCC_AL, cc as u8);
    }

    #[inline(always)]
    pub fn movzx_r64_r8(&mut self, dst: Gpr, src: Gpr)
        requires { HasRoom self.old (length (encode (movzx dst src))) }
        ensures { Writes self.old (encode (movzx dst src)) self.new }
    {
        self.form_0f_reg_rm(forms::MOVZX_R64_R8, 0, Width::R64, dst, src);
    }

    #[inline(always)]
    pub fn cmovcc_r64_r64(&mut self, dst: Gpr, src: Gpr, cc: X64Cc)
        requires { HasRoom self.old (length (encode (cmov (cc_of cc) dst src))) }
        ensures { Writes self.old (encode (cmov (cc_of cc) dst src)) self.new }
    {
        self.form_0f_reg_rm(forms::CMOVCC_R64_R64, cc as u8, Width::R64, dst, src);
    }

    #[inline(always)]
    pub fn call_rax(&mut self)
        requires { HasRoom self.old (length (encode call_rax)) }
        ensures { Writes self.old (encode call_rax) self.new }
    {
        self.emit_opcode(forms::CALL_RAX);
        self.emit_digit(forms::CALL_RAX, X64Emitter::RAX.number());
    }

    #[inline(always)]
    pub fn ret(&mut self)
        requires { HasRoom self.old (length (encode «ret»)) }
        ensures { Writes self.old (encode «ret») self.new }
    {
        self.form_bare(forms::RET, Width::R32);
    }

    // RDX:RAX becomes RAX times a register, IMUL of signed numbers; or RAX and RDX become quotient and remainder of RDX:RAX, IDIV of
    // signed.
    #[inline(always)]
    pub fn mul_div(&mut self, w: Width, op: MulDiv, reg: Gpr)
        requires { HasRoom self.old (length (encode (mul_div (width_of w) (mul_div_of op) reg))) }
        ensures { Writes self.old (encode (mul_div (width_of w) (mul_div_of op) reg)) self.new }
    {
        self.form_digit_rm(op.form(), w, reg);
    }

    // CQO, the sign of RAX in RDX; of 32 bits CDQ, of EAX in EDX.
    #[inline(always)]
    pub fn cqo(&mut self, w: Width)
        requires { HasRoom self.old (length (encode (cqo (width_of w)))) }
        ensures { Writes self.old (encode (cqo (width_of w))) self.new }
    {
        self.form_bare(forms::CQO, w);
    }

    // A jump over the next bytes, as many as rel says, where the condition holds.
    #[inline(always)]
    pub fn jcc_rel8(&mut self, cc: X64Cc, rel: u8)
        requires { (rel < 128) × HasRoom self.old (length (encode (jcc (cc_of cc) rel))) }
        ensures { Writes self.old (encode (jcc (cc_of cc) rel)) self.new }
    {
        self.form_jump(forms::JCC_REL8, cc as u8, rel);
    }
}
