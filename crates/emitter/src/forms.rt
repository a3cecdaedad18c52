// The table of host forms: the opcode and the extension digit of each (Intel SDM volume 2, the page of each mnemonic).
// After 0F stands the second opcode byte; a register or a condition number is added to it where the form says so.
// The digit is that of ModRM.reg, 0 where the form has none.
ghost use Rattle.std.specs.Prelude.{◌≡◌, ◌+◌, ◌*◌};
ghost use Rattle.agreement.specs.X86.Encode.{digit, shift_digit, mul_div_digit};
ghost use Rattle.emitter.specs.Args.{alu_of, shift_of, mul_div_of};
ghost use Rattle.emitter.specs.Forms.{IsForm};

use crate::args::{Alu, MulDiv, Shift};

#[derive(Clone, Copy)]
pub struct Form(pub u8, pub u8);

pub const PUSH_R64: Form = Form(0x50, 0);

pub const POP_R64: Form = Form(0x58, 0);

pub const MOV_R64_R64: Form = Form(0x89, 0);

pub const MOV_R64_IMM64: Form = Form(0xB8, 0);

pub const MOV_R64_M64: Form = Form(0x8B, 0);

pub const MOV_M64_R64: Form = Form(0x89, 0);

pub const ADD_RM_R: Form = Form(0x01, 0);

pub const OR_RM_R: Form = Form(0x09, 0);

pub const AND_RM_R: Form = Form(0x21, 0);

pub const SUB_RM_R: Form = Form(0x29, 0);

pub const XOR_RM_R: Form = Form(0x31, 0);

pub const CMP_RM_R: Form = Form(0x39, 0);

pub const ADD_RM_IMM32: Form = Form(0x81, 0);

pub const OR_RM_IMM32: Form = Form(0x81, 1);

pub const AND_RM_IMM32: Form = Form(0x81, 4);

pub const SUB_RM_IMM32: Form = Form(0x81, 5);

pub const XOR_RM_IMM32: Form = Form(0x81, 6);

pub const CMP_RM_IMM32: Form = Form(0x81, 7);

pub const ADD_RM_IMM8: Form = Form(0x83, 0);

pub const OR_RM_IMM8: Form = Form(0x83, 1);

pub const AND_RM_IMM8: Form = Form(0x83, 4);

pub const SUB_RM_IMM8: Form = Form(0x83, 5);

pub const XOR_RM_IMM8: Form = Form(0x83, 6);

pub const CMP_RM_IMM8: Form = Form(0x83, 7);

pub const SHL_RM_CL: Form = Form(0xD3, 4);

pub const SHR_RM_CL: Form = Form(0xD3, 5);

pub const SAR_RM_CL: Form = Form(0xD3, 7);

pub const SHL_RM_IMM8: Form = Form(0xC1, 4);

pub const SHR_RM_IMM8: Form = Form(0xC1, 5);

pub const SAR_RM_IMM8: Form = Form(0xC1, 7);

pub const IMUL_R_RM: Form = Form(0xAF, 0);

pub const MOVSXD_R64_R32: Form = Form(0x63, 0);

pub const SETCC_AL: Form = Form(0x90, 0);

pub const MOVZX_R64_R8: Form = Form(0xB6, 0);

pub const CMOVCC_R64_R64: Form = Form(0x40, 0);

pub const CALL_RAX: Form = Form(0xFF, 2);

pub const RET: Form = Form(0xC3, 0);

// The forms that division and the upper half of a product need (document 02, Q-2). The Rust does not have them.
pub const MUL_RM: Form = Form(0xF7, 4);

pub const IMUL_RM: Form = Form(0xF7, 5);

pub const DIV_RM: Form = Form(0xF7, 6);

pub const IDIV_RM: Form = Form(0xF7, 7);

pub const CQO: Form = Form(0x99, 0);

pub const JCC_REL8: Form = Form(0x70, 0);

// The rows of an operation: with a register, with four bytes, with one byte, by CL.
impl Alu {
    pub(crate) fn with_register(self) -> Form
        ensures { IsForm (8 * digit (alu_of self) + 1) 0 result }
    {
        match self {
            Alu::Add => ADD_RM_R,
            Alu::Or => OR_RM_R,
            Alu::And => AND_RM_R,
            Alu::Sub => SUB_RM_R,
            Alu::Xor => XOR_RM_R,
            Alu::Cmp => CMP_RM_R,
        }
    }

    pub(crate) fn with_imm32(self) -> Form
        ensures { IsForm 0x81 (digit (alu_of self)) result }
    {
        match self {
            Alu::Add => ADD_RM_IMM32,
            Alu::Or => OR_RM_IMM32,
            Alu::And => AND_RM_IMM32,
            Alu::Sub => SUB_RM_IMM32,
            Alu::Xor => XOR_RM_IMM32,
            Alu::Cmp => CMP_RM_IMM32,
        }
    }

    pub(crate) fn with_imm8(self) -> Form
        ensures { IsForm 0x83 (digit (alu_of self)) result }
    {
        match self {
            Alu::Add => ADD_RM_IMM8,
            Alu::Or => OR_RM_IMM8,
            Alu::And => AND_RM_IMM8,
            Alu::Sub => SUB_RM_IMM8,
            Alu::Xor => XOR_RM_IMM8,
            Alu::Cmp => CMP_RM_IMM8,
        }
    }
}

impl Shift {
    pub(crate) fn by_cl(self) -> Form
        ensures { IsForm 0xD3 (shift_digit (shift_of self)) result }
    {
        match self {
            Shift::Shl => SHL_RM_CL,
            Shift::Shr => SHR_RM_CL,
            Shift::Sar => SAR_RM_CL,
        }
    }

    pub(crate) fn by_imm8(self) -> Form
        ensures { IsForm 0xC1 (shift_digit (shift_of self)) result }
    {
        match self {
            Shift::Shl => SHL_RM_IMM8,
            Shift::Shr => SHR_RM_IMM8,
            Shift::Sar => SAR_RM_IMM8,
        }
    }
}

impl MulDiv {
    pub(crate) fn form(self) -> Form
        ensures { IsForm 0xF7 (mul_div_digit (mul_div_of self)) result }
    {
        match self {
            MulDiv::Mul => MUL_RM,
            MulDiv::Imul => IMUL_RM,
            MulDiv::Div => DIV_RM,
            MulDiv::Idiv => IDIV_RM,
        }
    }
}
