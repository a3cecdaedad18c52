// What an encoder is told beside its registers. `specs/Args` gives each the name that crate agreement has for it (X86/Form).
ghost use Rattle.std.specs.Prelude.{◌≡◌, cond, true, ◌≤◌};
ghost use Rattle.agreement.specs.X86.Encode.{digit, shift_digit, mul_div_digit, cc_number};
ghost use Rattle.emitter.specs.Args.{is_64, alu_of, shift_of, mul_div_of, cc_of};

// Operand size, by REX.W.
#[derive(Clone, Copy)]
pub enum Width {
    R32,
    R64,
}

impl Width {
    // `(w as u8) << 3`
    pub(crate) fn rex_w(self) -> u8
        ensures { (result ≡ cond (is_64 self) 8 0) × (result ≤ 8) }
    {
        match self {
            Width::R32 => 0,
            Width::R64 => 8,
        }
    }
}

#[derive(Clone, Copy)]
pub enum Alu {
    Add,
    Or,
    And,
    Sub,
    Xor,
    Cmp,
}

#[derive(Clone, Copy)]
pub enum Shift {
    Shl,
    Shr,
    Sar,
}

// MUL, IMUL, DIV and IDIV of one operand, the other being RAX or RDX:RAX.
#[derive(Clone, Copy)]
pub enum MulDiv {
    Mul,
    Imul,
    Div,
    Idiv,
}

// Condition codes, by the number that is added to an opcode.
#[derive(Clone, Copy)]
pub enum X64Cc {
    B = 0x2,
    AE = 0x3,
    E = 0x4,
    NE = 0x5,
    L = 0xC,
    GE = 0xD,
}
