// A general-purpose register of the host (Intel SDM volume 1, "General-Purpose Registers"), by its number: the low three bits go into an
// opcode, ModRM or SIB byte, the fourth into REX. A clause sees the number.
ghost use Rattle.std.specs.Prelude.{◌≡◌, ◌<◌};

use std::marker::Model;

#[derive(Clone, Copy)]
pub struct Gpr {
    number: u8,
}

impl Model for Gpr {
    ghost use Rattle.std.specs.Prelude.{ℕ, ◌<◌};

    ghost Value = { ℕ };

    ghost view = { λ r. r.number };

    ghost invariant = { λ r. r.number < 16 };

    ghost inverse = { λ n. record { number = n } };
}

impl Gpr {
    pub const RAX: Gpr = Gpr { number: 0 };

    pub const RCX: Gpr = Gpr { number: 1 };

    pub const RDX: Gpr = Gpr { number: 2 };

    pub const RBX: Gpr = Gpr { number: 3 };

    pub const RSP: Gpr = Gpr { number: 4 };

    pub const RBP: Gpr = Gpr { number: 5 };

    pub const RSI: Gpr = Gpr { number: 6 };

    pub const RDI: Gpr = Gpr { number: 7 };

    pub const R8: Gpr = Gpr { number: 8 };

    pub const R9: Gpr = Gpr { number: 9 };

    pub const R10: Gpr = Gpr { number: 10 };

    pub const R11: Gpr = Gpr { number: 11 };

    pub const R12: Gpr = Gpr { number: 12 };

    pub const R13: Gpr = Gpr { number: 13 };

    pub const R14: Gpr = Gpr { number: 14 };

    pub const R15: Gpr = Gpr { number: 15 };

    pub fn new(number: u8) -> Gpr
        requires { number < 16 }
        ensures { result ≡ number }
    {
        Gpr { number }
    }

    pub fn number(self) -> u8
        ensures value { result ≡ self }
        ensures below_16 { result < 16 }
    {
        self.number
    }
}
