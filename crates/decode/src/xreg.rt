// A register of the guest, x0 to x31 (RISC-V Unprivileged manual, "Programmers' Model for Base Integer ISA"), by its number. A clause
// sees the number.
ghost use Rattle.std.specs.Prelude.{◌≡◌, ◌<◌, ◌==◌};

use std::marker::Model;

#[derive(Clone, Copy)]
pub struct XReg {
    number: u8,
}

impl Model for XReg {
    ghost use Rattle.std.specs.Prelude.{ℕ, ◌<◌};

    ghost Value = { ℕ };

    ghost view = { λ r. r.number };

    ghost invariant = { λ r. r.number < 32 };

    ghost inverse = { λ n. record { number = n } };
}

impl XReg {
    pub fn new(number: u8) -> XReg
        requires { number < 32 }
        ensures { result ≡ number }
    {
        XReg { number }
    }

    pub fn number(self) -> u8
        ensures value { result ≡ self }
        ensures below_32 { result < 32 }
    {
        self.number
    }

    // x0 reads as 0, and a write to it is dropped.
    pub fn is_x0(self) -> bool
        ensures { result ≡ (self == 0) }
    {
        0 == self.number
    }
}
