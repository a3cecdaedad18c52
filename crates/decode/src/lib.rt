// src/hart/decode.rs of the Rust: the fields of a 32-bit word, and its immediates.
// An immediate is a u64 in two's complement where the Rust has an i64. A field is taken by a shift and a remainder
// where the Rust has a shift and a mask, and fields are joined by sums where it has `|`: the same bits.
#![tactic(auto)]

pub mod compressed;
pub mod isa;
mod xreg;

ghost use Rattle.std.specs.Prelude.{◌≡◌, ◌^◌, ◌<◌, ◌≤◌};
ghost use Rattle.agreement.specs.Riscv.Immediates.{sign_extend, imm_i, imm_s, imm_b, imm_u, imm_j};
ghost use Rattle.decode.specs.Decoded.{decoded};

pub use compressed::expand;
pub use xreg::XReg;

#[derive(Clone, Copy)]
pub struct Decoded32 {
    pub opcode: u8,
    pub rd: XReg,
    pub funct3: u8,
    pub rs1: XReg,
    pub rs2: XReg,
    pub funct7: u8,
    pub funct5: u8,
    pub imm12: u16,
    pub csr_addr: u16,
}

// Bit bits - 1 of val copied into every bit above it, without a branch.
fn sign_extend(val: u64, bits: u32) -> u64
    requires { (1 ≤ bits) × (bits ≤ 32) × (val < 2 ^ bits) }
    ensures { result ≡ sign_extend bits val }
{
    let sign = val >> (bits - 1);
    let above = 0xFFFF_FFFF_FFFF_FFFF - ((1u64 << bits) - 1);
    val + sign * above
}

pub fn imm_i(instr: u32) -> u64
    ensures { result ≡ imm_i instr }
{
    sign_extend(((instr >> 20) % 4096) as u64, 12)
}

pub fn imm_s(instr: u32) -> u64
    ensures { result ≡ imm_s instr }
{
    let imm = (instr >> 25) % 128 * 32 + (instr >> 7) % 32;
    sign_extend(imm as u64, 12)
}

pub fn imm_b(instr: u32) -> u64
    ensures { result ≡ imm_b instr }
{
    let bit12 = (instr >> 31) % 2;
    let bit11 = (instr >> 7) % 2;
    let bits10_5 = (instr >> 25) % 64;
    let bits4_1 = (instr >> 8) % 16;
    let imm = bit12 * 4096 + bit11 * 2048 + bits10_5 * 32 + bits4_1 * 2;
    sign_extend(imm as u64, 13)
}

pub fn imm_u(instr: u32) -> u64
    ensures { result ≡ imm_u instr }
{
    let imm = (instr >> 12) % 1048576 * 4096;
    sign_extend(imm as u64, 32)
}

pub fn imm_j(instr: u32) -> u64
    ensures { result ≡ imm_j instr }
{
    let bit20 = (instr >> 31) % 2;
    let bits19_12 = (instr >> 12) % 256;
    let bit11 = (instr >> 20) % 2;
    let bits10_1 = (instr >> 21) % 1024;
    let imm = bit20 * 1048576 + bits19_12 * 4096 + bit11 * 2048 + bits10_1 * 2;
    sign_extend(imm as u64, 21)
}

pub fn decode32(instr: u32) -> Decoded32
    ensures { result ≡ decoded instr }
{
    Decoded32 {
        opcode: (instr % 128) as u8,
        rd: XReg::new(((instr >> 7) % 32) as u8),
        funct3: ((instr >> 12) % 8) as u8,
        rs1: XReg::new(((instr >> 15) % 32) as u8),
        rs2: XReg::new(((instr >> 20) % 32) as u8),
        funct7: ((instr >> 25) % 128) as u8,
        funct5: ((instr >> 27) % 32) as u8,
        imm12: ((instr >> 20) % 4096) as u16,
        csr_addr: ((instr >> 20) % 4096) as u16,
    }
}
