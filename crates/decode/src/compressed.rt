// Compressed halfwords (RV64C): the 32-bit word that one is translated as, or none where it goes to the 16-bit helper. The Rust has no such
// step. Each field is moved to its place in the word at once, a sign bit times the ones that it stands for, and 0x8080 puts a register at
// rd and at rs1: so a word is a sum of products. The scrambled bits of an immediate are joined from the highest on, one to the next: as
// one sum of many products they take longer, since the compiler then multiplies them as a vector. All is inlined, for it runs for each
// halfword.
ghost use Rattle.std.specs.Prelude.{◌≡◌, ◌<◌};
ghost use Rattle.agreement.specs.Riscv.Run.{in_line};
ghost use Rattle.agreement.specs.Translation.Decode16 as Decode16;

// rd, which is rs1 too.
#[inline(always)]
fn rd(h: u32) -> u32
    ensures { result ≡ Decode16.rd h }
{
    (h >> 7) % 32
}

#[inline(always)]
fn rs2(h: u32) -> u32
    ensures { result ≡ Decode16.rs2 h }
{
    (h >> 2) % 32
}

// The registers of three bits are x8 to x15.
#[inline(always)]
fn rd3(h: u32) -> u32
    ensures { result ≡ Decode16.rd3 h }
{
    8 + (h >> 7) % 8
}

#[inline(always)]
fn rs3(h: u32) -> u32
    ensures { result ≡ Decode16.rs3 h }
{
    8 + (h >> 2) % 8
}

// The immediate of six bits at bit 20, its sign in every bit above.
#[inline(always)]
fn imm6(h: u32) -> u32
    ensures { result ≡ Decode16.imm6 h }
{
    (h >> 12) % 2 * 0xFE00_0000 + (h >> 2) % 32 * 0x10_0000
}

// A shift amount of six bits at bit 20.
#[inline(always)]
fn shamt(h: u32) -> u32
    ensures { result ≡ Decode16.shamt h }
{
    (h >> 12) % 2 * 0x200_0000 + (h >> 2) % 32 * 0x10_0000
}

// C.ADDI4SPN
#[inline(always)]
fn addi4spn(h: u32) -> u32
    ensures { result ≡ Decode16.addi4spn h }
{
    let imm = (((h >> 7) % 16 * 4 + (h >> 11) % 4) * 2 + (h >> 5) % 2) * 2 + (h >> 6) % 2;
    imm * 0x40_0000 + rs3(h) * 0x80 + 0x1_0013
}

// C.ADDI16SP
#[inline(always)]
fn addi16sp(h: u32) -> u32
    ensures { result ≡ Decode16.addi16sp h }
{
    let imm = ((((h >> 12) % 2 * 28 + (h >> 3) % 4) * 2 + (h >> 5) % 2) * 2 + (h >> 2) % 2) * 2
        + (h >> 6) % 2;
    imm * 0x100_0000 + 0x1_0113
}

// C.J
#[inline(always)]
fn jal(h: u32) -> u32
    ensures { result ≡ Decode16.jal h }
{
    let high = (((h >> 8) % 2 * 4 + (h >> 9) % 4) * 2 + (h >> 6) % 2) * 2 + (h >> 7) % 2;
    let imm = ((high * 2 + (h >> 2) % 2) * 2 + (h >> 11) % 2) * 8 + (h >> 3) % 8;
    (h >> 12) % 2 * 0x801F_F000 + imm * 0x20_0000 + 0x6F
}

// C.BEQZ; C.BNEZ is 0x1000 more.
#[inline(always)]
fn beq(h: u32) -> u32
    ensures { result ≡ Decode16.beq h }
{
    let high = (h >> 5) % 4 * 2 + (h >> 2) % 2;
    let low = (h >> 10) % 4 * 4 + (h >> 3) % 4;
    (h >> 12) % 2 * 0xF000_0080 + high * 0x200_0000 + low * 0x100 + rd3(h) * 0x8000 + 0x63
}

// None where a halfword of these fields is another, which is not in line.
#[inline(always)]
fn unless(other: bool, word: u32) -> Option<u32>
    ensures { result ≡ Decode16.unless other word }
{
    if other { None } else { Some(word) }
}

// Two registers of three bits, and the rest of the word.
#[inline(always)]
fn pair(h: u32, base: u32) -> u32
    requires { base < 0x8000_0000 }
    ensures { result ≡ Decode16.pair h base }
{
    rs3(h) * 0x10_0000 + rd3(h) * 0x8080 + base
}

// C.SUB, C.XOR, C.OR, C.AND, C.SUBW and C.ADDW, by bit 12 above bits 6 and 5: a match of constants, which the compiler makes a table of.
#[inline(always)]
fn registers(h: u32) -> Option<u32>
    ensures { result ≡ Decode16.registers h }
{
    let base = match (h >> 12) % 2 * 4 + (h >> 5) % 4 {
        0 => 0x4000_0033,
        1 => 0x4033,
        2 => 0x6033,
        3 => 0x7033,
        4 => 0x4000_003B,
        5 => 0x3B,
        _ => return None,
    };
    Some(pair(h, base))
}

// C.SRLI, C.SRAI, C.ANDI, and two registers.
#[inline(always)]
fn arithmetic(h: u32) -> Option<u32>
    ensures { result ≡ Decode16.arithmetic h }
{
    let row = (h >> 10) % 4;
    if row == 3 {
        return registers(h);
    }
    if row == 2 {
        return Some(imm6(h) + rd3(h) * 0x8080 + 0x7013);
    }
    Some(shamt(h) + rd3(h) * 0x8080 + 0x5013 + row * 0x4000_0000)
}

// C.ADDI16SP where rd is x2, else C.LUI; none with immediate 0, which is tested as C.LUI has it.
#[inline(always)]
fn upper(h: u32) -> Option<u32>
    ensures { result ≡ Decode16.upper h }
{
    let imm = (h >> 12) % 2 * 0xFFFE_0000 + (h >> 2) % 32 * 0x1000;
    if imm == 0 {
        return None;
    }
    if rd(h) == 2 {
        Some(addi16sp(h))
    } else {
        Some(imm + rd(h) * 0x80 + 0x37)
    }
}

// C.JR and C.JALR, none of x0 (C.EBREAK and a reserved one); C.MV and C.ADD.
#[inline(always)]
fn moves(h: u32) -> Option<u32>
    ensures { result ≡ Decode16.moves h }
{
    let bit12 = (h >> 12) % 2;
    if rs2(h) == 0 {
        return unless(rd(h) == 0, rd(h) * 0x8000 + bit12 * 0x80 + 0x67);
    }
    if bit12 == 0 {
        Some(rs2(h) * 0x10_0000 + rd(h) * 0x80 + 0x33)
    } else {
        Some(rs2(h) * 0x10_0000 + rd(h) * 0x8080 + 0x33)
    }
}

// The word of a halfword that is translated in line, by funct3 above the low two bits, which say the quadrant. Where no arm fits, the
// halfword is a load, a store or reserved, or its low bits are those of a longer instruction.
#[inline(always)]
pub fn expand(halfword: u16) -> Option<u32>
    ensures { result ≡ in_line halfword }
{
    let h = halfword as u32;
    match (h >> 13) * 4 + h % 4 {
        0b000_00 => unless((h >> 5) % 256 == 0, addi4spn(h)),
        0b000_01 => Some(imm6(h) + rd(h) * 0x8080 + 0x13),
        0b000_10 => Some(shamt(h) + rd(h) * 0x8080 + 0x1013),
        0b001_01 => unless(rd(h) == 0, imm6(h) + rd(h) * 0x8080 + 0x1B),
        0b010_01 => Some(imm6(h) + rd(h) * 0x80 + 0x13),
        0b011_01 => upper(h),
        0b100_01 => arithmetic(h),
        0b100_10 => moves(h),
        0b101_01 => Some(jal(h)),
        0b110_01 => Some(beq(h)),
        0b111_01 => Some(beq(h) + 0x1000),
        _ => None,
    }
}
