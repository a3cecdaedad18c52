// The words of one opcode, for `word_kind`.
ghost use Rattle.std.specs.Prelude.{◌≡◌, ◌≤◌};
ghost use Rattle.kind.specs.Family.{FamilyWithKind, class_of};

use crate::WordKind;
use decode::isa;

// Which words are taken: for each class of funct7 eight bits that say which funct3 are, the lowest for funct3 0. The kind of those that
// are; and which funct3 end the block instead, eight bits.
#[derive(Clone, Copy)]
pub struct Family {
    pub kind: WordKind,
    pub taken: u64,
    pub ending: u8,
}

// The classes: funct7 0x00, 0x01, 0x20, 0x21, and every other.
const BASE: u64 = 0x1;

const MULDIV: u64 = 0x100;

const SUB_SRA: u64 = 0x1_0000;

const SUB_SRA_MULDIV: u64 = 0x100_0000;

const OTHER: u64 = 0x1_0000_0000;

const ANY: u64 = BASE + MULDIV + SUB_SRA + SUB_SRA_MULDIV + OTHER;

// LUI and AUIPC
const CONSTANT: Family = Family {
    kind: WordKind::Straight,
    taken: 0xFF * ANY,
    ending: 0,
};

const JAL: Family = Family {
    kind: WordKind::Ending,
    taken: 0xFF * ANY,
    ending: 0,
};

// Funct3 0 alone.
const JALR: Family = Family {
    kind: WordKind::Ending,
    taken: 0x01 * ANY,
    ending: 0,
};

// All but funct3 2 and 3.
const BRANCH: Family = Family {
    kind: WordKind::Ending,
    taken: 0xF3 * ANY,
    ending: 0,
};

// The shifts, funct3 1 and 5, have six bits above their amount, which are all but the lowest bit of funct7.
const OP_IMM: Family = Family {
    kind: WordKind::Straight,
    taken: 0xDD * ANY + 0x22 * BASE + 0x22 * MULDIV + 0x20 * SUB_SRA + 0x20 * SUB_SRA_MULDIV,
    ending: 0,
};

const OP_IMM_32: Family = Family {
    kind: WordKind::Straight,
    taken: 0x01 * ANY + 0x22 * BASE + 0x20 * SUB_SRA,
    ending: 0,
};

// Of M all words of 64 bits; of 32 bits all but funct3 1 to 3, which are none.
const OP: Family = Family {
    kind: WordKind::Straight,
    taken: 0xFF * BASE + 0xFF * MULDIV + 0x21 * SUB_SRA,
    ending: 0,
};

const OP_32: Family = Family {
    kind: WordKind::Straight,
    taken: 0x23 * BASE + 0xF1 * MULDIV + 0x21 * SUB_SRA,
    ending: 0,
};

// FENCE, funct3 0, goes on; FENCE.I, funct3 1, ends the block.
const FENCE: Family = Family {
    kind: WordKind::Straight,
    taken: 0x03 * ANY,
    ending: 0x02,
};

const LOAD: Family = Family {
    kind: WordKind::MemoryHelper,
    taken: 0x7F * ANY,
    ending: 0,
};

const STORE: Family = Family {
    kind: WordKind::MemoryHelper,
    taken: 0x0F * ANY,
    ending: 0,
};

// No word of any other opcode is taken.
const NONE: Family = Family {
    kind: WordKind::NotTaken,
    taken: 0,
    ending: 0,
};

impl Family {
    pub fn of(opcode: u8) -> Family
        ensures { FamilyWithKind opcode result }
    {
        match opcode {
            isa::OPCODE_LUI => CONSTANT,
            isa::OPCODE_AUIPC => CONSTANT,
            isa::OPCODE_JAL => JAL,
            isa::OPCODE_JALR => JALR,
            isa::OPCODE_BRANCH => BRANCH,
            isa::OPCODE_OP_IMM => OP_IMM,
            isa::OPCODE_OP_IMM_32 => OP_IMM_32,
            isa::OPCODE_OP => OP,
            isa::OPCODE_OP_32 => OP_32,
            isa::OPCODE_MISC_MEM => FENCE,
            isa::OPCODE_LOAD => LOAD,
            isa::OPCODE_STORE => STORE,
            _ => NONE,
        }
    }
}

// The class of a funct7, 0 to 4: a number, since it counts bits of `taken`, and document 02 numbers the classes at Q-9.
pub fn class(funct7: u8) -> u8
    ensures { (result ≡ class_of funct7) × (result ≤ 4) }
{
    let low = funct7 % 32;
    let high = funct7 / 32;
    if low > 1 {
        return 4;
    }
    if high > 1 {
        return 4;
    }
    2 * high + low
}
