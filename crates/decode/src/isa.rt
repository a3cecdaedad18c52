// src/isa.rs of the Rust: the opcode, funct3 and funct7 values that the translator tests, under its names.
// RISC-V Unprivileged manual, "RV32/64G Instruction Set Listings". As u8, the width of Decoded32's fields.
// Numbers and no enums: they are fields of a word, most values of which have no name here, and the Rust's file has them so.

// Opcodes (instr[6:0])
pub const OPCODE_LUI: u8 = 0b0110111;

pub const OPCODE_AUIPC: u8 = 0b0010111;

pub const OPCODE_JAL: u8 = 0b1101111;

pub const OPCODE_JALR: u8 = 0b1100111;

pub const OPCODE_BRANCH: u8 = 0b1100011;

pub const OPCODE_LOAD: u8 = 0b0000011;

pub const OPCODE_STORE: u8 = 0b0100011;

pub const OPCODE_OP_IMM: u8 = 0b0010011;

pub const OPCODE_OP: u8 = 0b0110011;

pub const OPCODE_OP_IMM_32: u8 = 0b0011011;

pub const OPCODE_OP_32: u8 = 0b0111011;

pub const OPCODE_MISC_MEM: u8 = 0b0001111;

// funct3 of OP and OP-IMM
pub const F3_ADD_SUB: u8 = 0b000;

pub const F3_SLL: u8 = 0b001;

pub const F3_SLT: u8 = 0b010;

pub const F3_SLTU: u8 = 0b011;

pub const F3_XOR: u8 = 0b100;

pub const F3_SRL_SRA: u8 = 0b101;

pub const F3_OR: u8 = 0b110;

pub const F3_AND: u8 = 0b111;

// funct3 of OP and OP-32 with F7_MULDIV. The Rust has no names for these, and takes the first alone, as F3_ADD_SUB.
pub const F3_MUL: u8 = 0b000;

pub const F3_MULH: u8 = 0b001;

pub const F3_MULHSU: u8 = 0b010;

pub const F3_MULHU: u8 = 0b011;

pub const F3_DIV: u8 = 0b100;

pub const F3_DIVU: u8 = 0b101;

pub const F3_REM: u8 = 0b110;

pub const F3_REMU: u8 = 0b111;

// funct3 of JALR. The Rust has no name for it, and does not test it.
pub const F3_JALR: u8 = 0b000;

// funct3 of BRANCH
pub const F3_BEQ: u8 = 0b000;

pub const F3_BNE: u8 = 0b001;

pub const F3_BLT: u8 = 0b100;

pub const F3_BGE: u8 = 0b101;

pub const F3_BLTU: u8 = 0b110;

pub const F3_BGEU: u8 = 0b111;

// funct3 of MISC-MEM
pub const F3_FENCE: u8 = 0b000;

pub const F3_FENCE_I: u8 = 0b001;

// funct7
pub const F7_BASE: u8 = 0b0000000;

pub const F7_SUB_SRA: u8 = 0b0100000;

pub const F7_MULDIV: u8 = 0b0000001;
