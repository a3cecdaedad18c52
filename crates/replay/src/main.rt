// Answers request lines on standard input in the form of the original Rust's harness, a reply line each:
//
//     T <start hex> <limit> <helper16 hex> <helper_mem hex> <output length> <hhhh,hhhh,... or ->
//         block <length> <count> <bytes hex> <span> | 1 | 2 <start hex> | 3 <index> | 4 <word hex> | 5
//     P <used> <store length> <code length>
//         placed <offset> <new mark> | 6 | 7
//     D <word hex>
//         imm_i imm_s imm_b imm_u imm_j opcode rd funct3 rs1 rs2 funct7 imm12, in decimal, the immediates signed
//     I new <n>
//     I set <slot> <use> <satp hex> <pc hex> <offset> <count> <length> <span>
//         ok
//     I insert <satp hex> <pc hex> <offset> <count> <length> <span>
//         at <index> | 8
//     I find <satp hex> <pc hex>
//         found <use>,<satp hex>,<pc hex>,<offset>,<count>,<length>,<span> | none
//     I drop <address hex> <n>
//         dropped <how many>
//     I empty
//         mark 0
//     I show
//         every entry, as find shows it, a blank between two
//
// I lines ask an index of blocks that is kept from line to line: `new` makes one of n entries of zeros, 64 at most, and `set` writes one of
// them as a caller would; a `set` of one that is not there is no request. `drop` tells of a write of n bytes from an address on. Other
// numbers are decimal. A line that is no request, or has over 8,192 bytes, or asks for lent bytes of over 65,536, gets `bad request`, and
// the program goes on. Where lent bytes or a mark changed that must not, or a cleared mark is not 0, `touched` is behind the reply. Each
// line is answered as it comes, so that another program can ask and wait for the reply. Where the input cannot be read or a reply cannot
// be written, the program ends with an error.
#![tactic(auto)]

mod decoding;
mod indexing;
mod output;
mod placing;
mod translation;

ghost use Rattle.std.specs.Prelude.{◌≤◌, IfSome};
ghost use Rattle.std.proofs.Props.{props};

use output::Output;
use std::io;
use std::io::{Read, Write};
use table::Table;

// Writes the reply to a request; there is none to a line that is no request.
fn reply<W: Write>(line: &[u8], table: &mut Table, to: &mut Output<W>) -> Option<()> {
    match line {
        [b'I', b' ', ..] => indexing::reply(line, table, to),
        [b'D', b' ', ..] => decoding::reply(line, to),
        [b'T', b' ', ..] => translation::reply(line, to),
        [b'P', b' ', ..] => placing::reply(line, to),
        _ => None,
    }
}

// The line so far: an array with its length, since no program allocates. Where it has more bytes than there is place for, its length is not
// kept: it is no request.
#[derive(Drop)]
struct Line {
    bytes: [u8; 8192],
    len: Option<usize>,
    ghost within: { IfSome len (λ n. n ≤ 8192) } by { Prim.hlevel props },
}

impl Line {
    fn new() -> Line {
        Line {
            bytes: [0; 8192],
            len: Some(0),
        }
    }

    fn push(&mut self, b: u8) {
        self.len = match self.len {
            Some(n) if n < 8192 => {
                self.bytes[n] = b;
                Some(n + 1)
            }
            _ => None,
        };
    }

    // Writes the reply to the line, and begins the next one.
    fn end<W: Write>(&mut self, table: &mut Table, to: &mut Output<W>) {
        let replied = match self.len {
            Some(n) => reply(&self.bytes[..n], table, to),
            None => None,
        };
        if replied.is_none() {
            to.write(b"bad request");
        }
        to.write(b"\n");
        self.len = Some(0);
    }
}

// Answers the lines that the text ends, as long as replies can be written.
fn feed<W: Write>(text: &[u8], line: &mut Line, table: &mut Table, to: &mut Output<W>) {
    for &b in text {
        if b == b'\n' {
            line.end(table, to);
            if !to.is_written() {
                return;
            }
        } else {
            line.push(b);
        }
    }
}

fn main(rt: HostRuntime) -> io::Result<()> {
    let mut input = rt.stdin();
    let mut to = Output::new(rt.stdout());
    let mut buf = [0u8; 65536];
    let mut line = Line::new();
    let mut table = Table::new(0);
    let mut read = Ok(());
    // The number of reads is bounded for the proof that the program ends: 2^64 - 1 of them is more than any input.
    for _ in 0..u64::MAX {
        // Where a read fails, what came before it is answered as at the input's end.
        let n = match input.read(&mut buf) {
            Ok(n) => n,
            Err(e) => {
                read = Err(io::Error::new(e.kind(), "replay: standard input cannot be read"));
                0
            }
        };
        feed(&buf[..n], &mut line, &mut table, &mut to);
        if n == 0 || !to.is_written() {
            break;
        }
    }
    // The last line, which may lack its end.
    if line.len != Some(0) {
        line.end(&mut table, &mut to);
    }
    to.close()?;
    read
}
