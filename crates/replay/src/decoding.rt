// D lines: the immediates and fields of a word.
ghost use Rattle.std.specs.Prelude.{◌≡◌, is_some};
ghost use Rattle.requests.specs.Lines.{is_decoding};

use crate::output::Output;
use std::io::Write;

fn print<W: Write>(word: u32, to: &mut Output<W>) {
    let i = decode::imm_i(word).cast_signed();
    let s = decode::imm_s(word).cast_signed();
    let b = decode::imm_b(word).cast_signed();
    let u = decode::imm_u(word).cast_signed();
    let j = decode::imm_j(word).cast_signed();
    to.print(format_args!("{i} {s} {b} {u} {j} "));
    let d = decode::decode32(word);
    to.print(format_args!(
        "{} {} {} {} {} {} {}",
        d.opcode,
        d.rd.number(),
        d.funct3,
        d.rs1.number(),
        d.rs2.number(),
        d.funct7,
        d.imm12
    ));
}

// Writes the reply to a request; there is none to a line that is no request.
pub fn reply<W: Write>(line: &[u8], to: &mut Output<W>) -> Option<()>
    ensures { is_some result ≡ is_decoding line.now }
{
    let word = requests::read_decoding(line)?;
    print(word, to);
    Some(())
}
