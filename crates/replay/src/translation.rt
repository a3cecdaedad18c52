// T lines: a translation into an output that was filled with a pattern, by which it is seen whether other bytes changed.
ghost use Rattle.std.specs.Prelude.{◌≡◌, ◌≤◌, is_some, length};
ghost use Rattle.requests.specs.Lines.{is_translation};

use crate::output::Output;
use block::{Block, Helpers, Refusal};
use requests::Translation;
use std::io::Write;

const DIGITS: [u8; 16] = *b"0123456789abcdef";

fn print_part<W: Write>(part: &[u8], to: &mut Output<W>)
    requires { length part.now ≤ 256 }
{
    let mut text = [0u8; 512];
    for (i, &b) in part.iter().enumerate() {
        text[2 * i] = DIGITS[(b / 16) as usize];
        text[2 * i + 1] = DIGITS[(b % 16) as usize];
    }
    to.write(&text[..2 * part.len()]);
}

fn print_block<W: Write>(code: &[u8], count: u32, span: u64, to: &mut Output<W>) {
    let length = code.len();
    to.print(format_args!("block {length} {count} "));
    // 256 bytes at a time, since each write is a call of the system.
    for part in code.chunks(256) {
        print_part(part, to);
    }
    to.print(format_args!(" {span}"));
}

// Prints why there is no block.
fn print_refusal<W: Write>(refusal: Refusal, to: &mut Output<W>) {
    match refusal {
        Refusal::LimitZero => to.write(b"1"),
        Refusal::OddStart(start) => to.print(format_args!("2 {start:016x}")),
        Refusal::Missing(index) => to.print(format_args!("3 {index}")),
        Refusal::NotTaken(word) => to.print(format_args!("4 {word:08x}")),
        Refusal::OutputShort => to.write(b"5"),
    }
}

// Prints the answer, and returns how many bytes of the output are the block's.
fn print_answer<W: Write>(answer: Result<Block, Refusal>, out: &[u8], to: &mut Output<W>) -> usize {
    match answer {
        Ok(block) => {
            if let Some(code) = out.get(..block.length) {
                print_block(code, block.count, block.span, to);
            }
            block.length
        }
        Err(refusal) => {
            print_refusal(refusal, to);
            0
        }
    }
}

fn answer<W: Write>(asked: Translation, halfwords: &[u16], out: &mut [u8], to: &mut Output<W>) {
    requests::fill(out);
    let helpers = Helpers {
        helper16: asked.helper16,
        helper_mem: asked.helper_mem,
    };
    let answer = block::translate(asked.start, asked.limit, halfwords, helpers, out);
    let used = print_answer(answer, out, to);
    if !requests::is_untouched(out, used, out.len()) {
        to.write(b" touched");
    }
}

// Lends an output of the length that is asked for. A function of its own: in `reply` the compiled code cleared the array before it read the
// line, and once more behind that.
fn lend<W: Write>(asked: Translation, halfwords: &[u16], to: &mut Output<W>)
    requires { asked.output ≤ 65536 }
{
    let mut out = [0u8; 65536];
    answer(asked, halfwords, &mut out[..asked.output], to);
}

// Writes the reply to a request; there is none to a line that is no request.
pub fn reply<W: Write>(line: &[u8], to: &mut Output<W>) -> Option<()>
    ensures { is_some result ≡ is_translation 2048 line.now }
{
    let mut halfwords = [0u16; 2048];
    let asked = requests::read_translation(line, &mut halfwords)?;
    lend(asked, &halfwords[..asked.count], to);
    Some(())
}
