// Document 01's program: up to 256 bytes of code from standard input, a last odd byte dropped, are translated at 0x80000000 with
// limit 64 and both helpers 0. The block's bytes go to standard output, or none when the translation is refused.
#![tactic(auto)]

ghost use Rattle.std.specs.Prelude.{◌≡◌, ◌+◌, ◌*◌, ◌≤◌, length, take, IfOk};
ghost use Rattle.translate.specs.Program.{halfwords_of, length_of, written};
ghost use Rattle.translate.specs.Prefix.{IsPrefixLen};

use block::{Block, Helpers, Refusal};
use std::io;
use std::io::{Read, Write};

fn low_and_high(low: u8, high: u8) -> u16
    ensures { result ≡ low + 256 * high }
{
    u16::from_le_bytes([low, high])
}

// The halfwords of the code, little-endian, and how many they are. By index: over `iter_mut().zip(chunks_exact(2))`, for which std has no
// law, the proof did not close.
fn read_halfwords(code: &[u8], halfwords: &mut [u16]) -> usize
    requires { length code.now ≤ 2 * length halfwords.old }
    ensures halfwords_after { take result halfwords.new ≡ halfwords_of code.now }
    ensures upper_bound { result ≤ length halfwords.new }
{
    let n = code.len() / 2;
    for i in 0..n {
        halfwords[i] = low_and_high(code[2 * i], code[2 * i + 1]);
    }
    n
}

fn block_length(answer: Result<Block, Refusal>) -> usize
    ensures { result ≡ length_of answer }
{
    match answer {
        Ok(block) => block.length,
        Err(_) => 0,
    }
}

// The block at the front of the output, and its length, 0 when refused.
fn block_of(code: &[u8], out: &mut [u8]) -> usize
    requires { length code.now ≤ 256 }
    ensures out_after { take result out.new ≡ written code.now (length out.old) }
    ensures prefix_len { IsPrefixLen result out.new }
{
    let mut halfwords = [0u16; 128];
    let n = read_halfwords(code, &mut halfwords);
    let helpers = Helpers {
        helper16: 0,
        helper_mem: 0,
    };
    let answer = block::translate(0x8000_0000, 64, &halfwords[..n], helpers, out);
    block_length(answer)
}

// Reads until `buf` is full or the input ends, and says how many bytes stand at its front. std has no such read without a heap.
fn read_full<R: Read>(reader: &mut R, buf: &mut [u8]) -> io::Result<usize>
    ensures { IfOk result (λ n. IsPrefixLen n buf.new) }
{
    let mut done = 0;
    while done < buf.len() {
        let n = reader.read(&mut buf[done..])?;
        if n == 0 {
            break;
        }
        done += n;
    }
    Ok(done)
}

// A read or a write that fails ends the program with its error.
fn main(rt: HostRuntime) -> io::Result<()> {
    let mut code = [0u8; 256];
    let n = read_full(&mut rt.reader(), &mut code)?;
    let mut out = [0u8; 4099];
    let k = block_of(&code[..n], &mut out);
    io::writer(&rt).write_all(&out[..k])
}
