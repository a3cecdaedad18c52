// P lines: code placed in a store that was filled with a pattern.
ghost use Rattle.std.specs.Prelude.{◌≡◌, is_some};
ghost use Rattle.requests.specs.Lines.{is_placing};

use crate::output::Output;
use std::io::Write;
use store::{NativeCodeCache, Placed, Refusal};

// Another period than the store's pattern has, so that code at a wrong offset is seen.
fn fill_code(code: &mut [u8]) {
    for (i, b) in code.iter_mut().enumerate() {
        *b = 255 - (i % 241) as u8;
    }
}

// Whether the code stands in the store from the offset on.
fn is_copied(store: &[u8], offset: usize, code: &[u8]) -> bool {
    store.get(offset..).is_some_and(|s| s.starts_with(code))
}

// Prints the answer; whether the store and the mark are then as they must be.
fn print_answer<W: Write>(
    answer: Result<Placed, Refusal>,
    used: usize,
    mark: usize,
    code: &[u8],
    store: &[u8],
    to: &mut Output<W>,
) -> bool {
    match answer {
        Ok(placed) => {
            let offset = placed.offset;
            let end = placed.mark;
            to.print(format_args!("placed {offset} {end}"));
            let before = requests::is_untouched(store, 0, offset);
            let behind = requests::is_untouched(store, end, store.len());
            let copied = is_copied(store, offset, code);
            before && behind && copied && mark == end
        }
        Err(refused) => {
            to.print(refused as u8);
            mark == used && requests::is_untouched(store, 0, store.len())
        }
    }
}

// Whatever the mark has become, a store that is then cleared starts at 0 again.
fn answer<W: Write>(used: usize, code: &mut [u8], store: &mut [u8], to: &mut Output<W>) {
    fill_code(code);
    requests::fill(store);
    let mut cache = NativeCodeCache { used };
    let answer = cache.alloc(code, store);
    let kept = print_answer(answer, used, cache.used, code, store, to);
    cache.clear();
    if !kept || cache.used != 0 {
        to.write(b" touched");
    }
}

// Writes the reply to a request, which is lent a code and a store of the lengths that it asks for; there is none to a line that is no
// request.
pub fn reply<W: Write>(line: &[u8], to: &mut Output<W>) -> Option<()>
    ensures { is_some result ≡ is_placing line.now }
{
    let asked = requests::read_placing(line)?;
    let mut code = [0u8; 65536];
    let mut store = [0u8; 65536];
    answer(
        asked.used,
        &mut code[..asked.code],
        &mut store[..asked.store],
        to,
    );
    Some(())
}
